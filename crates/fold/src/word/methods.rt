ghost use Rattle.std.specs.Prelude.{◌≡◌, ◌^◌, ◌<◌, ◌≤◌, [], ◌∷◌, ◌++◌, length, Some, MatchResult, codes};
ghost use Rattle.fold.specs.Spelled.{Reads, spelled, text_of, unread};
ghost use Rattle.fold.specs.Walk.{WithRoom, walk};
ghost use Rattle.fold.specs.Words.{columns_of, count_n, count_w, rows_of, scheme};
ghost use Rattle.std.specs.List.{slice_get};
ghost use Rattle.std.specs.Option.{option_map};

use super::{NotAWord, Word};
use crate::letters::{Letter, Letters, UnknownLetter};
use crate::walk::CellState;
use std::error::Error;
use std::fmt;
use std::str::FromStr;

fn two_to(exponent: u32) -> u32
    requires { exponent ≤ 4 }
    ensures { result ≡ 2 ^ exponent }
{
    1 << exponent
}

impl From<Letter> for Word {
    ghost from_gives = { λ letter word. spelled word ≡ letter ∷ [] };

    fn from(letter: Letter) -> Word {
        Word {
            mask: letter.digit(),
            len: 1,
        }
    }
}

impl From<UnknownLetter> for NotAWord {
    fn from(_: UnknownLetter) -> NotAWord {
        NotAWord
    }
}

impl TryFrom<&[u8]> for Word {
    type Error = NotAWord;

    ghost try_from_gives = { λ text r. Reads text.now r };

    fn try_from(text: &[u8]) -> Result<Word, NotAWord> {
        let [first, others @ ..] = text else {
            return Err(NotAWord);
        };
        let mut word = Word::from(Letter::try_from(char::from(*first))?);
        for b in others {
            word = word.push(Letter::try_from(char::from(*b))?)?;
        }
        Ok(word)
    }
}

impl FromStr for Word {
    type Err = NotAWord;

    ghost from_str_gives = { Reads };

    fn from_str(text: &str) -> Result<Word, NotAWord> {
        Word::try_from(text.as_bytes())
    }
}

/// The letters, in the order in which the folds are made.
impl fmt::Display for Word {
    ghost output = { λ word. Some (text_of (spelled word)) };

    fn fmt<W: fmt::Write>(&self, f: &mut fmt::Formatter<W>) -> fmt::Result {
        for letter in self.letters() {
            write!(f, "{letter}")?;
        }
        Ok(())
    }
}

impl fmt::Display for NotAWord {
    ghost output = { λ _. Some (codes "a fold word is one to four letters W and N") };

    fn fmt<W: fmt::Write>(&self, f: &mut fmt::Formatter<W>) -> fmt::Result {
        f.write_str("a fold word is one to four letters W and N")
    }
}

impl Error for NotAWord {}

impl Word {
    /// The word of a scheme: 1 is W, 2 NW, 3 WNW, 4 WW, 5 NWNW. There are no others.
    pub fn scheme(number: u32) -> Option<Word>
        ensures { option_map spelled result ≡ scheme number }
    {
        match number {
            1 => Some(Word { mask: 0b0, len: 1 }),
            2 => Some(Word { mask: 0b01, len: 2 }),
            3 => Some(Word {
                mask: 0b010,
                len: 3,
            }),
            4 => Some(Word { mask: 0b00, len: 2 }),
            5 => Some(Word {
                mask: 0b0101,
                len: 4,
            }),
            _ => None,
        }
    }

    /// The word with one letter more at its end; none where it has four already.
    fn push(self, letter: Letter) -> Result<Word, NotAWord>
        ensures { MatchResult result (λ w. spelled w ≡ spelled self ++ letter ∷ []) (λ _. length (spelled self) ≡ 4) }
    {
        if self.len >= 4 {
            return Err(NotAWord);
        }
        Ok(Word {
            mask: letter.digit() << self.len | self.mask,
            len: self.len + 1,
        })
    }

    /// The letters, in the order in which the folds are made.
    pub fn letters(&self) -> Letters
        ensures { unread result ≡ spelled self.now }
    {
        Letters {
            mask: self.mask,
            left: self.len,
        }
    }

    /// The letter at an index, from 0.
    pub fn letter(&self, index: u32) -> Option<Letter>
        ensures { result ≡ slice_get (spelled self.now) index }
    {
        self.letters().nth(index as usize)
    }

    /// How many letters are N: the ones of the mask.
    fn count_n(&self) -> u32
        ensures { (result ≡ count_n (spelled self.now)) × (result ≤ 4) }
    {
        self.mask.count_ones()
    }

    /// How many letters are W: the others.
    fn count_w(&self) -> u32
        ensures { (result ≡ count_w (spelled self.now)) × (result ≤ 4) }
    {
        u32::from(self.len) - self.count_n()
    }

    /// The rows of a side: two to the number of letters N.
    pub fn rows(&self) -> u32
        ensures { result ≡ rows_of (spelled self.now) }
    {
        two_to(self.count_n())
    }

    /// The columns of a side: two to the number of letters W.
    pub fn columns(&self) -> u32
        ensures { result ≡ columns_of (spelled self.now) }
    {
        two_to(self.count_w())
    }

    /// Takes a cell through the letters, the first one first.
    pub(crate) fn walk(&self, start: CellState) -> CellState
        requires { WithRoom self.now.len start }
        ensures { (result ≡ walk (spelled self.now) start) × ((1 ≤ result.depth) × (result.depth ≤ 256)) }
    {
        let mut cell = start;
        for letter in self.letters() {
            cell = cell.take(letter);
        }
        cell
    }
}
