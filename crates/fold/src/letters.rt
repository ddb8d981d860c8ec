ghost use Rattle.fold.specs.Spelled.{Decodes};
ghost use Rattle.fold.specs.Words.{code, digit_of, letters, of_digit};
ghost use Rattle.std.specs.Iterator.{YieldsFirst, item_count};
ghost use Rattle.std.specs.Prelude.{◌≡◌, [], ◌∷◌, Some, codes};

use std::error::Error;
use std::fmt;

/// One fold of the stack: W halves the columns, N halves the rows.
#[derive(Clone, Copy, PartialEq, Eq, Debug)]
pub enum Letter {
    W,
    N,
}

/// A character that is no letter of a fold word.
#[derive(Clone, Copy, PartialEq, Eq, Debug)]
pub struct UnknownLetter(pub char);

impl TryFrom<char> for Letter {
    type Error = UnknownLetter;

    ghost try_from_gives = { Decodes };

    fn try_from(c: char) -> Result<Letter, UnknownLetter> {
        match c {
            'W' => Ok(Letter::W),
            'N' => Ok(Letter::N),
            _ => Err(UnknownLetter(c)),
        }
    }
}

impl From<Letter> for char {
    ghost from_gives = { λ letter c. c ≡ code letter };

    fn from(letter: Letter) -> char {
        match letter {
            Letter::W => 'W',
            Letter::N => 'N',
        }
    }
}

impl fmt::Display for Letter {
    ghost output = { λ letter. Some (code letter ∷ []) };

    fn fmt<W: fmt::Write>(&self, f: &mut fmt::Formatter<W>) -> fmt::Result {
        write!(f, "{}", char::from(*self))
    }
}

impl fmt::Display for UnknownLetter {
    ghost output = { λ _. Some (codes "a letter of a fold word is W or N") };

    fn fmt<W: fmt::Write>(&self, f: &mut fmt::Formatter<W>) -> fmt::Result {
        f.write_str("a letter of a fold word is W or N")
    }
}

impl Error for UnknownLetter {}

/// The letters of a fold word, in the order in which the folds are made.
#[derive(Clone, Debug, Drop)]
pub struct Letters {
    /// A digit for each letter that is left, that of the next one lowest.
    pub(crate) mask: u8,
    pub(crate) left: u8,
}

impl Iterator for Letters {
    type Item = Letter;

    ghost next_gives = { YieldsFirst (λ l. letters l.left l.mask) };

    ghost remaining = { item_count (λ l. letters l.left l.mask) };

    fn next(&mut self) -> Option<Letter> {
        self.left = self.left.checked_sub(1)?;
        let letter = Letter::of_digit(self.mask % 2);
        self.mask /= 2;
        Some(letter)
    }
}

impl Letter {
    // These two are no `From`: users would read every number as a letter.
    /// The letter that a mask's digit stands for.
    pub(crate) fn of_digit(digit: u8) -> Letter
        ensures { result ≡ of_digit digit }
    {
        match digit {
            0 => Letter::W,
            _ => Letter::N,
        }
    }

    /// The digit of a mask that stands for the letter.
    pub(crate) fn digit(self) -> u8
        ensures { result ≡ digit_of self }
    {
        match self {
            Letter::W => 0,
            Letter::N => 1,
        }
    }
}
