//! The values of a comment: words with blanks between, and numbers of one to five digits.
ghost use Rattle.std.specs.Prelude.{◌≡◌};
ghost use Rattle.dsc.specs.Values.{trim, word_of, past_word, number_of};

use text::before;

/// What follows the blanks in front.
pub(crate) fn trimmed<'a>(s: &'a [u8]) -> &'a [u8]
    ensures { result.now ≡ trim s.now }
{
    let mut left = s;
    while let [b' ', rest @ ..] = left {
        left = rest;
    }
    left
}

/// The first word, and what follows it.
pub(crate) fn word<'a>(s: &'a [u8]) -> (&'a [u8], &'a [u8])
    ensures { (result.0.now ≡ word_of s.now) × (result.1.now ≡ past_word s.now) }
{
    let s = trimmed(s);
    let n = before(s, b' ');
    s.split_at(n)
}

/// The number that a word of one to five digits writes.
pub(crate) fn number(word: &[u8]) -> Option<u32>
    ensures { result ≡ number_of word.now }
{
    if word.is_empty() || word.len() > 5 {
        return None;
    }
    // Not parse, which reads a sign and more digits.
    let mut n: u32 = 0;
    for b in word {
        match *b {
            b'0'..=b'9' => n = n * 10 + (*b - b'0') as u32,
            _ => return None,
        }
    }
    Some(n)
}
