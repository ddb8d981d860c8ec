ghost use Rattle.std.specs.Prelude.{◌≡◌, ◌≤◌};

use crate::word::Word;

mod methods;

/// A signature: one to sixteen sheets that are stacked and folded by a word.
#[derive(Clone, Copy, PartialEq, Eq, Debug)]
pub struct Signature {
    word: Word,
    sheets: u32,
    ghost thickness: { (1 ≤ sheets) × (sheets ≤ 16) },
}

impl Signature {
    pub fn word(&self) -> Word
        ensures { result ≡ self.now.word }
    {
        self.word
    }

    pub fn sheets(&self) -> u32
        ensures { result ≡ self.now.sheets }
    {
        self.sheets
    }
}
