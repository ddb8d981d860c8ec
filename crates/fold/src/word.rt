ghost use Rattle.std.specs.Prelude.{◌^◌, ◌<◌, ◌≤◌};

mod methods;

/// A fold word of one to four letters.
///
/// It is held as a mask with a digit for each letter, the first letter's lowest: 0 is W, 1 is N. So the ones of the
/// mask are the letters N.
#[derive(Clone, Copy, PartialEq, Eq, Debug)]
pub struct Word {
    mask: u8,
    len: u8,
    ghost lettered: { (1 ≤ len) × (len ≤ 4) },
    ghost within: { mask < 2 ^ len },
}

/// A text that is not one to four letters W and N.
#[derive(Clone, Copy, PartialEq, Eq, Debug)]
pub struct NotAWord;
