//! A DSC reader, which holds its file and its index.
ghost use Rattle.std.specs.Prelude.{◌≡◌};
ghost use Rattle.pages.specs.Meaning.{Lawful};
ghost use Rattle.dsc.specs.Scans.{meant};
ghost use Rattle.dsc.specs.Readers.{Held, meaning_of};
ghost use Rattle.pages.specs.Props.{AllCalm-prop};
ghost use Rattle.std.proofs.Props.{props};

use pages::maps::Size;

/// A reader of a DSC file. It borrows the file and the index that scan filled, and copies neither.
#[derive(Drop)]
pub struct Dsc<'a> {
    pub(crate) file: &'a [u8],
    pub(crate) index: &'a [u32],
    pub(crate) leaves: u32,
    pub(crate) size: Size,
    ghost counted: { leaves ≡ (meant file.now).leaves },
    ghost sized: { size ≡ (meant file.now).size },
    ghost held: { Held file.now index.now },
    ghost lawful: { Lawful (meaning_of file.now) } by { Prim.hlevel (props, AllCalm-prop) },
}
