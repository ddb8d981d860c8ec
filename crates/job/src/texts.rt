//! The text of a side, made ready.

ghost use Rattle.job.specs.Books.{max_side};
ghost use Rattle.signature.specs.Imposing.{impose_shows};
ghost use Rattle.sides.specs.Puts.{Put};
ghost use Rattle.sides.specs.Texts.{parts_text};
ghost use Rattle.std.specs.Prelude.{◌≡◌, ◌≤◌, length};

use arrayvec::ArrayVec;
use layers::page_parts::PageParts;
use layers::parts::Part;
use pages::sources::Source;
use sides::{frame_length, position_length, put_side};
use signature::imposition::Sheets;

/// The most positions that a side has.
const MAX_POSITIONS: usize = 16;

/// What the text of a side is made of: its number and its positions.
#[derive(Drop)]
pub(crate) struct SideText {
    pub(crate) side: u32,
    positions: ArrayVec<Part, MAX_POSITIONS>,
}

impl SideText {
    /// That of a side of a Signature layer.
    pub(crate) fn of<S: Source>(layer: &Sheets<S>, side: u32) -> SideText
        ensures side { result.side ≡ side }
        ensures positions { result.positions.items ≡ impose_shows layer.now.rule.signature (S.meaning layer.now.below) side }
    {
        let mut positions = ArrayVec::new();
        for position in PageParts::of(layer.covered(), layer.rule(), side) {
            positions.push(position);
        }
        SideText { side, positions }
    }

    /// How many bytes it has: the lengths of its positions are added up, and nothing is written.
    pub(crate) fn length<S: Source>(&self, below: &S) -> usize
        ensures all { result ≡ length (parts_text (S.meaning below.now) self.now.side self.now.positions.items) }
        ensures few { result ≤ max_side }
    {
        let mut length = frame_length(self.side);
        for position in self.positions.as_slice() {
            length += position_length(below, position);
        }
        length
    }

    /// Writes it at the buffer's start, and answers its length; None where it does not fit.
    pub(crate) fn write<S: Source>(&self, below: &S, buffer: &mut [u8]) -> Option<usize>
        ensures { Put buffer.old 0 (parts_text (S.meaning below.now) self.now.side self.now.positions.items) buffer.new result }
    {
        put_side(below, self.side, self.positions.as_slice(), buffer)
    }
}
