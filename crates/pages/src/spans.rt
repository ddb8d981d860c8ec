//! Where inks lie in a file, and the index that says so: a pair of offset and length for each leaf, the preamble's first.

ghost use Rattle.std.specs.Prelude.{◌≡◌, ◌+◌, ◌*◌, ◌↔◌, Some, take, drop, length};
ghost use Rattle.pages.specs.Meaning.{written};
ghost use Rattle.pages.specs.Spans.{pair, put_answer};

use crate::faults::{Fault, Refusal};
use crate::sources::write;

/// Where an ink lies in its file.
#[derive(Clone, Copy, PartialEq, Eq, Debug)]
pub struct Span {
    pub offset: u32,
    pub length: u32,
}

impl Span {
    /// The span of a leaf in an index; None where the index ends before it.
    pub fn at(index: &[u32], leaf: usize) -> Option<Span>
        ensures { (s : Span) → (result ≡ Some s) ↔ (take 2 (drop (2 * leaf) index.now) ≡ pair s) }
    {
        let numbers = index.get(leaf.checked_mul(2)?..)?;
        match numbers {
            [offset, length, ..] => Some(Span {
                offset: *offset,
                length: *length,
            }),
            _ => None,
        }
    }

    /// Writes the span as that of a leaf into the index, if there is room for it.
    pub fn put(self, index: &mut [u32], leaf: usize) -> Result<(), Fault>
        ensures answer { result ≡ put_answer leaf (length index.old) }
        ensures after { index.new ≡ written (pair self) index.old (2 * leaf) }
    {
        let full = Fault::new(Refusal::ShortBuffer, 1, 0);
        let at = leaf.checked_mul(2).ok_or(full)?;
        write(&[self.offset, self.length], index, at)?;
        Ok(())
    }
}

/// How many numbers an index has: a pair for the preamble, and one for each of so many leaves.
pub fn index_numbers(leaves: u32) -> usize
    ensures { result ≡ 2 * leaves + 2 }
{
    2 * (1 + leaves as usize)
}
