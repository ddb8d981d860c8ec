//! Page sources: anything that shows pages made of placed leaves.

ghost use Rattle.std.specs.Prelude.{◌≡◌, ◌+◌, ◌≤◌, length};
ghost use Rattle.pages.specs.Splice.{splice};
ghost use Rattle.pages.specs.Meaning.{Meaning, Lawful, size_of, laid_at, place_at, length_at, end_at, written, pour_at, poured};

use crate::faults::{Fault, Refusal};
use crate::maps::{Placement, Size};

/// A source of pages. Its meaning says all that can be asked of it, and no question alters it.
pub trait Source {
    ghost meaning: { Self → Meaning };

    /// The size of every page.
    fn size(&self) -> Size
        ensures { result ≡ size_of (meaning self.now) };

    /// How many leaves there are besides the preamble, leaf 0.
    fn leaves(&self) -> u32
        ensures { result ≡ (meaning self.now).leaves };

    /// How many pages there are.
    fn pages(&self) -> u32
        ensures { result ≡ (meaning self.now).pages };

    /// 1 for a reader, and one more for each layer above it.
    fn depth(&self) -> u8
        ensures { result ≡ (meaning self.now).depth };

    /// How many placements a page has; pages count from 1.
    fn laid(&self, page: u32) -> Result<u32, Fault>
        ensures { result ≡ laid_at (meaning self.now) page };

    /// The placement in a slot of a page; slots count from 1.
    fn place(&self, page: u32, slot: u32) -> Result<Placement, Fault>
        ensures { result ≡ place_at (meaning self.now) page slot };

    /// How many bytes a leaf's ink has.
    fn length(&self, leaf: u32) -> Result<u32, Fault>
        ensures { result ≡ length_at (meaning self.now) leaf };

    /// Writes a leaf's ink, and nothing else, into the buffer from byte `at` on, and answers the place after it.
    fn pour(&self, leaf: u32, buffer: &mut [u8], at: usize) -> Result<usize, Fault>
        ensures answer { result ≡ pour_at (meaning self.now) leaf (length buffer.old) at }
        ensures after { buffer.new ≡ poured (meaning self.now) leaf buffer.old at };

    ghost lawful: { (s : Self) → Lawful (meaning s) };
}

// Writes items over a part of the buffer.
fn put<T: Copy>(items: &[T], buffer: &mut [T], at: usize)
    requires { at + length items.now ≤ length buffer.old }
    ensures { buffer.new ≡ splice buffer.old at items.now }
{
    let part = &mut buffer[at..at + items.len()];
    part.copy_from_slice(items);
}

/// Writes items into the buffer from place `at` on, if they fit: what pour does with an ink that stands somewhere as bytes.
pub fn write<T: Copy>(items: &[T], buffer: &mut [T], at: usize) -> Result<usize, Fault>
    ensures answer { result ≡ end_at items.now (length buffer.old) at }
    ensures after { buffer.new ≡ written items.now buffer.old at }
{
    if buffer.len() < at || buffer.len() - at < items.len() {
        return Err(Fault::new(Refusal::ShortBuffer, 1, 0));
    }
    put(items, buffer, at);
    Ok(at + items.len())
}
