//! The questions of the Signature layer, which a job answers by name; layer gives the layer itself.

ghost use Rattle.job.specs.Books.{job_book, sheets};
ghost use Rattle.pages.specs.Meaning.{laid_at, length_at, place_at, pour_at, poured, size_of};
ghost use Rattle.std.specs.Prelude.{◌≡◌, length};

use crate::job::Job;
use pages::faults::Fault;
use pages::maps::{Placement, Size};
use pages::sources::Source;

impl<S: Source> Job<S> {
    /// The size of every side.
    pub fn size(&self) -> Size
        ensures { result ≡ size_of (sheets (job_book S.meaning self.now)) }
    {
        self.layer.size()
    }

    /// How many leaves there are besides the preamble, leaf 0.
    pub fn leaves(&self) -> u32
        ensures { result ≡ (sheets (job_book S.meaning self.now)).leaves }
    {
        self.layer.leaves()
    }

    /// How many sides there are.
    pub fn pages(&self) -> u32
        ensures { result ≡ (sheets (job_book S.meaning self.now)).pages }
    {
        self.layer.pages()
    }

    /// The depth of the Signature layer.
    pub fn depth(&self) -> u8
        ensures { result ≡ (sheets (job_book S.meaning self.now)).depth }
    {
        self.layer.depth()
    }

    /// How many placements a side has.
    pub fn laid(&self, page: u32) -> Result<u32, Fault>
        ensures { result ≡ laid_at (sheets (job_book S.meaning self.now)) page }
    {
        self.layer.laid(page)
    }

    /// The placement in a slot of a side; slots count from 1.
    pub fn place(&self, page: u32, slot: u32) -> Result<Placement, Fault>
        ensures { result ≡ place_at (sheets (job_book S.meaning self.now)) page slot }
    {
        self.layer.place(page, slot)
    }

    /// How many bytes a leaf's ink has.
    pub fn length(&self, leaf: u32) -> Result<u32, Fault>
        ensures { result ≡ length_at (sheets (job_book S.meaning self.now)) leaf }
    {
        self.layer.length(leaf)
    }

    /// Writes a leaf's ink, and nothing else, into the buffer from byte `at` on, and answers the place after it.
    pub fn pour(&self, leaf: u32, buffer: &mut [u8], at: usize) -> Result<usize, Fault>
        ensures answer { result ≡ pour_at (sheets (job_book S.meaning self.now)) leaf (length buffer.old) at }
        ensures after { buffer.new ≡ poured (sheets (job_book S.meaning self.now)) leaf buffer.old at }
    {
        self.layer.pour(leaf, buffer, at)
    }
}
