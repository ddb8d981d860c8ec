//! What a run calls: anything that prints an edition side by side.

ghost use Rattle.std.specs.Prelude.{◌≡◌, ℕ, length};
ghost use Rattle.job.specs.Calls.{pulled};
ghost use Rattle.pages.specs.Meaning.{laid_at, length_at, place_at, pour_at, poured, size_of};
ghost use Rattle.runs.specs.Editions.{Edition, Prints, Writes, cell_at, depth_of, pull_back, state};

use fold::Cell;
use pages::faults::Fault;
use pages::maps::{Placement, Size};
use plan::record::Record;

/// Prints an edition. No call alters the edition, and each says what it does to the sides that stand printed.
pub trait Printer {
    /// What is printed.
    ghost edition: { Self → Edition };

    /// How many of its sides stand printed.
    ghost printed: { Self → ℕ };

    /// That the second is the first, but for the sides that stand printed.
    ghost stays: { Self → Self → Type 0 };

    /// Prints the next side at the buffer's start, and its records into the plan, after those of the sides before.
    fn print(&mut self, buffer: &mut [u8], plan: &mut [Record]) -> Result<usize, Fault>
        ensures same { stays self.old self.new }
        ensures prints { Prints (edition self.old) (state (printed self.old) buffer.old plan.old) (state (printed self.new) buffer.new plan.new) result };

    /// Goes back to before a side.
    fn pull_back(&mut self, side: u32) -> Result<(), Fault>
        ensures same { stays self.old self.new }
        ensures answer { result ≡ pull_back (edition self.old) (printed self.old) side }
        ensures count { printed self.new ≡ pulled (printed self.old) side };

    /// Writes what stands before the sides at the buffer's start.
    fn opening(&self, buffer: &mut [u8]) -> Result<usize, Fault>
        ensures { Writes (edition self.now).opening (depth_of (edition self.now)) buffer.old buffer.new result };

    /// Writes what stands after the sides at the buffer's start.
    fn ending(&self, buffer: &mut [u8]) -> Result<usize, Fault>
        ensures { Writes (edition self.now).ending (depth_of (edition self.now)) buffer.old buffer.new result };

    /// How many sides stand printed.
    fn how_far(&self) -> u32
        ensures { result ≡ printed self.now };

    /// The page and mark at a position of a side.
    fn cell(&self, side: u32, row: u32, column: u32) -> Result<Cell, Fault>
        ensures { result ≡ cell_at (edition self.now) side row column };

    /// The questions of the layer whose pages are the sides.
    fn size(&self) -> Size
        ensures { result ≡ size_of (edition self.now).layer };

    fn leaves(&self) -> u32
        ensures { result ≡ (edition self.now).layer.leaves };

    fn pages(&self) -> u32
        ensures { result ≡ (edition self.now).layer.pages };

    fn depth(&self) -> u8
        ensures { result ≡ (edition self.now).layer.depth };

    fn laid(&self, page: u32) -> Result<u32, Fault>
        ensures { result ≡ laid_at (edition self.now).layer page };

    fn place(&self, page: u32, slot: u32) -> Result<Placement, Fault>
        ensures { result ≡ place_at (edition self.now).layer page slot };

    fn length(&self, leaf: u32) -> Result<u32, Fault>
        ensures { result ≡ length_at (edition self.now).layer leaf };

    fn pour(&self, leaf: u32, buffer: &mut [u8], at: usize) -> Result<usize, Fault>
        ensures answer { result ≡ pour_at (edition self.now).layer leaf (length buffer.old) at }
        ensures after { buffer.new ≡ poured (edition self.now).layer leaf buffer.old at };

    ghost reflexive: { (a : Self) → stays a a };

    ghost transitive: { (a b c : Self) → stays a b → stays b c → stays a c };

    ghost constant: { (a b : Self) → stays a b → edition b ≡ edition a };

    ghost even: { (s : Self) (p : ℕ) → length ((edition s).records p) ≡ (edition s).per };
}
