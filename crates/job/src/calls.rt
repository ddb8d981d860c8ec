//! The calls of a job.

ghost use Rattle.job.specs.Books.{job_book, job_depth, longest, per_side, sheets, side_printed, sides};
ghost use Rattle.job.specs.Calls.{cell_at, print_refusal, printing, pullable, pulled, start_answer};
ghost use Rattle.pages.specs.Meaning.{fault, written};
ghost use Rattle.pages.specs.declared.faults.Refusal.TheVariants.{NoSuch};
ghost use Rattle.sides.specs.Texts.{ending_text, opening_of};
ghost use Rattle.signature.specs.Imposing.{impose_shows};
ghost use Rattle.std.specs.Prelude.{◌≡◌, ◌+◌, ◌*◌, true, false, length, map, max, Some, None, MatchResult};
ghost use Rattle.std.specs.List.{fold, range_with_len};

use crate::job::Job;
use crate::texts::SideText;
use fold::{Cell, Signature};
use layers::rules::Rule;
use pages::faults::{Fault, Refusal};
use pages::sources::Source;
use plan::record::Record;
use plan::records::{cell, put_records};
use sides::{ending_length, opening_length};

// The next side to print, to which there is no objection.
#[derive(Drop)]
struct Next {
    signature: Signature,
    text: SideText,
}

impl<S: Source> Job<S> {
    // The signature by which the sides are laid; None before the layer's first order.
    fn signature(&self) -> Option<Signature>
        ensures { result ≡ self.now.layer.rule.signature }
    {
        self.layer.rule().signature()
    }

    // A refusal of the job itself.
    fn refused(&self, kind: Refusal, page: u32) -> Fault
        ensures { result ≡ fault kind (job_depth (job_book S.meaning self.now)) page }
    {
        Fault::new(kind, self.layer.depth().saturating_add(1), page)
    }

    // The next side, or why it is not printed into a buffer of `room` bytes and a plan of `list` records. The length of all
    // its text is added up before anything is written.
    fn next(&self, room: usize, list: usize) -> Result<Next, Refusal>
        ensures { MatchResult result
            (λ next. (print_refusal (job_book S.meaning self.now) self.now.printed room list ≡ None)
            × (self.now.layer.rule.signature ≡ Some next.signature)
            × (next.text.side ≡ self.now.printed + 1)
            × (next.text.positions.items ≡ impose_shows self.now.layer.rule.signature (S.meaning self.now.layer.below) (self.now.printed + 1)))
            (λ kind. print_refusal (job_book S.meaning self.now) self.now.printed room list ≡ Some kind) }
    {
        let signature = self.signature().ok_or(Refusal::Finished)?;
        if self.layer.pages() <= self.printed {
            return Err(Refusal::Finished);
        }
        let side = self.printed + 1;
        let text = SideText::of(&self.layer, side);
        if room < text.length(self.layer.covered()) {
            return Err(Refusal::ShortBuffer);
        }
        if list < side as usize * signature.cells() as usize {
            return Err(Refusal::ShortPlan);
        }
        Ok(Next { signature, text })
    }

    /// How many sides there are to print: none before the layer's first order.
    pub fn sides(&self) -> u32
        ensures { result ≡ sides (job_book S.meaning self.now) }
    {
        self.signature().map_or(0, |_| self.layer.pages())
    }

    /// How many records the plan of the whole book has: one for each position of each side.
    pub fn plan_length(&self) -> usize
        ensures { result ≡ sides (job_book S.meaning self.now) * per_side (job_book S.meaning self.now) }
    {
        let cells = self.signature().map_or(0, |signature| signature.cells());
        self.sides() as usize * cells as usize
    }

    // How many bytes the text of a side has.
    fn side_length(&self, side: u32) -> usize
        ensures { result ≡ length (side_printed (job_book S.meaning self.now) side) }
    {
        SideText::of(&self.layer, side).length(self.layer.covered())
    }

    // The greatest of a length and those of all sides.
    fn longest_side(&self, least: usize) -> usize
        ensures { result ≡ fold max least (map (λ i. length (side_printed (job_book S.meaning self.now) (i + 1))) (range_with_len 0 (sides (job_book S.meaning self.now)))) }
    {
        (0..self.sides())
            .map(|before| self.side_length(before + 1))
            .fold(least, |most, length| most.max(length))
    }

    /// How many bytes the longest text of the book has, be it the opening, a side or the ending: a buffer of so many bytes
    /// has room for each.
    pub fn room(&self) -> usize
        ensures { result ≡ longest (job_book S.meaning self.now) (sides (job_book S.meaning self.now)) }
    {
        self.longest_side(opening_length(&self.layer).max(ending_length()))
    }

    /// Prints the next side: writes its text at the buffer's start, and its records into the plan after those of the sides
    /// before, and answers the length of the text. A refusal alters nothing.
    pub fn print(&mut self, buffer: &mut [u8], plan: &mut [Record]) -> Result<usize, Fault>
        ensures same { self.new.layer ≡ self.old.layer }
        ensures count { self.new.printed ≡ (printing (job_book S.meaning self.old) self.old.printed buffer.old plan.old).count }
        ensures answer { result ≡ (printing (job_book S.meaning self.old) self.old.printed buffer.old plan.old).answer }
        ensures text { buffer.new ≡ (printing (job_book S.meaning self.old) self.old.printed buffer.old plan.old).buffer }
        ensures records { plan.new ≡ (printing (job_book S.meaning self.old) self.old.printed buffer.old plan.old).plan }
    {
        let next = self
            .next(buffer.len(), plan.len())
            .map_err(|kind| self.refused(kind, 0))?;
        let before = self.printed as usize * next.signature.cells() as usize;
        // Both fit, as next has found.
        let length = next.text.write(self.layer.covered(), buffer).unwrap();
        put_records(&next.signature, next.text.side, plan, before).unwrap();
        self.printed = next.text.side;
        Ok(length)
    }

    /// Makes side `side`, one of those printed or the one after them, the next to print.
    pub fn pull_back(&mut self, side: u32) -> Result<(), Fault>
        ensures same { self.new.layer ≡ self.old.layer }
        ensures count { self.new.printed ≡ pulled self.old.printed side }
        ensures answer { MatchResult result
            (λ _. pullable self.old.printed side ≡ true)
            (λ f. (pullable self.old.printed side ≡ false)
            × (f ≡ fault NoSuch (job_depth (job_book S.meaning self.old)) side)) }
    {
        if side == 0 || self.printed < side - 1 {
            return Err(self.refused(Refusal::NoSuch, side));
        }
        self.printed = side - 1;
        Ok(())
    }

    /// Writes what opens the book at the buffer's start, and answers its length.
    pub fn opening(&self, buffer: &mut [u8]) -> Result<usize, Fault>
        ensures answer { result ≡ start_answer (job_book S.meaning self.now) (opening_of (sheets (job_book S.meaning self.now))) (length buffer.old) }
        ensures after { buffer.new ≡ written (opening_of (sheets (job_book S.meaning self.now))) buffer.old 0 }
    {
        sides::opening(&self.layer, buffer).ok_or(self.refused(Refusal::ShortBuffer, 0))
    }

    /// Writes what ends the book at the buffer's start, and answers its length.
    pub fn ending(&self, buffer: &mut [u8]) -> Result<usize, Fault>
        ensures answer { result ≡ start_answer (job_book S.meaning self.now) ending_text (length buffer.old) }
        ensures after { buffer.new ≡ written ending_text buffer.old 0 }
    {
        sides::ending(buffer).ok_or(self.refused(Refusal::ShortBuffer, 0))
    }

    /// The page and mark at a position of a side.
    pub fn cell(&self, side: u32, row: u32, column: u32) -> Result<Cell, Fault>
        ensures { result ≡ cell_at (job_book S.meaning self.now) side row column }
    {
        let missing = self.refused(Refusal::NoSuch, side);
        let signature = self.signature().ok_or(missing)?;
        if self.layer.pages() < side {
            return Err(missing);
        }
        cell(&signature, side, row, column).ok_or(missing)
    }
}
