//! What takes the bytes of a text: one kind counts them, one writes them into a lent buffer.

ghost use Rattle.std.specs.Prelude.{◌≡◌, ℕ, ◌^◌, ◌<◌, ◌≤◌, Bool, true, false, [], List, ◌++◌, is_some, length};

use pages::sources::write;

/// What takes the bytes of a text, as far as they fit.
pub trait Sink {
    // A sink, the bytes that it was given, whether they fitted, and the sink afterwards.
    ghost takes: { Self → List ℕ → Bool → Self → Type 0 };

    /// Takes some bytes, or answers None where they do not fit.
    fn take(&mut self, bytes: &[u8]) -> Option<()>
        ensures { takes self.old bytes.now (is_some result) self.new };

    // Nothing taken changes nothing.
    ghost nothing: { (s : Self) → takes s [] true s };

    // Bytes that are taken one after the other are taken as one text, whether the last of them fit or not.
    ghost both: { (s t u : Self) (xs ys : List ℕ) (fit : Bool) → takes s xs true t → takes t ys fit u → takes s (xs ++ ys) fit u };

    // A text whose front does not fit does not fit.
    ghost short: { (s t : Self) (xs ys : List ℕ) → takes s xs false t → takes s (xs ++ ys) false t };
}

/// Counts bytes, as many as a `usize` can.
#[derive(Drop)]
pub struct Counter {
    pub count: usize,
    ghost small: { count < 2 ^ 64 },
}

/// A lent buffer, which is written from place `at` on.
#[derive(Drop)]
pub struct Lent<'a> {
    pub buffer: &'a mut [u8],
    pub at: usize,
    ghost within: { at ≤ length buffer.now },
}

impl Sink for Counter {
    ghost use Rattle.text.specs.Sinks.{Counted};
    ghost use Rattle.text.specs.Sinking.{counted_nothing, counted_both, counted_short};

    ghost takes = { Counted };

    ghost nothing = { counted_nothing };

    ghost both = { counted_both };

    ghost short = { counted_short };

    fn take(&mut self, bytes: &[u8]) -> Option<()> {
        self.count = self.count.checked_add(bytes.len())?;
        Some(())
    }
}

impl<'a> Sink for Lent<'a> {
    ghost use Rattle.text.specs.Sinks.{Filled};
    ghost use Rattle.text.specs.Sinking.{filled_nothing, filled_both, filled_short};

    ghost takes = { Filled };

    ghost nothing = { filled_nothing };

    ghost both = { filled_both };

    ghost short = { filled_short };

    fn take(&mut self, bytes: &[u8]) -> Option<()> {
        self.at = write(bytes, self.buffer, self.at).ok()?;
        Some(())
    }
}
