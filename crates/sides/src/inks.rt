//! Sinks that take inks.

ghost use Rattle.std.specs.Prelude.{is_some};
ghost use Rattle.sides.specs.Texts.{ink_of};

use pages::sources::Source;
use text::{Counter, Lent, Sink};

/// A sink that takes the ink of a leaf too: a count asks the source for its length, a buffer has the source pour it.
pub(crate) trait InkSink: Sink {
    /// Takes the ink of a leaf, or answers None where it does not fit. A leaf that there is not has none.
    fn take_ink<S: Source>(&mut self, source: &S, leaf: u32) -> Option<()>
        ensures { Self.takes self.old (ink_of (S.Source.meaning source.now) leaf) (is_some result) self.new };
}

impl InkSink for Counter {
    fn take_ink<S: Source>(&mut self, source: &S, leaf: u32) -> Option<()> {
        let length = source.length(leaf).unwrap_or(0);
        self.count = self.count.checked_add(length as usize)?;
        Some(())
    }
}

impl<'a> InkSink for Lent<'a> {
    fn take_ink<S: Source>(&mut self, source: &S, leaf: u32) -> Option<()> {
        if source.leaves() < leaf {
            return Some(());
        }
        self.at = source.pour(leaf, self.buffer, self.at).ok()?;
        Some(())
    }
}
