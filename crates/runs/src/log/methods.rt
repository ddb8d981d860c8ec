ghost use Rattle.runs.specs.History.{event};
ghost use Rattle.runs.specs.Logs.{Noted, history};
ghost use Rattle.runs.specs.Replies.{reply};
ghost use Rattle.std.specs.Prelude.{◌≡◌, []};

use super::{Entry, Log};
use crate::calls::{Answer, Call};
use std::alloc::{AllocError, Global};

impl Log {
    /// A log of no calls.
    pub fn new(heap: Global) -> Log
        ensures { history result ≡ [] }
    {
        Log {
            entries: Vec::new(heap),
            heap,
        }
    }

    /// Notes a call. Where memory is wanting, nothing is noted.
    pub fn note(&mut self, call: Call, answer: Answer, text: &[u8]) -> Result<(), AllocError>
        ensures { Noted (history self.old) (event call (reply answer text.now)) (history self.new) result }
    {
        let text = Vec::from_slice(self.heap, text)?;
        self.entries.push(Entry { call, answer, text })?;
        Ok(())
    }
}
