//! What a call has done.

ghost use Rattle.std.specs.Prelude.{◌≡◌};
ghost use Rattle.runs.specs.Steps.{Said, Told, silently};

use crate::calls::Answer;
use pages::faults::Fault;
use std::ops::Range;

/// An answer, and where in the buffer the text that it speaks of lies.
#[derive(Drop)]
pub(crate) struct Done {
    pub(crate) answer: Answer,
    pub(crate) text: Range<usize>,
}

/// An answer that speaks of no text.
impl From<Answer> for Done {
    ghost from_gives = { λ a r. r ≡ record { answer = a; text = record { start = 0; end = 0 } } };

    fn from(answer: Answer) -> Done {
        Done { answer, text: 0..0 }
    }
}

/// What a call has done that wrote a text from place `at` of the buffer on, and answered the place after it.
pub(crate) fn said<F: FnOnce(usize) -> Answer>(at: usize, end: Result<usize, Fault>, say: F) -> Done
    requires { F.IsAlwaysCallable say }
    ensures { Said (F.post say) at end result }
{
    match end {
        Ok(end) => Done {
            answer: say(end),
            text: at..end,
        },
        Err(fault) => Done::from(Answer::Refused(fault)),
    }
}

/// What a call has done that was answered without a text.
pub(crate) fn told<T, F: FnOnce(T) -> Answer>(answer: Result<T, Fault>, say: F) -> Done
    requires { F.IsAlwaysCallable say }
    ensures { Told (F.post say) answer result }
{
    match answer {
        Ok(value) => Done::from(say(value)),
        Err(fault) => Done::from(Answer::Refused(fault)),
    }
}
