//! The calls of a run, carried out one after the other, and noted.

ghost use Rattle.std.specs.Prelude.{◌≡◌, ◌≤◌, [], ◌∷◌, length, slice_range};
ghost use Rattle.runs.specs.Logs.{Carried, history};
ghost use Rattle.runs.specs.Steps.{Does, Lent, Sized, state_of};

use crate::calls::{Answer, Call};
use crate::done::{Done, said, told};
use crate::log::Log;
use crate::printer::Printer;
use crate::session::Session;
use pages::sources::Source;
use std::alloc::AllocError;
use std::ops::Range;

impl<'a, P: Printer> Session<'a, P> {
    // Carries out one call, which may use the first bytes of the buffer.
    fn perform(&mut self, call: Call) -> Done
        ensures lent { Lent self.old self.new }
        ensures same { P.stays self.old.printer.now self.new.printer.now }
        ensures sized { Sized (state_of P.printed self.old) (state_of P.printed self.new) }
        ensures does { Does (P.edition self.old.printer.now) call (state_of P.printed self.old) (state_of P.printed self.new) result }
    {
        let end = call.room().min(self.buffer.len());
        let front = &mut self.buffer[..end];
        match call {
            Call::Print { .. } => said(0, self.printer.print(front, self.plan), Answer::Printed),
            Call::PullBack { side } => {
                told(self.printer.pull_back(side), |()| Answer::PulledBack(side))
            }
            Call::Opening { .. } => said(0, self.printer.opening(front), Answer::Opened),
            Call::Ending { .. } => said(0, self.printer.ending(front), Answer::Ended),
            Call::HowFar => Done::from(Answer::Counted(self.printer.how_far())),
            Call::Cell { side, row, column } => {
                told(self.printer.cell(side, row, column), Answer::Shown)
            }
            Call::Size => Done::from(Answer::Measured(self.printer.size())),
            Call::Leaves => Done::from(Answer::Number(self.printer.leaves())),
            Call::Pages => Done::from(Answer::Number(self.printer.pages())),
            Call::Depth => Done::from(Answer::Number(u32::from(self.printer.depth()))),
            Call::Laid { page } => told(self.printer.laid(page), Answer::Number),
            Call::Place { page, slot } => { told(self.printer.place(page, slot), Answer::Placed) }
            Call::Length { leaf } => told(self.printer.length(leaf), Answer::Number),
            Call::Pour { leaf, at, .. } => {
                said(at, self.printer.pour(leaf, front, at), Answer::Poured)
            }
        }
    }

    // The part of the buffer in which a text lies.
    fn part(&self, text: Range<usize>) -> &[u8]
        requires { (text.start ≤ text.end) × (text.end ≤ length self.now.buffer.now) }
        ensures { result.now ≡ slice_range self.now.buffer.now text.start text.end }
    {
        let buffer = &*self.buffer;
        &buffer[text]
    }

    // Carries out one call, and notes it.
    fn carry_out(&mut self, call: Call, log: &mut Log) -> Result<(), AllocError>
        ensures lent { Lent self.old self.new }
        ensures same { P.stays self.old.printer.now self.new.printer.now }
        ensures carried { Carried (P.edition self.old.printer.now) (state_of P.printed self.old) (history log.old) (call ∷ []) (state_of P.printed self.new) (history log.new) result }
    {
        let Done { answer, text } = self.perform(call);
        log.note(call, answer, self.part(text))
    }

    /// Carries out the calls, one after the other, and notes each.
    pub(crate) fn carry_out_all(&mut self, calls: &[Call], log: &mut Log) -> Result<(), AllocError>
        ensures lent { Lent self.old self.new }
        ensures same { P.stays self.old.printer.now self.new.printer.now }
        ensures carried { Carried (P.edition self.old.printer.now) (state_of P.printed self.old) (history log.old) calls.now (state_of P.printed self.new) (history log.new) result }
    {
        for call in calls {
            self.carry_out(*call, log)?;
        }
        Ok(())
    }
}
