//! `booklet calls`: a list of calls, carried out one after the other.
use crate::answers::Answers;
use crate::call_lines::read_calls;
use crate::failure::Failure;
use crate::files;
use crate::output::{Lines, Target, Texts, put};
use crate::piles::{Pile, Task};
use books::carry_out;
use books::output::Output;
use pages::limits::MAX_INK;
use pages::sources::Source;
use runs::calls::Call;
use signature::imposition::Scheme;
use std::io::BufWriter;

/// What is done with a file of calls.
#[derive(Drop)]
pub struct Carry {
    /// The name of the file.
    pub file: String,
    pub order: Scheme,
    /// How many records the plan list has.
    pub records: usize,
    pub texts: Option<Target>,
    pub plan: Option<Target>,
}

impl Carry {
    /// Carries out the calls over a pile, and prints their answers.
    pub fn perform(&self, rt: &HostRuntime, pile: &Pile) -> Result<(), Failure> {
        let text = files::read_text(rt, self.file.as_str())?;
        let calls = read_calls(rt.alloc(), text.as_str())?;
        pile.perform(
            rt,
            &Carried {
                carry: self,
                calls: calls.as_slice(),
            },
        )
    }
}

#[derive(Drop)]
struct Carried<'a> {
    carry: &'a Carry,
    calls: &'a [Call],
}

impl<'a> Task for Carried<'a> {
    fn perform<S: Source + Drop>(&self, rt: &HostRuntime, source: S) -> Result<(), Failure> {
        let Carry {
            order,
            records,
            texts,
            plan,
            file: _,
        } = self.carry;
        let room = self.calls.iter().map(room).max().unwrap_or(0);
        let output = carry_out(rt.alloc(), source, *order, self.calls, room, *records)?;
        let entries = output.log.entries.as_slice();
        put(BufWriter::new(rt.alloc(), rt.stdout())?, &Answers(entries))?;
        if let Some(target) = texts {
            target.write(rt, &Texts(entries))?;
        }
        if let Some(target) = plan {
            let count = records_of(*order, output.printed).unwrap_or(0);
            target.write(rt, &Lines(&output.plan[0..count.min(output.plan.len())]))?;
        }
        Ok(())
    }
}

/// How many bytes of buffer a call can use at most.
fn room(call: &Call) -> usize {
    match call {
        Call::Pour { at, room, .. } => at.saturating_add(MAX_INK as usize).min(*room),
        _ => call.room(),
    }
}

/// How many records the sides that stand printed have; None where the order makes no signature.
fn records_of(order: Scheme, printed: u32) -> Option<usize> {
    let signature = order.signature()?;
    Some((printed as usize).saturating_mul(signature.cells() as usize))
}
