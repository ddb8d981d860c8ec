//! A whole run: a source is laid on sheets, and calls print it.

ghost use Rattle.runs.specs.Logs.{history};
ghost use Rattle.runs.specs.Runs.{Ran};
ghost use Rattle.std.specs.Prelude.{◌≡◌, IfOk};

use crate::calls::Call;
use crate::log::Log;
use crate::session::Session;
use job::Job;
use pages::faults::Fault;
use pages::sources::Source;
use plan::record::Record;
use signature::imposition::{Scheme, Sheets};
use std::alloc::{AllocError, Global};

/// A job after its calls, and their log.
#[derive(Drop)]
pub struct Report<S: Source> {
    pub job: Job<S>,
    pub log: Log,
}

/// Why a run did not go on: its order was refused, or memory for the log was wanting.
#[derive(Drop)]
pub enum Stop {
    Refused(Fault),
    NoMemory(AllocError),
}

impl From<Fault> for Stop {
    ghost use Rattle.runs.specs.declared.run.Stop.{Stop};

    ghost from_gives = { λ f s. s ≡ Stop.Refused f };

    fn from(fault: Fault) -> Stop {
        Stop::Refused(fault)
    }
}

impl From<AllocError> for Stop {
    ghost use Rattle.runs.specs.declared.run.Stop.{Stop};

    ghost from_gives = { λ e s. s ≡ Stop.NoMemory e };

    fn from(error: AllocError) -> Stop {
        Stop::NoMemory(error)
    }
}

/// Puts a Signature layer on a source, orders it, and carries out the calls with a job over it. Each call may use the
/// buffer, and each print the plan list, whatever they hold; each answer and each text is kept in the log.
///
/// The contract is the law of print runs. It has no premise: a refusal of the order is the answer, and then nothing is
/// altered; where memory is wanting, the law stands after the calls that were carried out.
pub fn run<S: Source + Drop>(
    heap: Global,
    source: S,
    order: Scheme,
    calls: &[Call],
    buffer: &mut [u8],
    plan: &mut [Record],
) -> Result<Report<S>, Stop>
    ensures law { Ran order (S.Source.meaning source) calls.now buffer.old buffer.new plan.old plan.new (λ x. x.job.printed) (λ x. history x.log) result }
    ensures over { IfOk result (λ x. x.job.layer.below ≡ source) }
{
    let mut layer = Sheets::new(source);
    layer.order(order)?;
    let mut job = Job::new(layer);
    let mut log = Log::new(heap);
    let mut session = Session {
        printer: &mut job,
        buffer,
        plan,
    };
    session.carry_out_all(calls, &mut log)?;
    Ok(Report { job, log })
}
