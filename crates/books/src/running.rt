//! A run with a buffer and a plan list of its own.

ghost use Rattle.books.specs.Runs.{CarriedOut};

use crate::output::Output;
use pages::sources::Source;
use plan::record::Record;
use runs::calls::Call;
use runs::run::{Report, Stop, run};
use signature::imposition::Scheme;
use std::alloc::Global;

/// Lays a source on sheets and carries out the calls, with a buffer of `room` bytes and a plan list of `list` records.
pub fn carry_out<S: Source + Drop>(
    heap: Global,
    source: S,
    order: Scheme,
    calls: &[Call],
    room: usize,
    list: usize,
) -> Result<Output, Stop>
    ensures { CarriedOut order (S.Source.meaning source) calls.now room list result }
{
    let mut buffer = vec![in heap; 0u8; room]?;
    let mut plan = vec![in heap; Record::default(); list]?;
    let Report { job, log } = run(heap, source, order, calls, &mut buffer, &mut plan)?;
    Ok(Output {
        log,
        plan,
        printed: job.how_far(),
    })
}
