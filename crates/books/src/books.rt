//! Whole books.

ghost use Rattle.books.specs.Books.{BookPrinted, book_calls};
ghost use Rattle.std.specs.Prelude.{◌≡◌, IfOk};

use crate::output::Output;
use crate::running::carry_out;
use job::Job;
use pages::sources::Source;
use runs::calls::Call;
use runs::run::Stop;
use signature::imposition::{Scheme, Sheets};
use std::alloc::{AllocError, Global};
use std::iter::{once, repeat_n};

// The calls that print a book from its opening to its ending, each with so many bytes of room.
fn book_calls(heap: Global, sides: u32, room: usize) -> Result<Vec<Call>, AllocError>
    ensures { IfOk result (λ v. v.items ≡ book_calls sides room) }
{
    once(Call::Opening { room })
        .chain(repeat_n(Call::Print { room }, sides as usize))
        .chain(once(Call::Ending { room }))
        .collect(heap)
}

/// Lays a source on sheets and prints the whole book: the opening, every side and the ending.
///
/// The texts of the log, joined, are the text of the book, and the plan has the records of all its sides.
pub fn print_book<S: Source + Drop>(heap: Global, source: S, order: Scheme) -> Result<Output, Stop>
    ensures { BookPrinted order (S.Source.meaning source) result }
{
    let mut layer = Sheets::new(source);
    layer.order(order)?;
    let job = Job::new(layer);
    let room = job.room();
    let list = job.plan_length();
    let calls = book_calls(heap, job.sides(), room)?;
    let source = job.take_apart().take_off();
    carry_out(heap, source, order, &calls, room, list)
}
