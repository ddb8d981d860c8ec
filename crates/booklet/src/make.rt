//! `booklet make`: the whole book.
use crate::failure::Failure;
use crate::output::{Lines, Target, Texts};
use crate::piles::Task;
use crate::show::shown;
use books::output::Output;
use books::print_book;
use pages::sources::Source;
use signature::imposition::Scheme;
use std::fmt;

/// Prints a book and its plan.
#[derive(Drop)]
pub struct Make {
    pub order: Scheme,
    pub book: Target,
    pub plan: Option<Target>,
}

/// How many pages of a source show nothing.
fn blanks<S: Source>(source: &S) -> usize {
    (1..=source.pages())
        .filter(|page| shown(source, *page) == 0)
        .count()
}

/// What was made.
#[derive(Drop)]
struct Made {
    pages: u32,
    blanks: usize,
    /// The sheets of one signature.
    thickness: u32,
    sides: u32,
}

impl fmt::Display for Made {
    fn fmt<W: fmt::Write>(&self, f: &mut fmt::Formatter<W>) -> fmt::Result {
        let Made {
            pages,
            blanks,
            thickness,
            sides,
        } = self;
        let sheets = *sides / 2;
        let signatures = sheets / (*thickness).max(1);
        write!(
            f,
            "pages {pages}, blanks {blanks}, signatures {signatures}, sheets {sheets}, sides {sides}"
        )
    }
}

impl Task for Make {
    fn perform<S: Source + Drop>(&self, rt: &HostRuntime, source: S) -> Result<(), Failure> {
        let pages = source.pages();
        let blanks = blanks(&source);
        let Output { log, plan, printed } = print_book(rt.alloc(), source, self.order)?;
        self.book.write(rt, &Texts(log.entries.as_slice()))?;
        if let Some(target) = &self.plan {
            target.write(rt, &Lines(plan.as_slice()))?;
        }
        let made = Made {
            pages,
            blanks,
            thickness: self.order.sheets,
            sides: printed,
        };
        eprintln!(rt; "booklet: {made}")?;
        Ok(())
    }
}
