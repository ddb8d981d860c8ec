//! Answers of calls as they are printed.
use crate::output::Content;
use fold::Cell;
use pages::maps::Placement;
use runs::calls::Answer;
use runs::log::Entry;
use std::io::Write;
use std::{fmt, io};

/// An answer that is printed.
#[derive(Drop)]
struct Said(Answer);

impl fmt::Display for Said {
    fn fmt<W: fmt::Write>(&self, f: &mut fmt::Formatter<W>) -> fmt::Result {
        match self.0 {
            Answer::Printed(length) => write!(f, "printed {length}"),
            Answer::PulledBack(side) => write!(f, "pulled-back {side}"),
            Answer::Opened(length) => write!(f, "opened {length}"),
            Answer::Ended(length) => write!(f, "ended {length}"),
            Answer::Counted(count) => write!(f, "count {count}"),
            Answer::Shown(Cell { page, mark }) => write!(f, "cell {page} {}", u32::from(mark)),
            Answer::Measured(size) => write!(f, "size {size}"),
            Answer::Number(number) => write!(f, "{number}"),
            Answer::Placed(Placement { leaf, map }) => write!(f, "place {leaf} {map}"),
            Answer::Poured(end) => write!(f, "poured {end}"),
            Answer::Refused(fault) => write!(f, "refused {fault}"),
        }
    }
}

/// The answers that a log has, one on each line.
#[derive(Drop)]
pub struct Answers<'a>(pub &'a [Entry]);

impl<'a> Content for Answers<'a> {
    fn write<W: Write>(&self, out: &mut W) -> io::Result<()> {
        for entry in self.0 {
            writeln!(out, "{}", Said(entry.answer))?;
        }
        Ok(())
    }
}
