//! One line of a plan.

ghost use Rattle.plan.specs.Lines.{record_line};
ghost use Rattle.std.specs.Prelude.{Some};

use std::fmt;

/// A position of a side, and what it shows. All numbers but the mark count from 1. Plain numbers, since
/// a plan list may hold anything.
#[derive(Clone, Copy, PartialEq, Eq, Debug, Default)]
pub struct Record {
    /// The signature, and the sheet in it.
    pub signature: u32,
    pub sheet: u32,
    /// The side of the sheet: 1 lies down in the stack, 2 up.
    pub side: u32,
    /// The row from the top and the column from the left of the side as it is printed.
    pub row: u32,
    pub column: u32,
    /// The page of the source that stands there.
    pub page: u32,
    /// 0 where the page stands upright, 1 where it is turned by a half.
    pub mark: u32,
}

/// The seven numbers, a blank between them.
impl fmt::Display for Record {
    ghost output = { λ r. Some (record_line r) };

    fn fmt<W: fmt::Write>(&self, f: &mut fmt::Formatter<W>) -> fmt::Result {
        let Record {
            signature,
            sheet,
            side,
            row,
            column,
            page,
            mark,
        } = *self;
        write!(f, "{signature} {sheet} {side} {row} {column} {page} {mark}")
    }
}
