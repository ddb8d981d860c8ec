//! `booklet fold`: the chart of a signature.
use fold::Signature;
use std::io;

/// How a chart is printed.
#[derive(Clone, Copy, PartialEq, Eq)]
pub enum Chart {
    /// As a picture of each sheet.
    Sheets,
    /// As the lines of a plan.
    Lines,
}

impl Chart {
    pub fn print(self, rt: &HostRuntime, signature: &Signature) -> io::Result<()> {
        match self {
            Chart::Sheets => charts::print_sheets(rt, signature),
            Chart::Lines => charts::print_plan(rt, signature),
        }
    }
}
