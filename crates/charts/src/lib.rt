//! Fold charts: the sheets of one signature as a person looks at them, and as plan lines for a program.
#![tactic(auto)]

use fold::{Cell, Mark, Position, Side, Signature};
use std::io;

/// The pages of a side in their rows, a star behind each turned page.
fn print_side(rt: &impl Print, signature: &Signature, sheet: u32, side: Side) -> io::Result<()> {
    println!(rt; "  side {side}")?;
    let columns = signature.columns();
    for (Position { column, .. }, Cell { page, mark }) in signature.shown(sheet, side) {
        let star = if mark == Mark::Turned { '*' } else { ' ' };
        print!(rt; "{page:>5}{star}")?;
        if column == columns {
            println!(rt; "")?;
        }
    }
    Ok(())
}

/// The sheets of a signature, side one and side two of each as rows of pages.
pub fn print_sheets(rt: &impl Print, signature: &Signature) -> io::Result<()> {
    let word = signature.word();
    let sheets = signature.sheets();
    let pages = signature.pages();
    println!(rt;
        "fold word {word}, sheets {sheets}, pages {pages}; * marks a page printed head down"
    )?;
    for sheet in 1..=sheets {
        println!(rt; "sheet {sheet}")?;
        for side in Side::BOTH {
            print_side(rt, signature, sheet, side)?;
        }
    }
    Ok(())
}

/// The plan of one signature, by sheets, sides and rows. A line for each position has its signature, sheet, side, row and
/// column, and its page and mark.
pub fn print_plan(rt: &impl Print, signature: &Signature) -> io::Result<()> {
    for sheet in 1..=signature.sheets() {
        for side in Side::BOTH {
            for (Position { row, column, .. }, Cell { page, mark }) in signature.shown(
                sheet, side,
            ) {
                let (side, mark) = (u32::from(side), u32::from(mark));
                println!(rt; "1 {sheet} {side} {row} {column} {page} {mark}")?;
            }
        }
    }
    Ok(())
}
