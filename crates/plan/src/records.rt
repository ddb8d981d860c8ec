//! The records of a side, one by one and written into a plan.
//!
//! A signature and a side are passed side by side: each call has a side of its own, so a struct of the two would only be
//! built at the call and taken apart in it.

ghost use Rattle.std.specs.Prelude.{◌≡◌, ◌*◌, ◌≤◌, Some, length};
ghost use Rattle.fold.specs.Folding.{page_count};
ghost use Rattle.fold.specs.Signatures.{letters_of};
ghost use Rattle.pages.specs.Limits.{max_pages};
ghost use Rattle.plan.specs.Folds.{cell_of};
ghost use Rattle.plan.specs.Records.{is_side, place_after, position_record, record_in, written};
ghost use Rattle.std.specs.Option.{option_map};

use crate::record::Record;
use fold::{Cell, Position, Side, Signature};
use pages::limits::MAX_PAGES;

// Whether a book may have such a side.
fn is_side(side: u32) -> bool
    ensures { result ≡ is_side side }
{
    (1..=MAX_PAGES).contains(&side)
}

// How many pages so many signatures take.
fn pages_of(signature: &Signature, signatures: u32) -> u32
    requires { signatures ≤ max_pages }
    ensures all { result ≡ signatures * page_count (letters_of signature.now) signature.now.sheets }
    ensures few { result ≤ 2097152 }
{
    signatures * signature.pages()
}

/// The page and mark at a position of a side, by its row and column; None where there is no such position.
pub fn cell(signature: &Signature, side: u32, row: u32, column: u32) -> Option<Cell>
    ensures { result ≡ option_map (λ r. cell_of (Some r)) (position_record (letters_of signature.now) signature.now.sheets side row column) }
{
    if !is_side(side) {
        return None;
    }
    let sheets = signature.sheets();
    let before = (side - 1) / 2;
    // The signatures before that of the side, and the sheets before its own in its signature.
    let signatures = before / sheets;
    let lower = before % sheets;
    let shown = signature.cell(Position {
        sheet: lower + 1,
        side: Side::of(side),
        row,
        column,
    })?;
    Some(Cell {
        page: pages_of(signature, signatures) + shown.page,
        mark: shown.mark,
    })
}

/// The record of a position of a side, by its row and column; None where there is no such position.
pub fn record(signature: &Signature, side: u32, row: u32, column: u32) -> Option<Record>
    ensures { result ≡ position_record (letters_of signature.now) signature.now.sheets side row column }
{
    let Cell { page, mark } = cell(signature, side, row, column)?;
    // Side 0 has no cell.
    let before = (side - 1) / 2;
    let sheets = signature.sheets();
    Some(Record {
        signature: before / sheets + 1,
        sheet: before % sheets + 1,
        side: u32::from(Side::of(side)),
        row,
        column,
        page,
        mark: u32::from(mark),
    })
}

/// The record at an index, from 0, among the records of a side; None where there is none.
pub fn record_at(signature: &Signature, side: u32, index: u32) -> Option<Record>
    ensures { result ≡ record_in (letters_of signature.now) signature.now.sheets side index }
{
    if signature.cells() <= index {
        return None;
    }
    let columns = signature.columns();
    record(signature, side, index / columns + 1, index % columns + 1)
}

/// Writes the records of a side into a plan, from place `at` on, and answers the place after them. Records that do not
/// fit are not begun; None also where there is no such side.
pub fn put_records(
    signature: &Signature,
    side: u32,
    plan: &mut [Record],
    at: usize,
) -> Option<usize>
    ensures answer { result ≡ place_after (letters_of signature.now) side (length plan.old) at }
    ensures after { plan.new ≡ written (letters_of signature.now) signature.now.sheets side plan.old at }
{
    if !is_side(side) {
        return None;
    }
    let end = at.checked_add(signature.cells() as usize)?;
    // Not `get_mut(at..end)?`: where that is None, its contract does not say that the plan is as it was.
    if plan.len() < end {
        return None;
    }
    for (index, entry) in plan[at..end].iter_mut().enumerate() {
        *entry = record_at(signature, side, index as u32)?;
    }
    Some(end)
}
