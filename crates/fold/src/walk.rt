ghost use Rattle.std.specs.Prelude.{◌≡◌, ◌+◌, ◌-◌, ◌/◌, ◌≤◌, cond, nat_le};
ghost use Rattle.fold.specs.Walk.{Small, shows, step};

use crate::letters::Letter;
use crate::sheets::{Cell, Mark, Side};

/// Where a cell of a sheet stands on its way through the letters.
#[derive(Clone, Copy)]
pub struct CellState {
    /// The rows and columns that are left.
    pub(crate) rows: u32,
    pub(crate) columns: u32,
    /// Where the cell is in them.
    pub(crate) row: u32,
    pub(crate) column: u32,
    /// The cell's depth in its pile, from 1 at the top, and the pile's height.
    pub(crate) depth: u32,
    pub(crate) height: u32,
    /// How often the cell was turned over, and how often of these by N, which brings its head down.
    pub(crate) turns: u32,
    pub(crate) tumbles: u32,
}

/// Folds a line of so many cells into half as many, and answers whether the cell at a place was turned over.
fn halve(cells: &mut u32, place: &mut u32) -> bool
    ensures turned { result ≡ nat_le place.old (cells.old / 2) }
    ensures half { cells.new ≡ cells.old / 2 }
    ensures moved { place.new ≡ cond (nat_le place.old (cells.old / 2)) (cells.old / 2 + 1 - place.old) (place.old - cells.old / 2) }
{
    *cells /= 2;
    let half = *cells;
    let turned = *place <= half;
    *place = if turned {
        half + 1 - *place
    } else {
        *place - half
    };
    turned
}

impl CellState {
    /// One letter: a cell in the first half of the columns (W) or of the rows (N) is turned over onto the other half.
    pub(crate) fn take(self, letter: Letter) -> CellState
        requires { Small self }
        ensures { result ≡ step letter self }
    {
        let mut cell = self;
        let turned = match letter {
            Letter::W => halve(&mut cell.columns, &mut cell.column),
            Letter::N => halve(&mut cell.rows, &mut cell.row),
        };
        if turned {
            cell.depth = cell.height + 1 - cell.depth;
            cell.turns += 1;
            if letter == Letter::N {
                cell.tumbles += 1;
            }
        } else {
            cell.depth += cell.height;
        }
        cell.height *= 2;
        cell
    }

    /// The page and mark that a side shows of the cell, once it has taken every letter.
    pub(crate) fn show(self, side: Side) -> Cell
        requires { (1 ≤ self.depth) × (self.depth ≤ 256) }
        ensures { result ≡ shows side self }
    {
        let last = 2 * self.depth;
        let over = self.turns % 2 == 1;
        let page = match (side, over) {
            (Side::Two, false) | (Side::One, true) => last - 1,
            (Side::Two, true) | (Side::One, false) => last,
        };
        let mark = if self.tumbles % 2 == 1 {
            Mark::Turned
        } else {
            Mark::Upright
        };
        Cell { page, mark }
    }
}
