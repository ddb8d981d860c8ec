ghost use Rattle.std.specs.Prelude.{◌≡◌, ◌^◌, ◌≤◌, length, MatchOption};
ghost use Rattle.fold.specs.Folding.{page_count};
ghost use Rattle.fold.specs.Signatures.{ReadsInOrder, Thick, letters_of};
ghost use Rattle.fold.specs.Walk.{cell_at, has};
ghost use Rattle.fold.specs.Words.{cells, columns_of, rows_of};

use super::Signature;
use crate::sheets::{Cell, Position, Side};
use crate::walk::CellState;
use crate::word::Word;

impl Signature {
    /// A signature of a word and a number of sheets; None where that is not 1 to 16.
    ///
    /// Its cells, as `cell` answers them, make a stack that folds into pages 1, 2, 3 and so on, all upright.
    pub fn new(word: Word, sheets: u32) -> Option<Signature>
        ensures made { MatchOption result (Thick sheets → ⊥) (λ s. (s.word ≡ word) × (s.sheets ≡ sheets)) }
        ensures folds { MatchOption result (Thick sheets → ⊥) ReadsInOrder }
    {
        if sheets == 0 || sheets > 16 {
            return None;
        }
        Some(Signature { word, sheets })
    }

    /// The rows of each side.
    pub fn rows(&self) -> u32
        ensures { result ≡ rows_of (letters_of self.now) }
    {
        self.word().rows()
    }

    /// The columns of each side.
    pub fn columns(&self) -> u32
        ensures { result ≡ columns_of (letters_of self.now) }
    {
        self.word().columns()
    }

    /// The cells of each side.
    pub fn cells(&self) -> u32
        ensures all { result ≡ cells (letters_of self.now) }
        ensures power { result ≡ 2 ^ length (letters_of self.now) }
        ensures few { result ≤ 16 }
    {
        self.rows() * self.columns()
    }

    /// How many pages the signature takes: two for each cell of each sheet.
    pub fn pages(&self) -> u32
        ensures { result ≡ page_count (letters_of self.now) self.now.sheets }
    {
        2 * self.sheets * self.cells()
    }

    /// Whether the signature has a position.
    fn has(&self, at: Position) -> bool
        ensures { result ≡ has (letters_of self.now) self.now.sheets at }
    {
        (1..=self.sheets).contains(&at.sheet)
            && (1..=self.rows()).contains(&at.row)
            && (1..=self.columns()).contains(&at.column)
    }

    /// The page and mark at a position, or None where the signature has no such position.
    pub fn cell(&self, at: Position) -> Option<Cell>
        ensures { result ≡ cell_at (letters_of self.now) self.now.sheets at }
    {
        if !self.has(at) {
            return None;
        }
        let rows = self.rows();
        let columns = self.columns();
        // Side one lies down: its columns count from the other edge.
        let column = match at.side {
            Side::One => columns + 1 - at.column,
            Side::Two => at.column,
        };
        let start = CellState {
            rows,
            columns,
            row: at.row,
            column,
            // Sheet 1 lies lowest.
            depth: self.sheets + 1 - at.sheet,
            height: self.sheets,
            turns: 0,
            tumbles: 0,
        };
        Some(self.word.walk(start).show(at.side))
    }
}
