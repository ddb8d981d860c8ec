use crate::sheets::{Cell, Position, Side};
use crate::signature::Signature;

/// The positions of a side and what they show, by rows from the top, each from the left.
#[derive(Clone, Debug, Drop)]
pub struct Shown {
    signature: Signature,
    sheet: u32,
    side: Side,
    /// How many positions have been given.
    index: u32,
}

impl Iterator for Shown {
    type Item = (Position, Cell);

    ghost use Rattle.std.specs.Iterator.{YieldsFirst, item_count};
    ghost use Rattle.fold.specs.Shown.{to_show};

    ghost next_gives = { YieldsFirst to_show };

    ghost remaining = { item_count to_show };

    fn next(&mut self) -> Option<(Position, Cell)> {
        if self.signature.cells() <= self.index {
            return None;
        }
        let columns = self.signature.columns();
        let at = Position {
            sheet: self.sheet,
            side: self.side,
            row: self.index / columns + 1,
            column: self.index % columns + 1,
        };
        let cell = self.signature.cell(at)?;
        self.index += 1;
        Some((at, cell))
    }
}

impl Signature {
    ghost use Rattle.std.specs.Prelude.{◌≡◌};
    ghost use Rattle.fold.specs.Shown.{shown_from, to_show};

    /// What a side of a sheet shows, position by position; nothing where there is no such sheet.
    pub fn shown(&self, sheet: u32, side: Side) -> Shown
        ensures { to_show result ≡ shown_from self.now sheet side 0 }
    {
        Shown {
            signature: *self,
            sheet,
            side,
            index: 0,
        }
    }
}
