//! The placements of a page, one after another.

ghost use Rattle.std.specs.Prelude.{◌≡◌, ◌≤◌, List, drop};
ghost use Rattle.std.specs.Iterator.{YieldsFirst, item_count};
ghost use Rattle.layers.specs.Layering.{placed};
ghost use Rattle.pages.specs.Limits.{max_placements};
ghost use Rattle.pages.specs.declared.maps.Placement.{Placement};

use pages::maps::Placement;
use pages::sources::Source;
use std::marker::Model;

/// Goes over the placements of a page of a source; of a page that there is not, over none.
#[derive(Drop)]
pub struct Placements<'a, S: Source> {
    source: &'a S,
    page: u32,
    slot: u32,
}

/// A clause sees the placements that are left.
impl<'a, S: Source> Model for Placements<'a, S> {
    ghost Value = { List Placement };

    ghost view = { λ s. drop s.slot (placed (S.Source.meaning s.source.now) s.page) };

    ghost invariant = { λ s. s.slot ≤ max_placements };
}

impl<'a, S: Source> Placements<'a, S> {
    /// All placements of a page.
    pub fn of(source: &'a S, page: u32) -> Placements<'a, S>
        ensures { result ≡ placed (S.Source.meaning source.now) page }
    {
        Placements {
            source,
            page,
            slot: 0,
        }
    }
}

impl<'a, S: Source> Iterator for Placements<'a, S> {
    type Item = Placement;

    ghost next_gives = { YieldsFirst (λ s. s) };

    ghost remaining = { item_count (λ s. s) };

    fn next(&mut self) -> Option<Placement> {
        let placement = self.source.place(self.page, self.slot + 1).ok()?;
        self.slot += 1;
        Some(placement)
    }
}
