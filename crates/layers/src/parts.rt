//! What a page of a layer is made of, and why an order cannot be taken.

ghost use Rattle.layers.specs.Layering.{moved, part_follows, part_shown, whole};
ghost use Rattle.layers.specs.Orders.{objection};
ghost use Rattle.pages.specs.Limits.{max_placements};
ghost use Rattle.pages.specs.Meaning.{slot_at};
ghost use Rattle.std.specs.Prelude.{◌≡◌, ◌≤◌, length};

use crate::placements::Placements;
use pages::faults::Refusal;
use pages::maps::{Map, Placement};
use pages::sources::Source;

/// A part of a page: all placements of a page below, in order, each followed by the map.
#[derive(Clone, Copy, Default)]
pub struct Part {
    pub page: u32,
    pub map: Map,
}

/// A placement followed by a map; as it is where that would leave the bounds.
pub fn moved(placement: Placement, map: Map) -> Placement
    ensures { result ≡ moved map placement }
{
    Placement {
        leaf: placement.leaf,
        map: placement.map.then(map).unwrap_or(placement.map),
    }
}

impl Part {
    /// A page below as it is.
    pub fn whole(page: u32) -> Part
        ensures { result ≡ whole page }
    {
        Part {
            page,
            map: Map::identity(),
        }
    }

    // How many placements the part shows.
    #[inline(always)]
    pub(crate) fn count<S: Source>(self, below: &S) -> u32
        ensures all { result ≡ length (part_shown (S.Source.meaning below.now) self) }
        ensures few { result ≤ max_placements }
    {
        below.laid(self.page).unwrap_or(0)
    }

    // The placement in a slot of the part.
    #[inline(always)]
    pub(crate) fn place<S: Source>(self, below: &S, slot: u32) -> Option<Placement>
        ensures { result ≡ slot_at (part_shown (S.Source.meaning below.now) self) slot }
    {
        below
            .place(self.page, slot)
            .ok()
            .map(|placement| moved(placement, self.map))
    }

    // Whether each placement of the part keeps the bounds.
    pub(crate) fn near<S: Source>(self, below: &S) -> bool
        ensures { result ≡ part_follows (S.Source.meaning below.now) self }
    {
        Placements::of(below, self.page).all(|placement| placement.map.then(self.map).is_some())
    }
}

/// Why a rule does not take an order: the kind of refusal, and the page that it concerns, 0 where there is
/// none, as in the refusal that is made of it.
#[derive(Clone, Copy)]
pub struct Objection {
    pub kind: Refusal,
    pub page: u32,
}

impl Objection {
    pub fn new(kind: Refusal, page: u32) -> Objection
        ensures { result ≡ objection kind page }
    {
        Objection { kind, page }
    }
}
