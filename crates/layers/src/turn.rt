//! Turn: all pages turned by quarters.

ghost use Rattle.std.specs.Prelude.{◌≡◌, ◌≤◌};
ghost use Rattle.layers.specs.Turning.{TurnTaken, turn_map, turn_objects, turn_shows, turn_size};
ghost use Rattle.pages.specs.Limits.{max_turn};

use crate::extent::Extent;
use crate::layer::Layer;
use crate::parts::{Objection, Part};
use crate::rules::{Plan, Rule};
use pages::faults::Refusal;
use pages::limits::MAX_TURN;
use pages::maps::{Map, Size};
use pages::sources::Source;

/// All pages turned by so many quarters.
#[derive(Clone, Copy)]
pub struct Quarters {
    turn: u8,
}

/// A layer that turns all pages. An order says by how many quarters, 0 to 3; it starts with 0.
pub type Turn<S> = Layer<S, Quarters>;

// The map that turns a page and brings it back to its place.
fn turn_map(q: u8, size: Size) -> Map
    ensures { result ≡ turn_map q size.width size.height }
{
    let (x, y) = match q {
        0 => (0, 0),
        1 => (size.height, 0),
        2 => (size.width, size.height),
        _ => (0, size.width),
    };
    Map {
        turn: q,
        x: x as i64,
        y: y as i64,
        ..Map::identity()
    }
}

// An odd turn exchanges width and height.
fn turned(q: u8, extent: Extent) -> Extent
    requires { q ≤ max_turn }
    ensures { (result.size ≡ turn_size q extent.size.width extent.size.height) × (result.pages ≡ extent.pages) }
{
    match q {
        0 | 2 => extent,
        _ => Extent {
            size: Size {
                width: extent.size.height,
                height: extent.size.width,
            },
            pages: extent.pages,
        },
    }
}

impl Rule for Quarters {
    type Order = u32;

    ghost shows = { λ r. turn_shows r.turn };

    ghost starts = { λ m r x. TurnTaken 0 m r.turn x };

    ghost objects = { λ _ q _. turn_objects q };

    ghost takes = { λ _ q m r x. TurnTaken q m r.turn x };

    fn start<S: Source>(below: &S) -> Plan<Quarters> {
        Plan {
            rule: Quarters { turn: 0 },
            extent: Extent::of(below),
        }
    }

    fn ordered<S: Source>(&self, below: &S, order: u32) -> Result<Plan<Quarters>, Objection> {
        if order > MAX_TURN as u32 {
            return Err(Objection::new(Refusal::BadOrder, 0));
        }
        let turn = order as u8;
        Ok(Plan {
            rule: Quarters { turn },
            extent: turned(turn, Extent::of(below)),
        })
    }

    fn count<S: Source>(&self, below: &S, page: u32) -> u32 {
        1
    }

    fn part<S: Source>(&self, below: &S, page: u32, index: u32) -> Option<Part> {
        // each page has one part: the page below, turned
        (index == 0).then_some(Part {
            page,
            map: turn_map(self.turn, below.size()),
        })
    }
}
