//! Pad: blanks are added at the end until a number divides the count of pages.

ghost use Rattle.std.specs.Prelude.{◌≡◌, ◌≤◌};
ghost use Rattle.std.specs.Option.{option_to_list};
ghost use Rattle.layers.specs.Padding.{PadTaken, max_multiple, pad_count, pad_objects, pad_shows};
ghost use Rattle.pages.specs.Limits.{max_pages};

use crate::extent::Extent;
use crate::layer::Layer;
use crate::parts::{Objection, Part};
use crate::rules::{Plan, Rule};
use pages::faults::Refusal;
use pages::limits::MAX_PAGES;
use pages::sources::Source;

/// The greatest number that an order may name.
pub const MAX_MULTIPLE: u32 = 512;

/// Each page below, and blanks at the end. Where the blanks end, the extent of the layer says.
#[derive(Clone, Copy)]
pub struct Blanks;

/// A layer that adds blanks at the end. An order names the number that is to divide the count, 1 to 512; it starts with 1.
pub type Pad<S> = Layer<S, Blanks>;

// The least multiple from a number of pages on.
fn padded(pages: u32, multiple: u32) -> u32
    requires in_bounds { pages ≤ max_pages }
    requires orderable { (1 ≤ multiple) × (multiple ≤ max_multiple) }
    ensures { result ≡ pad_count multiple pages }
{
    (pages + (multiple - 1)) / multiple * multiple
}

impl Blanks {
    // The part of a page; none of a blank.
    fn only_part<S: Source>(&self, below: &S, page: u32) -> Option<Part>
        ensures { option_to_list result ≡ pad_shows (S.Source.meaning below.now) page }
    {
        (1..=below.pages())
            .contains(&page)
            .then_some(Part::whole(page))
    }
}

impl Rule for Blanks {
    type Order = u32;

    ghost shows = { λ _. pad_shows };

    ghost starts = { λ m _ x. PadTaken 1 m x };

    ghost objects = { λ _ k m. pad_objects k m };

    ghost takes = { λ _ k m _ x. PadTaken k m x };

    fn start<S: Source>(below: &S) -> Plan<Blanks> {
        Plan {
            rule: Blanks,
            extent: Extent::of(below),
        }
    }

    fn ordered<S: Source>(&self, below: &S, order: u32) -> Result<Plan<Blanks>, Objection> {
        if order < 1 || order > MAX_MULTIPLE {
            return Err(Objection::new(Refusal::BadOrder, 0));
        }
        let Extent { size, pages } = Extent::of(below);
        let pages = padded(pages, order);
        if pages > MAX_PAGES {
            return Err(Objection::new(Refusal::TooMany, 0));
        }
        Ok(Plan {
            rule: Blanks,
            extent: Extent { size, pages },
        })
    }

    fn count<S: Source>(&self, below: &S, page: u32) -> u32 {
        u32::from(self.only_part(below, page).is_some())
    }

    fn part<S: Source>(&self, below: &S, page: u32, index: u32) -> Option<Part> {
        self.only_part(below, page).filter(|_| index == 0)
    }
}
