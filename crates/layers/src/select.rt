//! Select: ranges of pages, one after another.

ghost use Rattle.std.specs.Prelude.{◌≡◌, ◌+◌, ◌-◌, ◌<◌, ◌≤◌, [], ◌∷◌, ◌++◌, MatchOption, length, take, slice_index};
ghost use Rattle.std.specs.Option.{option_to_list};
ghost use Rattle.layers.specs.Selecting.{SelectStarts, SelectTaken, max_ranges, select_objects, select_shows, selected, unless_blank};

use crate::extent::Extent;
use crate::layer::Layer;
use crate::parts::{Objection, Part};
use crate::ranges::{Range, first_missing, page_at, total};
use crate::rules::{Plan, Rule};
use pages::faults::Refusal;
use pages::limits::MAX_PAGES;
use pages::sources::Source;

/// How many ranges a layer may have.
pub const MAX_RANGES: usize = 64;

/// Ranges of pages, one after another; with no range, all pages.
#[derive(Clone, Copy)]
pub struct Ranges {
    // Fixed memory, and a copy that cannot fail: an array vector is no `Copy`.
    given: [Range; MAX_RANGES],
    count: usize,
    ghost most: { count ≤ max_ranges },
    ghost long: { length given ≡ max_ranges },
}

/// A layer that selects pages. An order adds a range, the first in place of all pages, with which the layer starts.
pub type Select<S> = Layer<S, Ranges>;

impl Ranges {
    /// The ranges so far.
    pub fn ranges(&self) -> &[Range]
        ensures all { result.now ≡ take self.now.count self.now.given }
        ensures few { length result.now ≤ max_ranges }
    {
        &self.given[0..self.count]
    }

    // The ranges so far, and one more, if there is room for it.
    fn added(&self, range: Range) -> Option<Ranges>
        ensures { let rs = take self.now.count self.now.given in
            MatchOption result (max_ranges ≤ length rs) (λ r. (length rs < max_ranges) × (take r.count r.given ≡ rs ++ range ∷ [])) }
    {
        if self.count >= MAX_RANGES {
            return None;
        }
        let mut given = self.given;
        given[self.count] = range;
        Some(Ranges {
            given,
            count: self.count + 1,
        })
    }

    // Of so many pages, the one that page `page` shows; none where that is a blank.
    fn shown(&self, pages: u32, page: u32) -> Option<u32>
        ensures { result ≡ unless_blank (slice_index (selected (take self.now.count self.now.given) pages) (page - 1)) }
    {
        let index = page.saturating_sub(1);
        if self.count == 0 {
            return (index < pages).then_some(index + 1);
        }
        page_at(self.ranges(), index)
    }

    // The part of a page; none of a blank.
    fn only_part<S: Source>(&self, below: &S, page: u32) -> Option<Part>
        ensures { option_to_list result ≡ select_shows (take self.now.count self.now.given) (S.Source.meaning below.now) page }
    {
        self.shown(below.pages(), page).map(Part::whole)
    }
}

impl Rule for Ranges {
    type Order = Range;

    ghost shows = { λ r. select_shows (take r.count r.given) };

    ghost starts = { λ m r x. SelectStarts m (take r.count r.given) x };

    ghost objects = { λ r o m. select_objects (take r.count r.given) o m };

    ghost takes = { λ r o m s x. SelectTaken (take r.count r.given) o m (take s.count s.given) x };

    fn start<S: Source>(below: &S) -> Plan<Ranges> {
        Plan {
            rule: Ranges {
                given: [Range::default(); MAX_RANGES],
                count: 0,
            },
            extent: Extent::of(below),
        }
    }

    fn ordered<S: Source>(&self, below: &S, order: Range) -> Result<Plan<Ranges>, Objection> {
        if order.half_blank() {
            return Err(Objection::new(Refusal::BadOrder, 0));
        }
        let Extent { size, pages } = Extent::of(below);
        if let Some(page) = first_missing(self.ranges(), pages) {
            return Err(Objection::new(Refusal::NoSuch, page));
        }
        if let Some(page) = first_missing(&[order], pages) {
            return Err(Objection::new(Refusal::NoSuch, page));
        }
        let pages = total(self.ranges()).saturating_add(order.span());
        if pages > MAX_PAGES as u64 {
            return Err(Objection::new(Refusal::TooMany, 0));
        }
        let rule = self
            .added(order)
            .ok_or(Objection::new(Refusal::TooMany, 0))?;
        Ok(Plan {
            rule,
            extent: Extent {
                size,
                pages: pages as u32,
            },
        })
    }

    fn count<S: Source>(&self, below: &S, page: u32) -> u32 {
        u32::from(self.only_part(below, page).is_some())
    }

    fn part<S: Source>(&self, below: &S, page: u32, index: u32) -> Option<Part> {
        self.only_part(below, page).filter(|_| index == 0)
    }
}
