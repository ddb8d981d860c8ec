//! How a rule shows the pages of a source below.

ghost use Rattle.std.specs.Prelude.{◌≡◌, ◌≤◌, length, MatchOption};
ghost use Rattle.layers.specs.Layering.{FirstCrowded, FirstFar, Near, Roomy, max_parts, parts_follow, shown};
ghost use Rattle.pages.specs.Limits.{max_pages};
ghost use Rattle.pages.specs.Meaning.{slot_at};

use crate::page_parts::PageParts;
use crate::rules::Rule;
use pages::limits::MAX_PLACEMENTS;
use pages::maps::Placement;
use pages::sources::Source;

/// A source below, and the rule by which its pages are shown. It has no model: what a source means has functions in it.
#[derive(Drop)]
pub(crate) struct View<'a, S: Source, R: Rule> {
    pub(crate) below: &'a S,
    pub(crate) rule: &'a R,
}

impl<'a, S: Source, R: Rule> View<'a, S, R> {
    // The parts of a page.
    #[inline(always)]
    fn parts(&self, page: u32) -> PageParts<'a, S, R>
        ensures all { let m = S.Source.meaning self.now.below.now in result ≡ R.Rule.shows self.now.rule.now m page }
        ensures few { length result ≤ max_parts }
    {
        PageParts::of(self.below, self.rule, page)
    }

    // How many placements the parts of a page have, those past the last that a page may have too.
    pub(crate) fn count(&self, page: u32) -> u32
        ensures { let m = S.Source.meaning self.now.below.now in result ≡ length (shown m (R.Rule.shows self.now.rule.now m page)) }
    {
        self.parts(page).map(|part| part.count(self.below)).sum()
    }

    // The placement in a slot of the parts of a page.
    pub(crate) fn place(&self, page: u32, slot: u32) -> Option<Placement>
        ensures { let m = S.Source.meaning self.now.below.now in result ≡ slot_at (shown m (R.Rule.shows self.now.rule.now m page)) slot }
    {
        // whole parts are passed over
        let mut rest = slot;
        for part in self.parts(page) {
            let count = part.count(self.below);
            if rest <= count {
                return part.place(self.below, rest);
            }
            rest -= count;
        }
        None
    }

    // Whether each placement of a page keeps the bounds.
    fn near(&self, page: u32) -> bool
        ensures { let m = S.Source.meaning self.now.below.now in result ≡ parts_follow m (R.Rule.shows self.now.rule.now m page) }
    {
        self.parts(page).all(|part| part.near(self.below))
    }

    // The first of so many pages that has too many placements.
    pub(crate) fn first_crowded(&self, pages: u32) -> Option<u32>
        requires { pages ≤ max_pages }
        ensures { let m = S.Source.meaning self.now.below.now in let show = R.Rule.shows self.now.rule.now m in MatchOption result (Roomy show pages m) (λ p. FirstCrowded show pages m p) }
    {
        (1..pages + 1).find(|page| MAX_PLACEMENTS < self.count(*page))
    }

    // The first of so many pages that has a map that leaves its bounds.
    pub(crate) fn first_far(&self, pages: u32) -> Option<u32>
        requires { pages ≤ max_pages }
        ensures { let m = S.Source.meaning self.now.below.now in let show = R.Rule.shows self.now.rule.now m in MatchOption result (Near show pages m) (λ p. FirstFar show pages m p) }
    {
        (1..pages + 1).find(|page| !self.near(*page))
    }
}
