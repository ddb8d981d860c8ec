//! The parts of a page, one after another.

ghost use Rattle.std.specs.Prelude.{◌≡◌, ◌≤◌, List, drop, length};
ghost use Rattle.std.specs.Iterator.{YieldsFirst, item_count};
ghost use Rattle.layers.specs.Layering.{max_parts};
ghost use Rattle.layers.specs.declared.parts.Part.{Part};

use crate::parts::Part;
use crate::rules::Rule;
use pages::sources::Source;
use std::marker::Model;
use std::ops::Range;

/// Goes over the parts of which a rule makes a page.
#[derive(Drop)]
pub struct PageParts<'a, S: Source, R: Rule> {
    below: &'a S,
    rule: &'a R,
    page: u32,
    rest: Range<u32>,
}

/// A clause sees the parts that are left.
impl<'a, S: Source, R: Rule> Model for PageParts<'a, S, R> {
    ghost Value = { List Part };

    ghost view = { λ p. drop p.rest.start (R.Rule.shows p.rule.now (S.Source.meaning p.below.now) p.page) };

    ghost invariant = { λ p. p.rest.end ≡ length (R.Rule.shows p.rule.now (S.Source.meaning p.below.now) p.page) };
}

impl<'a, S: Source, R: Rule> PageParts<'a, S, R> {
    /// All parts of a page.
    #[inline(always)]
    pub fn of(below: &'a S, rule: &'a R, page: u32) -> PageParts<'a, S, R>
        ensures all { result ≡ R.Rule.shows rule.now (S.Source.meaning below.now) page }
        ensures few { length result ≤ max_parts }
    {
        PageParts {
            below,
            rule,
            page,
            rest: 0..rule.count(below, page),
        }
    }
}

impl<'a, S: Source, R: Rule> Iterator for PageParts<'a, S, R> {
    type Item = Part;

    ghost next_gives = { YieldsFirst (λ s. s) };

    ghost remaining = { item_count (λ s. s) };

    // Each layer asks its parts at every step down; a call of its own for each made a pile a quarter slower.
    #[inline(always)]
    fn next(&mut self) -> Option<Part> {
        let index = self.rest.next()?;
        self.rule.part(self.below, self.page, index)
    }
}
