//! The rule of a layer: what tells one kind of layer from another.

ghost use Rattle.std.specs.Prelude.{◌≡◌, ℕ, ◌≤◌, length, Some, None, Option, MatchResult};
ghost use Rattle.layers.specs.Layering.{Exact, Parts, max_parts};
ghost use Rattle.layers.specs.declared.extent.Extent.{Extent};
ghost use Rattle.layers.specs.declared.parts.Objection.{Objection};
ghost use Rattle.pages.specs.Meaning.{Meaning, size_of};
ghost use Rattle.std.specs.List.{slice_get};

use crate::extent::Extent;
use crate::parts::{Objection, Part};
use pages::sources::Source;

/// How a layer shows its pages: its rule, and their size and number.
#[derive(Drop)]
pub struct Plan<R> {
    pub rule: R,
    pub extent: Extent,
}

/// What one kind of layer makes of any source below.
///
/// A rule is asked for the parts of a page only by their index, so that a page needs no memory of its own.
pub trait Rule: Sized {
    /// What an order of the layer says.
    type Order;

    /// The parts of each page, over what the source below means.
    ghost shows: { Self → Meaning → ℕ → Parts };

    /// The rule and extent with which a layer starts.
    ghost starts: { Meaning → Self → Extent → Type 0 };

    /// What the rule objects to an order, if anything.
    ghost objects: { Self → Self.Order → Meaning → Option Objection };

    /// The rule and extent to which an order leads, if the rule objects nothing.
    ghost takes: { Self → Self.Order → Meaning → Self → Extent → Type 0 };

    /// How a layer shows its pages before its first order.
    fn start<S: Source>(below: &S) -> Plan<Self>
        ensures starting { starts (S.Source.meaning below.now) result.rule result.extent }
        ensures exact { Exact (shows result.rule (S.Source.meaning below.now)) result.extent.pages (S.Source.meaning below.now) };

    /// How a layer shows its pages after an order, or what the rule objects to it.
    fn ordered<S: Source>(&self, below: &S, order: Self::Order) -> Result<Plan<Self>, Objection>
        ensures { MatchResult result
            (λ p. (objects self.now order (S.Source.meaning below.now) ≡ None)
            × takes self.now order (S.Source.meaning below.now) p.rule p.extent)
            (λ o. objects self.now order (S.Source.meaning below.now) ≡ Some o) };

    /// How many parts a page has.
    fn count<S: Source>(&self, below: &S, page: u32) -> u32
        ensures all { result ≡ length (shows self.now (S.Source.meaning below.now) page) }
        ensures few { result ≤ max_parts };

    /// A part of a page; the index counts from 0.
    fn part<S: Source>(&self, below: &S, page: u32, index: u32) -> Option<Part>
        ensures { result ≡ slice_get (shows self.now (S.Source.meaning below.now) page) index };
}

impl Extent {
    /// The size and the number of a source's own pages.
    pub fn of<S: Source>(source: &S) -> Extent
        ensures { (result.size ≡ size_of (S.Source.meaning source.now)) × (result.pages ≡ (S.Source.meaning source.now).pages) }
    {
        Extent {
            size: source.size(),
            pages: source.pages(),
        }
    }
}
