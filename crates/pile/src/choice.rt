//! The rule of a layer whose kind follows from its orders.
ghost use Rattle.layers.specs.declared.extent.Extent.{Extent};
ghost use Rattle.pile.specs.Choices.{ChoiceStarts, ChoiceTakes, choice_objects, choice_shows};
ghost use Rattle.std.specs.Prelude.{◌≡◌, Some, None, MatchResult};

use crate::orders::Order;
use layers::pad::Blanks;
use layers::parts::{Objection, Part};
use layers::reduce::Ratio;
use layers::rules::{Plan, Rule};
use layers::select::Ranges;
use layers::turn::Quarters;
use pages::sources::Source;
use signature::imposition::Imposition;

/// A rule of any kind. A layer starts as one that selects all pages; an order of another kind makes it a layer of that
/// kind, as if newly put on.
#[derive(Clone, Copy)]
pub enum Choice {
    Selecting(Ranges),
    Padding(Blanks),
    Turning(Quarters),
    Reducing(Ratio),
    Imposing(Imposition),
}

// What an order makes of a rule of one kind.
fn ordered_by<S: Source, R: Rule, F: FnOnce(R) -> Choice>(
    rule: &R,
    below: &S,
    order: R::Order,
    kind: F,
) -> Result<Plan<Choice>, Objection>
    requires { F.IsAlwaysCallable kind }
    ensures { let m = S.Source.meaning below.now in MatchResult result
        (λ p. (R.Rule.objects rule.now order m ≡ None) × ((r : R) × F.post kind r p.rule × R.Rule.takes rule.now order m r p.extent))
        (λ o. R.Rule.objects rule.now order m ≡ Some o) }
{
    let Plan { rule, extent } = rule.ordered(below, order)?;
    Ok(Plan {
        rule: kind(rule),
        extent,
    })
}

// What an order makes of a layer of one kind that is newly put on.
fn ordered_newly<S: Source, R: Rule + Drop, F: FnOnce(R) -> Choice>(
    below: &S,
    order: R::Order,
    kind: F,
) -> Result<Plan<Choice>, Objection>
    requires { F.IsAlwaysCallable kind }
    ensures { let m = S.Source.meaning below.now in (s : R) × (x : Extent) × R.Rule.starts m s x × MatchResult result
        (λ p. (R.Rule.objects s order m ≡ None) × ((r : R) × F.post kind r p.rule × R.Rule.takes s order m r p.extent))
        (λ o. R.Rule.objects s order m ≡ Some o) }
{
    let Plan { rule, extent } = R::start(below);
    ordered_by(&rule, below, order, kind)
}

impl Rule for Choice {
    type Order = Order;

    ghost shows = { choice_shows };

    ghost starts = { ChoiceStarts };

    ghost objects = { choice_objects };

    ghost takes = { ChoiceTakes };

    fn start<S: Source>(below: &S) -> Plan<Choice> {
        let Plan { rule, extent } = <Ranges as Rule>::start(below);
        Plan {
            rule: Choice::Selecting(rule),
            extent,
        }
    }

    fn ordered<S: Source>(&self, below: &S, order: Order) -> Result<Plan<Choice>, Objection> {
        match order {
            Order::Select(range) => match self {
                Choice::Selecting(ranges) => ordered_by(ranges, below, range, Choice::Selecting),
                _ => ordered_newly(below, range, Choice::Selecting),
            },
            Order::Pad(multiple) => ordered_newly(below, multiple, Choice::Padding),
            Order::Turn(quarters) => ordered_newly(below, quarters, Choice::Turning),
            Order::Reduce(ratio) => ordered_newly(below, ratio, Choice::Reducing),
            Order::Impose(scheme) => ordered_newly(below, scheme, Choice::Imposing),
        }
    }

    // an enum and no dyn: a rule's methods are generic over the source
    fn count<S: Source>(&self, below: &S, page: u32) -> u32 {
        match self {
            Choice::Selecting(rule) => rule.count(below, page),
            Choice::Padding(rule) => rule.count(below, page),
            Choice::Turning(rule) => rule.count(below, page),
            Choice::Reducing(rule) => rule.count(below, page),
            Choice::Imposing(rule) => rule.count(below, page),
        }
    }

    fn part<S: Source>(&self, below: &S, page: u32, index: u32) -> Option<Part> {
        match self {
            Choice::Selecting(rule) => rule.part(below, page, index),
            Choice::Padding(rule) => rule.part(below, page, index),
            Choice::Turning(rule) => rule.part(below, page, index),
            Choice::Reducing(rule) => rule.part(below, page, index),
            Choice::Imposing(rule) => rule.part(below, page, index),
        }
    }
}
