//! The layer over any source, by any rule.

ghost use Rattle.std.specs.Prelude.{◌≡◌, None, MatchResult};
ghost use Rattle.layers.specs.Layering.{Barred, Exact, layered};
ghost use Rattle.layers.specs.Orders.{Laid, Refused};
ghost use Rattle.layers.specs.Lawful.{lawful_layered};

use crate::extent::Extent;
use crate::rules::{Plan, Rule};
use crate::views::View;
use pages::faults::{Fault, Refusal};
use pages::limits::MAX_PLACEMENTS;
use pages::maps::{Placement, Size};
use pages::sources::Source;

/// A source below, and the rule by which its pages are shown.
#[derive(Drop)]
pub struct Layer<S: Source, R: Rule> {
    below: S,
    rule: R,
    extent: Extent,
}

impl<S: Source, R: Rule> Layer<S, R> {
    /// Covers a source, with the order that layers of this kind start with.
    pub fn new(below: S) -> Layer<S, R>
        ensures { (result.below ≡ below) × Laid R.Rule.shows (R.Rule.starts (S.Source.meaning below)) (S.Source.meaning below) result.rule result.extent }
    {
        let Plan { rule, extent } = R::start(&below);
        Layer {
            below,
            rule,
            extent,
        }
    }

    /// The source that the layer covers.
    pub fn covered(&self) -> &S
        ensures { result.now ≡ self.now.below }
    {
        &self.below
    }

    // How the rule shows the pages below.
    fn view(&self) -> View<'_, S, R>
        ensures { (result.below.now ≡ self.now.below) × (result.rule.now ≡ self.now.rule) }
    {
        View {
            below: &self.below,
            rule: &self.rule,
        }
    }

    /// The rule by which the layer shows its pages.
    pub fn rule(&self) -> &R
        ensures { result.now ≡ self.now.rule }
    {
        &self.rule
    }
}

impl<S: Source, R: Rule + Drop> Layer<S, R> {
    /// Takes the layer off, which gives back the source below as it was.
    pub fn take_off(self) -> S
        ensures { result ≡ self.below }
    {
        let Layer {
            below,
            rule,
            extent,
        } = self;
        below
    }

    // Whether the pages can be shown by a plan: no page is crowded, and no map leaves its bounds.
    fn check(&self, plan: &Plan<R>) -> Result<(), Fault>
        ensures { MatchResult result
            (λ _. Exact (R.Rule.shows plan.now.rule (S.Source.meaning self.now.below)) plan.now.extent.pages (S.Source.meaning self.now.below))
            (λ e. Barred (R.Rule.shows plan.now.rule (S.Source.meaning self.now.below)) plan.now.extent.pages (S.Source.meaning self.now.below) e) }
    {
        let view = View {
            below: &self.below,
            rule: &plan.rule,
        };
        // what is found is the refusal, so there is nothing to go on with
        if let Some(page) = view.first_crowded(plan.extent.pages) {
            return Err(Fault::new(Refusal::Crowded, self.depth(), page));
        }
        if let Some(page) = view.first_far(plan.extent.pages) {
            return Err(Fault::new(Refusal::TooFar, self.depth(), page));
        }
        Ok(())
    }

    // Shows the pages by another plan, unless a page would be crowded or a map would leave its bounds.
    fn lay(&mut self, plan: Plan<R>) -> Result<(), Fault>
        ensures { MatchResult result
            (λ _. (self.new.below ≡ self.old.below) × (self.new.rule ≡ plan.rule)
            × (self.new.extent ≡ plan.extent)
            × Exact (R.Rule.shows plan.rule (S.Source.meaning self.old.below)) plan.extent.pages (S.Source.meaning self.old.below))
            (λ e. (self.new ≡ self.old)
            × Barred (R.Rule.shows plan.rule (S.Source.meaning self.old.below)) plan.extent.pages (S.Source.meaning self.old.below) e) }
    {
        self.check(&plan)?;
        let Plan { rule, extent } = plan;
        self.rule = rule;
        self.extent = extent;
        Ok(())
    }

    /// Gives the layer an order. A refused order alters nothing.
    pub fn order(&mut self, order: R::Order) -> Result<(), Fault>
        ensures { MatchResult result
            (λ _. (self.new.below ≡ self.old.below)
            × (R.Rule.objects self.old.rule order (S.Source.meaning self.old.below) ≡ None)
            × Laid R.Rule.shows (R.Rule.takes self.old.rule order (S.Source.meaning self.old.below)) (S.Source.meaning self.old.below) self.new.rule self.new.extent)
            (λ e. (self.new ≡ self.old)
            × Refused R.Rule.shows (R.Rule.objects self.old.rule order (S.Source.meaning self.old.below)) (R.Rule.takes self.old.rule order (S.Source.meaning self.old.below)) (S.Source.meaning self.old.below) e) }
    {
        let plan = self
            .rule
            .ordered(&self.below, order)
            .map_err(|o| Fault::new(o.kind, self.depth(), o.page))?;
        self.lay(plan)
    }
}

impl<S: Source, R: Rule> Source for Layer<S, R> {
    ghost meaning = { λ s. layered (R.Rule.shows s.rule (S.Source.meaning s.below)) s.extent (S.Source.meaning s.below) };

    ghost lawful = { λ s.
        lawful_layered (S.Source.meaning s.below) (S.Source.lawful s.below)
        (R.Rule.shows s.rule (S.Source.meaning s.below)) s.extent };

    fn size(&self) -> Size {
        self.extent.size
    }

    fn leaves(&self) -> u32 {
        self.below.leaves()
    }

    fn pages(&self) -> u32 {
        self.extent.pages
    }

    fn depth(&self) -> u8 {
        self.below.depth().saturating_add(1)
    }

    fn laid(&self, page: u32) -> Result<u32, Fault> {
        if !(1..=self.extent.pages).contains(&page) {
            return Err(Fault::new(Refusal::NoSuch, self.depth(), page));
        }
        Ok(self.view().count(page).min(MAX_PLACEMENTS))
    }

    fn place(&self, page: u32, slot: u32) -> Result<Placement, Fault> {
        let refused = Fault::new(Refusal::NoSuch, self.depth(), page);
        if !(1..=self.extent.pages).contains(&page) {
            return Err(refused);
        }
        if MAX_PLACEMENTS < slot {
            return Err(refused);
        }
        self.view().place(page, slot).ok_or(refused)
    }

    fn length(&self, leaf: u32) -> Result<u32, Fault> {
        // a refusal from below comes up with its four numbers
        let n = self.below.length(leaf)?;
        Ok(n)
    }

    fn pour(&self, leaf: u32, buffer: &mut [u8], at: usize) -> Result<usize, Fault> {
        let end = self.below.pour(leaf, buffer, at)?;
        Ok(end)
    }
}
