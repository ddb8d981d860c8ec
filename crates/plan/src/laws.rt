//! What a plan is worth.

ghost use Rattle.plan.specs.Folds.{PlansFold};
ghost use Rattle.plan.specs.Records.{RecordsName};

/// A record names the page that the Signature layer lays on its position, and the mark under which it stands there.
pub fn records_name_what_is_laid()
    ensures { RecordsName }
{}

/// Whatever else a plan holds: if it begins with the records of sides 1 to n, each signature whose sides are all among
/// them, stacked from the records of the plan and folded, reads its own pages in rising order, all upright.
pub fn plans_fold()
    ensures { PlansFold }
{}
