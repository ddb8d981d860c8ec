ghost use Rattle.fold.specs.Folding.{FoldsInOrder, LeavesFollowTheWalk};
ghost use Rattle.fold.specs.Worked.{WorkedSheets};

/// For every word of letters, of any length, and every number of sheets:
///
/// - `follows`: folding any grid of piles brings each leaf to the depth that the walk says, turned as often as it says;
/// - `order`: so the stack that is filled by the walk folds into pages 1, 2, 3, .. all upright, whatever their names.
pub fn folding_reads_in_order()
    ensures follows { LeavesFollowTheWalk }
    ensures order { FoldsInOrder }
{}

/// Sheets worked out by hand: what schemes 1 and 2 show with one and two sheets, and the fold of scheme 2.
pub fn worked_sheets()
    ensures { WorkedSheets }
{}
