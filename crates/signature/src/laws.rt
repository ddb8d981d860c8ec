//! The laws of the Signature layer, each promised by a function.

ghost use Rattle.signature.specs.Laws.{ByRows, EachPageOnce, SignaturesFold, Worked};

/// The parts of a side are its positions by rows from the top, from the left; and every page below stands at exactly one
/// position of exactly one side.
pub fn each_page_stands_once()
    ensures rows { ByRows }
    ensures once { EachPageOnce }
{}

/// Every signature, stacked and folded, reads its own pages in rising order, upright.
pub fn signatures_fold()
    ensures { SignaturesFold }
{}

/// All sheets and layers that are worked out by hand.
pub fn worked_by_hand()
    ensures { Worked }
{
    fold::worked_sheets();
    layers::laws::worked_layers();
}
