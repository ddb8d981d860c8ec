//! What the texts of sides show.

ghost use Rattle.sides.specs.Laws.{SidesAsShown};

/// Wherever an order was accepted, the text of a side has one block for each placement of its positions' pages, in order,
/// under the placement's map followed by the position's; and these are the placements of the Signature layer's page.
pub fn sides_as_shown()
    ensures { SidesAsShown }
{}
