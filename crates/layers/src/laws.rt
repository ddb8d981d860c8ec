//! The laws of layers, each promised by a function.

ghost use Rattle.layers.specs.Laws.{FourTurnsAreNone, PadKeeps, SelectAll};
ghost use Rattle.layers.specs.Worked.{WorkedLayers};

/// A Select of (1, P) over P pages shows what is below.
pub fn selecting_all_shows_what_is_below()
    ensures { SelectAll }
{}

/// Pad keeps every page, adds only blanks, and has the least multiple of pages.
pub fn padding_keeps_every_page()
    ensures { PadKeeps }
{}

/// Four turns of one quarter leave every map as it is, and so a pile of four Turns shows what is below.
pub fn four_turns_are_none()
    ensures { FourTurnsAreNone }
{}

/// Layers worked out by hand: a turn, a reduction, a selection and a padding.
pub fn worked_layers()
    ensures { WorkedLayers }
{}
