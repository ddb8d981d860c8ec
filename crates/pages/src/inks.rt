//! Laws of inks: the PostScript that draws a leaf.

ghost use Rattle.pages.specs.Pieces.{Cuts};
ghost use Rattle.pages.specs.Inks.{lines, ReadsLine, ReadsLast, InksAreLines};

/// Cutting bytes into lines loses no byte and can be taken up again at any place, and an ink behind an ink is an ink.
pub fn lines_join()
    ensures { Cuts lines }
{}

/// Lines end at their line feed, and an ink is lines that an ink may have, with a line feed behind each.
pub fn inks_are_lines()
    ensures line { ReadsLine }
    ensures last { ReadsLast }
    ensures inks { InksAreLines }
{}
