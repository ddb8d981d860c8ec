//! What is printed reads back.
#![tactic(auto)]

ghost use Rattle.read_back.specs.Books.{BooksReadBack};

/// For every lawful source over which the order of a Signature layer was accepted: its opening, its sides and its ending,
/// joined and no longer than a file may be, are accepted by the scan of DSC files, and the reader then shows the preamble
/// and the sides byte by byte, Page lines apart.
pub fn books_read_back()
    ensures { BooksReadBack }
{}
