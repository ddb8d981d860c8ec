//! Laws of the reading of DSC files.
ghost use Rattle.dsc.specs.Documents.{Accepts};
ghost use Rattle.dsc.specs.Grammar.{CommentsAreWritten};
ghost use Rattle.dsc.specs.Joins.{ReadingsJoin};
ghost use Rattle.dsc.specs.Printed.{ReadsBack};

/// A line is of a kind, and has its values, just where its text is written so: keyword, blanks, numbers of one to five digits,
/// and a label of one word or in parentheses.
pub fn comments_are_written()
    ensures { CommentsAreWritten }
{}

/// A DSC file that is accepted is its head, its preamble, for each page its Page line and its ink, the Trailer line, and the
/// rest, and every file that is so made is accepted, with the places of its inks as its index.
pub fn accepts_documents()
    ensures { Accepts }
{}

/// Where the lines so far have led the scanner is all that the rest of a file can see of them.
pub fn readings_join()
    ensures { ReadingsJoin }
{}

/// A printed job reads back: its size, its preamble and each of its sides are what the reader shows.
pub fn jobs_read_back()
    ensures { ReadsBack }
{}
