//! The DSC reader: a PostScript file with document structuring comments, as a source of pages.
//!
//! `scan` reads a file and fills an index; a `Dsc` is loaded with both, and shows page i as leaf i.

#![tactic(auto)]

mod comments;
mod laws;
mod lines;
mod loads;
mod reader;
mod reading;
mod readings;
mod scanner;
mod scans;
mod source;
mod values;

pub use laws::{accepts_documents, comments_are_written, jobs_read_back, readings_join};
pub use reader::Dsc;
pub use scans::scan;
