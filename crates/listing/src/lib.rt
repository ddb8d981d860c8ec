//! Line-printer listings as a page source: pages parted by form feeds, lines by line feeds.
#![tactic(auto)]

mod checked;
mod inks;
mod laws;
mod page_spans;
mod parts;
mod places;
mod reader;
mod scans;

pub use laws::listings_are_their_pages;
pub use reader::Listing;
pub use scans::scan;
