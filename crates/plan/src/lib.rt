//! The plan of a book: which page stands at which position of which side, as a list of records; and what such a list is
//! worth, that every signature on it folds into its own pages.
#![tactic(auto)]

pub mod laws;
pub mod record;
pub mod records;
