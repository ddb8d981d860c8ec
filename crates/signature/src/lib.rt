//! The Signature layer: pages are laid on the sides of sheets that are stacked and folded.
#![tactic(auto)]

pub mod imposition;
mod laid_side;
pub mod laws;
