//! Layers over page sources: each shows the pages of the source below by a rule, and is a source itself.
#![tactic(auto)]

pub mod extent;
pub mod laws;
pub mod layer;
pub mod pad;
pub mod page_parts;
pub mod parts;
pub mod placements;
pub mod ranges;
pub mod reduce;
pub mod rules;
pub mod select;
pub mod turn;
mod views;
