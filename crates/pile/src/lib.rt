//! Layers that are chosen at run time: the rule of a layer whose kind follows from its orders.
#![tactic(auto)]

pub mod choice;
pub mod orders;
