//! Page sources: what they mean, the maps by which leaves are placed, and what a refusal carries.
#![tactic(auto)]

pub mod faults;
pub mod inks;
pub mod leaf_pages;
pub mod limits;
pub mod maps;
pub mod sources;
pub mod spans;
pub mod specimen;
