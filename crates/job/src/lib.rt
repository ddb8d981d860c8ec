//! The job: prints the sides of a Signature layer, one call at a time.
#![tactic(auto)]

mod calls;
mod job;
mod questions;
mod texts;

pub use job::Job;
