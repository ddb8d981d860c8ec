//! Runs of calls: a book is printed side by side, pulled back, asked about, and whatever the calls are, the count, the plan,
//! the fold of every finished signature and the last text of every side are right.
#![tactic(auto)]

pub mod calls;
mod done;
pub mod jobs;
pub mod log;
pub mod printer;
pub mod run;
mod session;
mod steps;
