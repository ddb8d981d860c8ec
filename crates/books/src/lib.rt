//! Runs of calls with the memory that they need, and whole books.
#![tactic(auto)]

mod books;
pub mod output;
mod running;

pub use books::print_book;
pub use running::carry_out;
