//! The text of a printed book: its opening, its sides and its ending, byte for byte, written into a lent buffer.
#![tactic(auto)]

mod blocks;
mod inks;
mod laws;
mod positions;
mod texts;

pub use laws::sides_as_shown;
pub use positions::position_length;
pub use texts::{ending, ending_length, frame_length, opening, opening_length, put_side};
