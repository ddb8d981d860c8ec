//! The calls of a run, and their answers.

ghost use Rattle.std.specs.Prelude.{◌≡◌};
ghost use Rattle.runs.specs.Replies.{room_of};

use fold::Cell;
use pages::faults::Fault;
use pages::maps::{Placement, Size};

/// A call. A room is how many bytes of the buffer, from its start, the call may use.
#[derive(Clone, Copy)]
pub enum Call {
    /// Prints the next side.
    Print { room: usize },
    /// Goes back to before a side, which is printed next.
    PullBack { side: u32 },
    /// Writes what stands before the sides.
    Opening { room: usize },
    /// Writes what stands after them.
    Ending { room: usize },
    /// How many sides stand printed.
    HowFar,
    /// What a position of a side shows.
    Cell { side: u32, row: u32, column: u32 },
    /// The questions of the Signature layer, whose pages are the sides.
    Size,
    Leaves,
    Pages,
    Depth,
    Laid { page: u32 },
    Place { page: u32, slot: u32 },
    Length { leaf: u32 },
    Pour { leaf: u32, at: usize, room: usize },
}

impl Call {
    /// How many bytes of the buffer, from its start, the call may use.
    pub fn room(&self) -> usize
        ensures { result ≡ room_of self.now }
    {
        match *self {
            Call::Print { room }
            | Call::Opening { room }
            | Call::Ending { room }
            | Call::Pour { room, .. } => room,
            _ => 0,
        }
    }
}

/// What a call was answered.
#[derive(Clone, Copy)]
pub enum Answer {
    /// The bytes of the side's text.
    Printed(usize),
    PulledBack(u32),
    /// The bytes of the opening and of the ending.
    Opened(usize),
    Ended(usize),
    Counted(u32),
    Shown(Cell),
    Measured(Size),
    /// Leaves, pages, depth, laid or length.
    Number(u32),
    Placed(Placement),
    /// The place after the ink.
    Poured(usize),
    Refused(Fault),
}
