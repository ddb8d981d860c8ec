//! The log of a run.

use crate::calls::{Answer, Call};
use std::alloc::Global;

mod methods;

/// A call, its answer and the text that it wrote.
#[derive(Drop)]
pub struct Entry {
    pub call: Call,
    pub answer: Answer,
    pub text: Vec<u8>,
}

/// The calls of a run, the first first.
#[derive(Drop)]
pub struct Log {
    pub entries: Vec<Entry>,
    heap: Global,
}
