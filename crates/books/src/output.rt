//! What a run leaves.

use plan::record::Record;
use runs::log::Log;

/// The log of a run, its plan list, and how many sides stand printed.
#[derive(Drop)]
pub struct Output {
    pub log: Log,
    pub plan: Vec<Record>,
    pub printed: u32,
}
