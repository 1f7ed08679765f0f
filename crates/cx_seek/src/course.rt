//! What a seeker keeps of a run.

use crate::checkpoint::Checkpoint;
use crate::notes::Notes;

/// A run from one step up to another, on a machine with so many pages of RAM: its checkpoints, how many steps apart
/// they stand, and what was due to its steps.
#[derive(Drop)]
pub(crate) struct Course {
    pub(crate) base: u64,
    pub(crate) end: u64,
    pub(crate) pages: u32,
    pub(crate) distance: u64,
    pub(crate) checkpoints: Vec<Checkpoint>,
    pub(crate) notes: Notes,
}
