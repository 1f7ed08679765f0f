//! A checkpoint of a run.

use cx_hart::Moment;

/// A moment of a run's machine, before a step, and the index of the first note of that step or a later one.
#[derive(Drop)]
pub(crate) struct Checkpoint {
    pub(crate) moment: Moment,
    pub(crate) next: usize,
}
