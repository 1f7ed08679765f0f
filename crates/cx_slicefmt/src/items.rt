//! What a slice hands to a step.

use arrayvec::ArrayVec;

/// How many bytes a group of a process slice may have: eight runs of eight.
pub const MOST_BYTES: usize = 64;

/// The items of a step: what it is handed before it goes.
#[derive(Drop)]
pub struct GroupItems {
    /// The words: pc, and the registers x1 to x31, each where it is another than the one that stands.
    pub words: [Option<u32>; 32],
    /// The bytes, each with its address, in rising order.
    pub bytes: ArrayVec<(u32, u8), 64>,
    /// The value that is given from outside.
    pub given: Option<u32>,
}

/// What comes next in a slice.
#[derive(Drop)]
pub enum Either {
    /// The group of a step, by its index.
    Group(u64, GroupItems),
    /// The end, with the number of steps.
    End(u64),
}
