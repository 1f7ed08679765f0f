//! What a recording is asked.

/// A question about a recording, of what was before one of its steps or its end.
#[derive(Clone, Copy, Debug, PartialEq, Eq)]
pub enum Query {
    /// `state N`: the state of the hart before step N.
    State(u64),
    /// `writer PA N`: what wrote the byte at the place last, before step N.
    Writer(u32, u64),
    /// `reader PA N`: the step that read the byte at the place last, before step N.
    Reader(u32, u64),
    /// `trap N`: the last step before step N that took a trap or an interrupt.
    Trap(u64),
}
