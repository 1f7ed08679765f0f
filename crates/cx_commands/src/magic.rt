//! What an input is.

/// What an input is, by the magic that it begins with.
#[derive(Clone, Copy, Debug, PartialEq, Eq)]
pub enum Magic {
    /// A recording.
    Recording,
    /// A slice of a process.
    Process,
    /// A slice of a process by its calls.
    Calls,
}
