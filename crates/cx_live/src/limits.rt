//! How large an image may be.

/// How many bytes wait for the console at most.
pub const MOST_CONSOLE: usize = 1 << 20;
