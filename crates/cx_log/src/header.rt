//! What stands in front of a recording's pages.

use cx_csr::State;

/// The header of a recording.
#[derive(Clone, Copy, Debug, PartialEq, Eq)]
pub struct Header {
    /// The version of the format: 1 or 2.
    pub version: u8,
    /// Whether the hart carries out misaligned loads and stores. Version 1 can't say so.
    pub split: bool,
    /// How many pages of 4,096 bytes the RAM has: 1 to 262,144.
    pub pages: u32,
    /// The number of the first step, below 2^48.
    pub base: u64,
    /// The state of the hart before that step.
    pub start: State,
    /// How many pages follow: those that aren't all zero.
    pub count: u32,
}
