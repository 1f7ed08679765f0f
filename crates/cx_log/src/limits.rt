//! The numbers that the rules of a recording name.

/// How many steps lie between two marks.
pub const MARK_DISTANCE: u64 = 65_536;

/// Every step has a number below this one.
pub const STEP_LIMIT: u64 = 1 << 48;

/// How many bytes the records of a recording take at most.
pub const MOST_TEXT: u64 = 1 << 40;
