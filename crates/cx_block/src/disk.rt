//! How large a disk is.

/// How many bytes a sector has.
pub const SECTOR_SIZE: usize = 512;

/// How many sectors a disk has at most: 64 MiB.
pub const MOST_SECTORS: usize = 131_072;

/// How many sectors a command moves at most.
pub const MOST_AT_ONCE: u32 = 8;
