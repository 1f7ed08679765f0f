//! The privilege modes (Privileged 1.12, section 1.2, table 1.1).

/// User mode.
pub const USER: u8 = 0;
/// Supervisor mode.
pub const SUPERVISOR: u8 = 1;
/// No mode.
pub const RESERVED_MODE: u8 = 2;
/// Machine mode.
pub const MACHINE: u8 = 3;
