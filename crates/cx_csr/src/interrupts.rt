//! The interrupts by their numbers, which are also their bits in `mip`, `mie` and `mideleg` (Privileged 1.12, sections
//! 3.1.9 and 3.1.15), and the masks that are made of them.

/// The software interrupt of supervisor mode.
pub const SSI: u32 = 1;
/// The software interrupt of machine mode.
pub const MSI: u32 = 3;
/// The timer interrupt of supervisor mode.
pub const STI: u32 = 5;
/// The timer interrupt of machine mode.
pub const MTI: u32 = 7;
/// The external interrupt of supervisor mode.
pub const SEI: u32 = 9;
/// The external interrupt of machine mode.
pub const MEI: u32 = 11;

/// The interrupts of supervisor mode: those that may be delegated (3.1.8), and that software makes pending in `mip`
/// (3.1.9).
pub const SUPERVISOR_INTERRUPTS: u32 = 1 << SSI | 1 << STI | 1 << SEI;
/// All interrupts: those that `mie` enables (3.1.9).
pub const ALL_INTERRUPTS: u32 = SUPERVISOR_INTERRUPTS | 1 << MSI | 1 << MTI | 1 << MEI;
/// The interrupts that a line of the outside makes pending.
pub const LINE_INTERRUPTS: u32 = 1 << MSI | 1 << MTI | 1 << SEI | 1 << MEI;
