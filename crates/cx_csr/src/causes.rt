//! The causes of traps (Privileged 1.12, section 3.1.15, table 3.6): the exceptions by their numbers, and the bit that
//! marks an interrupt, whose number stands below it.

/// The bit of a cause that is set for an interrupt.
pub const INTERRUPT_BIT: u32 = 1 << 31;

/// A jump or a taken branch to an address that isn't a multiple of 4.
pub const INSTRUCTION_ADDRESS_MISALIGNED: u32 = 0;
/// A fetch from an address where no instruction may be read.
pub const INSTRUCTION_ACCESS_FAULT: u32 = 1;
/// A word that is no instruction, or one that may not be carried out here.
pub const ILLEGAL_INSTRUCTION: u32 = 2;
/// EBREAK.
pub const BREAKPOINT: u32 = 3;
/// A load from an address that isn't a multiple of its length.
pub const LOAD_ADDRESS_MISALIGNED: u32 = 4;
/// A load from an address where nothing may be read.
pub const LOAD_ACCESS_FAULT: u32 = 5;
/// A store or an atomic operation at an address that isn't a multiple of its length.
pub const STORE_ADDRESS_MISALIGNED: u32 = 6;
/// A store or an atomic operation at an address where nothing may be written.
pub const STORE_ACCESS_FAULT: u32 = 7;
/// ECALL in user mode.
pub const CALL_FROM_USER: u32 = 8;
/// ECALL in supervisor mode.
pub const CALL_FROM_SUPERVISOR: u32 = 9;
/// ECALL in machine mode.
pub const CALL_FROM_MACHINE: u32 = 11;
/// A fetch that the page table doesn't allow.
pub const INSTRUCTION_PAGE_FAULT: u32 = 12;
/// A load that the page table doesn't allow.
pub const LOAD_PAGE_FAULT: u32 = 13;
/// A store or an atomic operation that the page table doesn't allow.
pub const STORE_PAGE_FAULT: u32 = 15;

/// The exceptions that `medeleg` may hand to supervisor mode: all but a call from machine mode (3.1.8).
pub const DELEGABLE_EXCEPTIONS: u32 = 1 << INSTRUCTION_ADDRESS_MISALIGNED
    | 1 << INSTRUCTION_ACCESS_FAULT
    | 1 << ILLEGAL_INSTRUCTION
    | 1 << BREAKPOINT
    | 1 << LOAD_ADDRESS_MISALIGNED
    | 1 << LOAD_ACCESS_FAULT
    | 1 << STORE_ADDRESS_MISALIGNED
    | 1 << STORE_ACCESS_FAULT
    | 1 << CALL_FROM_USER
    | 1 << CALL_FROM_SUPERVISOR
    | 1 << INSTRUCTION_PAGE_FAULT
    | 1 << LOAD_PAGE_FAULT
    | 1 << STORE_PAGE_FAULT;
