//! The fields of the control registers other than `mstatus` (Privileged 1.12; the sections stand at the lines).

/// The bit of `mtvec` and `stvec` that sends each interrupt to a place of its own (3.1.7 and 4.1.2).
pub const VECTORED: u32 = 0;
/// The bits of `mtvec` and `stvec` that hold the base, a multiple of 4.
pub const TVEC_BASE: u32 = !3;
/// The bits of `mtvec` and `stvec` that this hart has: it has no mode but direct and vectored.
pub const TVEC_FIELDS: u32 = TVEC_BASE | 1 << VECTORED;
/// The bits of `mepc` and `sepc` that this hart has: an address of an instruction is a multiple of 4 (3.1.14 and
/// 4.1.7).
pub const EPC_FIELDS: u32 = !3;

/// The bit of `mcounteren` and `scounteren` that opens `cycle` (3.1.11 and 4.1.5).
pub const CY: u32 = 0;
/// The bit that opens `time`.
pub const TM: u32 = 1;
/// The bit that opens `instret`.
pub const IR: u32 = 2;
/// The bits of `mcounteren` and `scounteren` that this hart has.
pub const COUNTEREN_FIELDS: u32 = 1 << CY | 1 << TM | 1 << IR;

/// The bit of `satp` that turns translation by Sv32 on (4.1.11).
pub const SATP_MODE: u32 = 31;
/// The bits of `satp` that hold the page number of the root of the page table (4.1.11).
pub const SATP_PPN: u32 = (1 << 22) - 1;

/// What `misa` reads as: registers of 32 bits, and the extensions A, I, M, S and U, each at the bit of its letter
/// (3.1.1).
pub const MISA: u32 = 1 << 30
    | 1 << (b'A' - b'A')
    | 1 << (b'I' - b'A')
    | 1 << (b'M' - b'A')
    | 1 << (b'S' - b'A')
    | 1 << (b'U' - b'A');
