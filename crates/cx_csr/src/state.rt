//! The state of the hart.

use crate::lines::Lines;

/// The control and status registers that hold something. The others read as a part of these, as a constant or as a
/// value of the outside.
#[derive(Clone, Copy, PartialEq, Eq, Debug)]
pub struct CsrFile {
    /// The global interrupt enables, what they were before the last traps, and the controls of memory accesses.
    pub mstatus: u32,
    /// Which exceptions go to supervisor mode.
    pub medeleg: u32,
    /// Which interrupts go to supervisor mode.
    pub mideleg: u32,
    /// Which interrupts are enabled.
    pub mie: u32,
    /// Which interrupts software made pending; the lines are kept beside it.
    pub mip: u32,
    /// Where traps to machine mode go.
    pub mtvec: u32,
    /// Which counters the modes below machine mode may read.
    pub mcounteren: u32,
    /// A word of machine mode's own.
    pub mscratch: u32,
    /// Where the last trap to machine mode was taken.
    pub mepc: u32,
    /// Why it was taken.
    pub mcause: u32,
    /// The address or the word that it was taken for.
    pub mtval: u32,
    /// Where traps to supervisor mode go.
    pub stvec: u32,
    /// Which counters user mode may read.
    pub scounteren: u32,
    /// A word of supervisor mode's own.
    pub sscratch: u32,
    /// Where the last trap to supervisor mode was taken.
    pub sepc: u32,
    /// Why it was taken.
    pub scause: u32,
    /// The address or the word that it was taken for.
    pub stval: u32,
    /// Whether addresses are translated, and the root of the page table.
    pub satp: u32,
    /// The count of steps.
    pub mcycle: u64,
    /// The count of instructions that retired.
    pub minstret: u64,
}

/// All that the hart is between two steps.
#[derive(Clone, Copy, PartialEq, Eq, Debug)]
pub struct State {
    /// The address of the next instruction.
    pub pc: u32,
    /// The integer registers; register 0 is 0.
    pub x: [u32; 32],
    /// The privilege mode: 0 user, 1 supervisor, 3 machine.
    pub mode: u8,
    /// The control and status registers.
    pub csr: CsrFile,
    /// The place of the word of RAM that is reserved, where one is.
    pub reservation: Option<u32>,
    /// The interrupt lines as the outside last set them.
    pub lines: Lines,
}
