//! What a step did.

use cx_csr::{CsrFile, Lines, State};

/// How a step ended.
#[derive(Clone, Copy, Debug, PartialEq, Eq)]
pub enum Ended {
    /// Its instruction was carried out.
    Retired,
    /// The exception of this cause was taken.
    Trap(u32),
    /// The interrupt of this number was taken: the cause without bit 31.
    Interrupt(u32),
}

/// A stretch of bytes that was read or written.
#[derive(Clone, Copy, Debug, PartialEq, Eq)]
pub struct Touch {
    /// The virtual address of the first byte.
    pub va: u32,
    /// The place of the first byte, in RAM or of a device.
    pub pa: u32,
    /// How many bytes, 1 to 4.
    pub len: u8,
    /// The bytes, the first at the lowest address; those past the length are 0.
    pub bytes: [u8; 4],
}

/// A step that was carried out. A step that ended in a trap or an interrupt has read and written nothing but table
/// entries and the word of its instruction.
#[derive(Clone, Copy, Debug, PartialEq, Eq)]
pub struct StepRec {
    /// The state before the step, once the lines were set.
    pub before: State,
    /// How the step ended.
    pub ended: Ended,
    /// The word of the instruction, where one was fetched.
    pub fetch: Option<Touch>,
    /// What a load, an LR or an AMO read, up to the end of a page.
    pub read: Option<Touch>,
    /// What it read of the next page.
    pub read_more: Option<Touch>,
    /// What a store, an SC or an AMO wrote, up to the end of a page.
    pub write: Option<Touch>,
    /// What it wrote to the next page.
    pub write_more: Option<Touch>,
    /// The value of the outside that the step took, for a word of a device or a half of the time.
    pub value: Option<u32>,
    /// What an SC gave, or a read of `cycle`, `time`, `instret` or their high halves.
    pub result: Option<u32>,
    /// How many entries of page tables were read, at most 6.
    pub walked: u8,
    /// The places of these entries in order; 0 past their number.
    pub places: [u32; 6],
    /// The entries; 0 past their number.
    pub entries: [u32; 6],
}

impl StepRec {
    /// A record that tells nothing, for a step to be told in.
    pub const BLANK: StepRec = StepRec {
        before: State {
            pc: 0,
            x: [0; 32],
            mode: 0,
            csr: CsrFile {
                mstatus: 0,
                medeleg: 0,
                mideleg: 0,
                mie: 0,
                mip: 0,
                mtvec: 0,
                mcounteren: 0,
                mscratch: 0,
                mepc: 0,
                mcause: 0,
                mtval: 0,
                stvec: 0,
                scounteren: 0,
                sscratch: 0,
                sepc: 0,
                scause: 0,
                stval: 0,
                satp: 0,
                mcycle: 0,
                minstret: 0,
            },
            reservation: None,
            lines: Lines(0),
        },
        ended: Ended::Retired,
        fetch: None,
        read: None,
        read_more: None,
        write: None,
        write_more: None,
        value: None,
        result: None,
        walked: 0,
        places: [0; 6],
        entries: [0; 6],
    };
}
