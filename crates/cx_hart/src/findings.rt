//! The words in which the phases of a step speak: what each finds, before anything changes.
//!
//! A phase ends with a [`Stop`] where the step doesn't come to the end of its instruction. The bytes of an access are
//! one [`Part`] for each page that they lie in, and the [`Target`] of an access is its parts in RAM or the word of a
//! device. What an access or a control register gives to its instruction is a [`Reading`]. An instruction that comes
//! to its end has [`Retired`], which holds all that it leaves behind, with what it does to control registers as
//! [`Control`]. Definitions and code both use these types, and laws of crates above name them.

use crate::answer::Asked;
use crate::record::Touch;
use cx_decode::{Group, Ins};
use cx_exec::{Effect, Got};

/// Why a step ends before its instruction retires.
///
/// A step that asks isn't carried out, and can be taken again once the value is due. The other two are traps, which
/// lead to the next state.
#[derive(Clone, Copy, Debug, PartialEq, Eq)]
pub enum Stop {
    /// It asks the outside for a value, and none is due.
    Asks(Asked),
    /// It takes the interrupt of this number.
    Interrupt(u32),
    /// It takes an exception, with the address or the word that it is taken for.
    Trap {
        /// The cause.
        cause: u32,
        /// The address or the word.
        tval: u32,
    },
}

/// An instruction that is to be carried out: its word, and what is known of it.
#[derive(Clone, Copy, Debug, PartialEq, Eq)]
pub(crate) struct Going {
    pub word: u32,
    pub ins: Ins,
    pub group: Group,
}

/// Bytes of an access that lie in one page: their virtual address, their place in RAM, and how many they are.
///
/// An aligned access is one part. One that is split by pages has a part up to the end of the first page, and a second
/// one where it goes on in the next.
#[derive(Clone, Copy, Debug, PartialEq, Eq)]
pub struct Part {
    /// The virtual address of the first byte.
    pub va: u32,
    /// The place of the first byte.
    pub pa: u32,
    /// How many bytes.
    pub len: u8,
}

/// Where the bytes of an access stand, once its addresses are translated.
#[derive(Clone, Copy, Debug, PartialEq, Eq)]
pub enum Target {
    /// In RAM, the bytes of the next page apart.
    Memory {
        /// Up to the end of a page.
        first: Part,
        /// From there on.
        more: Option<Part>,
    },
    /// They are the word of a device.
    Device(Part),
}

/// What an access or the read of a control register gives to its instruction.
///
/// A value of the outside, as the word of a device or a half of the time is, is told twice: as the answer, and as a
/// value that the step took.
#[derive(Clone, Copy, Debug, PartialEq, Eq)]
pub struct Reading {
    /// The answer to the instruction's ask.
    pub got: Got,
    /// The value of the outside that it took.
    pub value: Option<u32>,
}

/// What a retired instruction does to control registers, but for pc and the counters.
///
/// Returns from traps stand here too, since they change the mode and the fields of a status register together.
#[derive(Clone, Copy, Debug, PartialEq, Eq)]
pub enum Control {
    /// Nothing.
    Untouched,
    /// It writes the register of this number.
    Write {
        /// The number.
        number: u16,
        /// The value.
        value: u32,
    },
    /// It returns from a trap to machine mode.
    Mret,
    /// It returns from a trap to supervisor mode.
    Sret,
}

/// All that a retired instruction takes and leaves.
///
/// With the state and the memory before the step it gives those behind it, and with what the step has seen its record.
#[derive(Clone, Copy, Debug, PartialEq, Eq)]
pub struct Retired {
    /// The value for a register, and the next pc.
    pub effect: Effect,
    /// What it does to control registers.
    pub control: Control,
    /// The reservation behind it.
    pub reservation: Option<u32>,
    /// What it writes, up to the end of a page.
    pub write: Option<Touch>,
    /// What it writes from there on.
    pub write_more: Option<Touch>,
    /// The value of the outside that it took.
    pub value: Option<u32>,
    /// What an SC or a read of a counter gave.
    pub result: Option<u32>,
}
