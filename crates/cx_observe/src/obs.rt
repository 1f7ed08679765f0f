//! What is seen of a program at one step.

/// Bytes that were read or written, by their virtual address.
#[derive(Clone, Copy, Debug, PartialEq, Eq)]
pub struct Seen {
    /// The virtual address of the first byte. Addresses go on at 0 after 2^32 − 1.
    pub va: u32,
    /// How many bytes, 1 to 4.
    pub len: u8,
    /// The bytes, the first at the lowest address; those past the length are 0.
    pub bytes: [u8; 4],
}

/// An observation: what one step of a program shows of it, and nothing of the machine around it.
#[derive(Clone, Copy, Debug, PartialEq, Eq)]
pub struct Obs {
    /// The address of the instruction.
    pub pc: u32,
    /// The registers before the step; register 0 is 0.
    pub x: [u32; 32],
    /// The word of the instruction.
    pub word: u32,
    /// What a load, an LR or an AMO read.
    pub read: Option<Seen>,
    /// What an SC gave, or a read of a counter.
    pub value: Option<u32>,
    /// What a store, an SC or an AMO wrote.
    pub write: Option<Seen>,
}
