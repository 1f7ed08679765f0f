//! What an instruction does.

/// The effect of an instruction on one register, pc and memory.
#[derive(Clone, Copy, Debug, PartialEq, Eq)]
pub struct Effect {
    /// The register that the value goes to; 0 where there is no value, or where it is dropped.
    pub rd: u8,
    /// The value for the register, 0 where there is none.
    pub value: u32,
    /// The next pc.
    pub pc: u32,
    /// The value stored, if one is: its low bytes, as many as the access has.
    pub write: Option<u32>,
}

/// The state of a program once an instruction is carried out.
#[derive(Clone, Copy, Debug, PartialEq, Eq)]
pub struct Done {
    /// All registers.
    pub regs: [u32; 32],
    /// The next pc.
    pub pc: u32,
    /// The value stored, if one is.
    pub write: Option<u32>,
}

/// A jump or a taken branch has a target that isn't a multiple of 4.
#[derive(Clone, Copy, Debug, PartialEq, Eq)]
pub struct Misaligned {
    /// The target.
    pub target: u32,
}
