//! An instruction with its operands.

use crate::op::Op;

/// A decoded instruction.
#[derive(Clone, Copy, Debug, PartialEq, Eq)]
pub struct Ins {
    /// The row of the instruction table.
    pub op: Op,
    /// The register that the result goes to; 0 where the format has none.
    pub rd: u8,
    /// The first register read, or the five-bit operand of CSRRWI, CSRRSI and CSRRCI; 0 where the format has none.
    pub rs1: u8,
    /// The second register read; 0 where the format has none.
    pub rs2: u8,
    /// The immediate as a 32-bit pattern: sign-extended for the formats I, S, B and J, over twelve zeros for U, the
    /// distance of a shift, the top twelve bits of FENCE and FENCE.I, the number of a control register, and for an
    /// atomic aq as bit 1 and rl as bit 0; 0 where the format has none.
    pub imm: u32,
}
