//! How the operands of an instruction lie in its word.

/// The layout of an instruction's operands. A register is five bits: `rd` is bits 11:7, `rs1` bits 19:15 and `rs2`
/// bits 24:20. An operand that a format doesn't name is 0 in an `Ins` of it.
#[derive(Clone, Copy, Debug, PartialEq, Eq)]
pub enum Format {
    /// R: `rd`, `rs1`, `rs2`.
    Register,
    /// I: `rd`, `rs1`, and the top twelve bits, sign-extended.
    Immediate,
    /// A shift by an immediate: `rd`, `rs1`, and a distance of 0 to 31 in the place of `rs2`.
    Shift,
    /// S: `rs1`, `rs2`, and a twelve-bit offset in two parts, sign-extended.
    Store,
    /// B: `rs1`, `rs2`, and an even thirteen-bit offset, sign-extended.
    Branch,
    /// U: `rd`, and the top twenty bits over twelve zeros.
    Upper,
    /// J: `rd`, and an even 21-bit offset, sign-extended.
    Jump,
    /// A fence: the fields of I, with the top twelve bits as they stand.
    Fence,
    /// A control register instruction: `rd`, `rs1`, and the register's number in the top twelve bits.
    Control,
    /// The same with a five-bit operand in the place of `rs1`.
    ControlImmediate,
    /// No operand.
    Plain,
    /// A fence of translations: `rs1`, `rs2`.
    Translation,
    /// A load that reserves: `rd`, `rs1`, and the ordering bits aq (as bit 1) and rl (as bit 0).
    Reserve,
    /// An atomic: `rd`, `rs1`, `rs2`, and the ordering bits.
    Atomic,
}
