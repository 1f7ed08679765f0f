//! The operands that an instruction is shown with.

ghost use Rattle.std.specs.Prelude.{◌≡◌, ◌+◌, ◌≤◌, ◌++◌, length};
ghost use Rattle.cx_print.specs.Operands.{immediate_operands, is_addressed, operands_of, operand_text};
ghost use Rattle.cx_print.specs.Disassembly.{operands_text};
ghost use Rattle.cx_print.specs.Room.{operand_room, operands_room};

use cx_decode::{Format, Ins, Op};

/// An operand of an instruction, as it is shown.
#[derive(Clone, Copy)]
pub(crate) enum Operand {
    /// The register of this number.
    X(u8),
    /// A number of five bits.
    Small(u8),
    /// A pattern of 32 bits, as a signed number.
    Signed(u32),
    /// A distance from pc, as a pattern of 32 bits.
    Target(u32),
    /// The top twenty bits of a pattern.
    UpperBits(u32),
    /// The control register of this number.
    ControlRegister(u32),
    /// The memory that a register points to.
    Place(u8),
    /// The memory at a distance from where a register points to: the distance as a pattern of 32 bits, the register.
    Offset(u32, u8),
}

/// The operands of an instruction in the order in which they are shown.
#[derive(Clone, Copy)]
pub(crate) enum Operands {
    /// None.
    Nothing,
    /// Two of them.
    Two(Operand, Operand),
    /// Three of them.
    Three(Operand, Operand, Operand),
}

/// Whether the address is a register plus the immediate, among the rows of the format I.
fn is_addressed(op: Op) -> bool
    ensures { result ≡ is_addressed op }
{
    matches!(op, Op::Jalr | Op::Lb | Op::Lh | Op::Lw | Op::Lbu | Op::Lhu)
}

/// The operands of a row of the format I.
fn immediate_operands(ins: &Ins) -> Operands
    ensures { result ≡ immediate_operands (is_addressed ins.now.op) ins.now }
{
    if is_addressed(ins.op) {
        Operands::Two(Operand::X(ins.rd), Operand::Offset(ins.imm, ins.rs1))
    } else {
        Operands::Three(
            Operand::X(ins.rd),
            Operand::X(ins.rs1),
            Operand::Signed(ins.imm),
        )
    }
}

/// The operands of an instruction.
pub(crate) fn operands_of(ins: &Ins) -> Operands
    ensures operands { result ≡ operands_of ins.now }
    ensures room { operands_room result ≤ 26 }
{
    let Ins {
        rd,
        rs1,
        rs2,
        imm,
        ..
    } = *ins;
    let (rd, rs1, rs2) = (Operand::X(rd), Operand::X(rs1), Operand::X(rs2));
    match ins.op.format() {
        Format::Register => Operands::Three(rd, rs1, rs2),
        Format::Immediate => immediate_operands(ins),
        Format::Shift => Operands::Three(rd, rs1, Operand::Signed(imm)),
        Format::Store => Operands::Two(rs2, Operand::Offset(imm, ins.rs1)),
        Format::Branch => Operands::Three(rs1, rs2, Operand::Target(imm)),
        Format::Upper => Operands::Two(rd, Operand::UpperBits(imm)),
        Format::Jump => Operands::Two(rd, Operand::Target(imm)),
        Format::Fence | Format::Plain => Operands::Nothing,
        Format::Control => Operands::Three(rd, Operand::ControlRegister(imm), rs1),
        Format::ControlImmediate => {
            Operands::Three(rd, Operand::ControlRegister(imm), Operand::Small(ins.rs1))
        }
        Format::Translation => Operands::Two(rs1, rs2),
        Format::Reserve => Operands::Two(rd, Operand::Place(ins.rs1)),
        Format::Atomic => Operands::Three(rd, rs2, Operand::Place(ins.rs1)),
    }
}
