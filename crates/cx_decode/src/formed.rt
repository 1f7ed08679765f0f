//! Which operands the format of a row can spell.

ghost use Rattle.std.specs.Prelude.{◌↔◌, IsTrue};
ghost use Rattle.cx_decode.specs.WellFormed.{WellFormed, IsSigned, IsEvenSigned};

use crate::format::Format;
use crate::ins::Ins;

/// Twelve bits, sign-extended.
fn is_short(imm: u32) -> bool
    ensures { IsTrue result ↔ IsSigned 12 imm }
{
    imm < 0x800 || imm >= 0xffff_f800
}

/// Thirteen bits, sign-extended, the lowest of them 0.
fn is_branch_offset(imm: u32) -> bool
    ensures { IsTrue result ↔ IsEvenSigned 13 imm }
{
    (imm < 0x1000 || imm >= 0xffff_f000) && imm % 2 == 0
}

/// 21 bits, sign-extended, the lowest of them 0.
fn is_jump_offset(imm: u32) -> bool
    ensures { IsTrue result ↔ IsEvenSigned 21 imm }
{
    (imm < 0x10_0000 || imm >= 0xfff0_0000) && imm % 2 == 0
}

/// Whether the registers are below 32, the fields that the format lacks are 0, and the immediate is one that the format
/// can spell.
pub fn well_formed(ins: &Ins) -> bool
    ensures { IsTrue result ↔ WellFormed ins.now }
{
    let (rd, rs1, rs2) = (ins.rd < 32, ins.rs1 < 32, ins.rs2 < 32);
    let (no_rd, no_rs1, no_rs2) = (ins.rd == 0, ins.rs1 == 0, ins.rs2 == 0);
    match ins.op.format() {
        Format::Register => rd && rs1 && rs2 && ins.imm == 0,
        Format::Immediate => rd && rs1 && no_rs2 && is_short(ins.imm),
        Format::Shift => rd && rs1 && no_rs2 && ins.imm < 32,
        Format::Store => no_rd && rs1 && rs2 && is_short(ins.imm),
        Format::Branch => no_rd && rs1 && rs2 && is_branch_offset(ins.imm),
        Format::Upper => rd && no_rs1 && no_rs2 && ins.imm % 0x1000 == 0,
        Format::Jump => rd && no_rs1 && no_rs2 && is_jump_offset(ins.imm),
        Format::Fence | Format::Control | Format::ControlImmediate => rd
            && rs1
            && no_rs2
            && ins.imm < 0x1000,
        Format::Plain => no_rd && no_rs1 && no_rs2 && ins.imm == 0,
        Format::Translation => no_rd && rs1 && rs2 && ins.imm == 0,
        Format::Reserve => rd && rs1 && no_rs2 && ins.imm < 4,
        Format::Atomic => rd && rs1 && rs2 && ins.imm < 4,
    }
}
