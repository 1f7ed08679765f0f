//! From an instruction to its word.

ghost use Rattle.std.specs.Prelude.{◌≡◌, ℕ, ◌^◌, ◌<◌};
ghost use Rattle.cx_decode.specs.Encoding.{placed_registers, placed_immediate};
ghost use Rattle.cx_decode.specs.Operands.{IsWordOf};
ghost use Rattle.cx_decode.specs.WellFormed.{WellFormed};

use crate::format::Format;
use crate::ins::Ins;

/// The bits of the registers in a word.
fn register_bits(ins: &Ins) -> u32
    requires rd { ins.now.rd < 2 ^ 5 }
    requires rs1 { ins.now.rs1 < 2 ^ 5 }
    requires rs2 { ins.now.rs2 < 2 ^ 5 }
    ensures { result ≡ placed_registers ins.now }
{
    (u32::from(ins.rd) << 7) + (u32::from(ins.rs1) << 15) + (u32::from(ins.rs2) << 20)
}

/// The bits of an immediate in a word of this format.
fn immediate_bits(format: Format, imm: u32) -> u32
    ensures { result ≡ placed_immediate format imm }
{
    match format {
        Format::Register | Format::Plain | Format::Translation => 0,
        Format::Immediate | Format::Fence | Format::Control | Format::ControlImmediate => (imm
            & 0xfff)
            << 20,
        Format::Shift => (imm & 31) << 20,
        Format::Store => (((imm >> 5) & 127) << 25) + ((imm & 31) << 7),
        Format::Branch => {
            ((imm >> 31) << 31)
                + (((imm >> 5) & 63) << 25)
                + (((imm >> 1) & 15) << 8)
                + (((imm >> 11) & 1) << 7)
        }
        Format::Upper => (imm >> 12) << 12,
        Format::Jump => {
            ((imm >> 31) << 31)
                + (((imm >> 1) & 1023) << 21)
                + (((imm >> 11) & 1) << 20)
                + (((imm >> 12) & 255) << 12)
        }
        Format::Reserve | Format::Atomic => (imm & 3) << 25,
    }
}

/// The one word that decodes to an instruction.
pub fn encode(ins: Ins) -> u32
    requires { WellFormed ins }
    ensures spells { IsWordOf result ins }
    ensures only { (word : ℕ) → word < 2 ^ 32 → IsWordOf word ins → word ≡ result }
{
    ins.op.bits() + register_bits(&ins) + immediate_bits(ins.op.format(), ins.imm)
}
