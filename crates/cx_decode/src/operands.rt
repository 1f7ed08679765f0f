//! The operands of a word.

ghost use Rattle.std.specs.Prelude.{◌≡◌};
ghost use Rattle.cx_decode.specs.Operands.{field, ins, operands, rd_of, rs1_of, rs2_of, i_immediate, s_immediate};
ghost use Rattle.cx_decode.specs.Operands.{b_immediate, u_immediate, j_immediate};

use crate::format::Format;
use crate::ins::Ins;
use crate::op::Op;

fn rd(word: u32) -> u8
    ensures { result ≡ rd_of word }
{
    ((word >> 7) & 31) as u8
}

fn rs1(word: u32) -> u8
    ensures { result ≡ rs1_of word }
{
    ((word >> 15) & 31) as u8
}

fn rs2(word: u32) -> u8
    ensures { result ≡ rs2_of word }
{
    ((word >> 20) & 31) as u8
}

fn i_offset(word: u32) -> u32
    ensures { result ≡ i_immediate word }
{
    (word >> 20).wrapping_sub((word >> 31) << 12)
}

fn s_offset(word: u32) -> u32
    ensures { result ≡ s_immediate word }
{
    (((word >> 25) << 5) + ((word >> 7) & 31)).wrapping_sub((word >> 31) << 12)
}

fn b_offset(word: u32) -> u32
    ensures { result ≡ b_immediate word }
{
    let low = (((word >> 7) & 1) << 11) + (((word >> 25) & 63) << 5) + (((word >> 8) & 15) << 1);
    low.wrapping_sub((word >> 31) << 12)
}

fn j_offset(word: u32) -> u32
    ensures { result ≡ j_immediate word }
{
    let low = (((word >> 12) & 255) << 12)
        + (((word >> 20) & 1) << 11)
        + (((word >> 21) & 1023) << 1);
    low.wrapping_sub((word >> 31) << 20)
}

fn upper_bits(word: u32) -> u32
    ensures { result ≡ u_immediate word }
{
    (word >> 12) << 12
}

fn distance(word: u32) -> u32
    ensures { result ≡ field 24 20 word }
{
    (word >> 20) & 31
}

fn number(word: u32) -> u32
    ensures { result ≡ field 31 20 word }
{
    word >> 20
}

fn order(word: u32) -> u32
    ensures { result ≡ field 26 25 word }
{
    (word >> 25) & 3
}

/// The instruction of this row that a word spells, with the operands that lie in the word in this format.
#[inline]
pub fn instruction(format: Format, op: Op, word: u32) -> Ins
    ensures { result ≡ operands format op word }
{
    match format {
        Format::Register => ins(op, rd(word), rs1(word), rs2(word), 0),
        Format::Immediate => ins(op, rd(word), rs1(word), 0, i_offset(word)),
        Format::Shift => ins(op, rd(word), rs1(word), 0, distance(word)),
        Format::Store => ins(op, 0, rs1(word), rs2(word), s_offset(word)),
        Format::Branch => ins(op, 0, rs1(word), rs2(word), b_offset(word)),
        Format::Upper => ins(op, rd(word), 0, 0, upper_bits(word)),
        Format::Jump => ins(op, rd(word), 0, 0, j_offset(word)),
        Format::Fence | Format::Control | Format::ControlImmediate => {
            ins(op, rd(word), rs1(word), 0, number(word))
        }
        Format::Plain => ins(op, 0, 0, 0, 0),
        Format::Translation => ins(op, 0, rs1(word), rs2(word), 0),
        Format::Reserve => ins(op, rd(word), rs1(word), 0, order(word)),
        Format::Atomic => ins(op, rd(word), rs1(word), rs2(word), order(word)),
    }
}

#[inline]
fn ins(op: Op, rd: u8, rs1: u8, rs2: u8, imm: u32) -> Ins
    ensures { result ≡ ins op rd rs1 rs2 imm }
{
    Ins {
        op,
        rd,
        rs1,
        rs2,
        imm,
    }
}
