//! From a word to its instruction.
#![tactic(auto, using(crate::proofs::Masks::masks, std::proofs::lemmas::Grind::common_steps))]

ghost use Rattle.std.specs.Prelude.{◌≡◌, ◌/◌, ◌%◌, ◌^◌, IfSome, IfNone, Some};
ghost use Rattle.cx_decode.specs.Decoding.{decoded};
ghost use Rattle.cx_decode.specs.Operands.{IsWordOf, ins_of};
ghost use Rattle.cx_decode.specs.Table.{Matches, MatchesNone};
ghost use Rattle.cx_decode.specs.WellFormed.{WellFormed};
ghost use Rattle.cx_decode.specs.declared.op.Op.{Op};

use crate::format::Format;
use crate::ins::Ins;
use crate::op::Op;
use crate::operands::instruction;
use crate::rows;

/// The instruction of a word with the major opcode OP-IMM.
fn computation(word: u32) -> Option<Ins>
    requires { word % 2 ^ 7 ≡ 0x13 }
    ensures found { IfSome result (IsWordOf word) }
    ensures none { IfNone result (MatchesNone word) }
{
    match rows::minor(word) {
        0 => Some(instruction(Format::Immediate, Op::Addi, word)),
        2 => Some(instruction(Format::Immediate, Op::Slti, word)),
        3 => Some(instruction(Format::Immediate, Op::Sltiu, word)),
        4 => Some(instruction(Format::Immediate, Op::Xori, word)),
        6 => Some(instruction(Format::Immediate, Op::Ori, word)),
        7 => Some(instruction(Format::Immediate, Op::Andi, word)),
        1 if word >> 25 == 0 => Some(instruction(Format::Shift, Op::Slli, word)),
        5 if word >> 25 == 0 => Some(instruction(Format::Shift, Op::Srli, word)),
        5 if word >> 25 == 0x20 => Some(instruction(Format::Shift, Op::Srai, word)),
        _ => None,
    }
}

/// The instruction of a word with the major opcode AMO.
fn atomic(word: u32) -> Option<Ins>
    requires { word % 2 ^ 7 ≡ 0x2f }
    ensures found { IfSome result (IsWordOf word) }
    ensures none { IfNone result (MatchesNone word) }
{
    if rows::minor(word) != 2 {
        None
    } else if word >> 27 != 2 {
        Some(instruction(Format::Atomic, rows::atomic_op(word)?, word))
    } else if (word >> 20) & 31 == 0 {
        Some(instruction(Format::Reserve, Op::LrW, word))
    } else {
        None
    }
}

/// The instruction of a word with the major opcode SYSTEM and the minor bits 0.
fn privileged(word: u32) -> Option<Ins>
    requires major { word % 2 ^ 7 ≡ 0x73 }
    requires minor { word / 2 ^ 12 % 2 ^ 3 ≡ 0 }
    ensures found { IfSome result (IsWordOf word) }
    ensures none { IfNone result (MatchesNone word) }
{
    match word {
        0x0000_0073 => Some(instruction(Format::Plain, Op::Ecall, word)),
        0x0010_0073 => Some(instruction(Format::Plain, Op::Ebreak, word)),
        0x1020_0073 => Some(instruction(Format::Plain, Op::Sret, word)),
        0x3020_0073 => Some(instruction(Format::Plain, Op::Mret, word)),
        0x1050_0073 => Some(instruction(Format::Plain, Op::Wfi, word)),
        _ if word & 0xfe00_7fff == 0x1200_0073 => Some(instruction(
            Format::Translation,
            Op::SfenceVma,
            word,
        )),
        _ => None,
    }
}

/// The instruction of a word with the major opcode SYSTEM.
fn system(word: u32) -> Option<Ins>
    requires { word % 2 ^ 7 ≡ 0x73 }
    ensures found { IfSome result (IsWordOf word) }
    ensures none { IfNone result (MatchesNone word) }
{
    match rows::minor(word) {
        0 => privileged(word),
        1 => Some(instruction(Format::Control, Op::Csrrw, word)),
        2 => Some(instruction(Format::Control, Op::Csrrs, word)),
        3 => Some(instruction(Format::Control, Op::Csrrc, word)),
        5 => Some(instruction(Format::ControlImmediate, Op::Csrrwi, word)),
        6 => Some(instruction(Format::ControlImmediate, Op::Csrrsi, word)),
        7 => Some(instruction(Format::ControlImmediate, Op::Csrrci, word)),
        _ => None,
    }
}

/// The instruction of a word, by its major opcode.
fn find(word: u32) -> Option<Ins>
    ensures found { IfSome result (IsWordOf word) }
    ensures none { IfNone result (MatchesNone word) }
{
    match word & 0x7f {
        0x03 => Some(instruction(Format::Immediate, rows::load_op(word)?, word)),
        0x0f => Some(instruction(Format::Fence, rows::fence_op(word)?, word)),
        0x13 => computation(word),
        0x17 => Some(instruction(Format::Upper, Op::Auipc, word)),
        0x23 => Some(instruction(Format::Store, rows::store_op(word)?, word)),
        0x2f => atomic(word),
        0x33 => Some(instruction(Format::Register, rows::register_op(word)?, word)),
        0x37 => Some(instruction(Format::Upper, Op::Lui, word)),
        0x63 => Some(instruction(Format::Branch, rows::branch_op(word)?, word)),
        0x67 => Some(instruction(Format::Immediate, rows::jump_register_op(word)?, word)),
        0x6f => Some(instruction(Format::Jump, Op::Jal, word)),
        0x73 => system(word),
        _ => None,
    }
}

/// The instruction that a word spells, or None where no row of the table matches it.
#[tactic(auto, using(crate::proofs::Table::found_of_row, crate::proofs::Decoding::decoded_found))]
pub fn decode(word: u32) -> Option<Ins>
    ensures found { IfSome result (IsWordOf word) }
    ensures formed { IfSome result WellFormed }
    ensures none { IfNone result (MatchesNone word) }
    ensures only { (op : Op) → Matches word op → result ≡ Some (ins_of op word) }
    ensures whole { result ≡ decoded word }
{
    find(word)
}
