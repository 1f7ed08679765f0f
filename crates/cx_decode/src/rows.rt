//! The row of a word within its major opcode, by the minor fields.
#![tactic(auto, using(crate::proofs::Masks::masks, std::proofs::lemmas::Grind::common_steps))]

ghost use Rattle.std.specs.Prelude.{◌≡◌, ◌≢◌, ◌/◌, ◌%◌, ◌^◌, ◌<◌, IfSome, IfNone};
ghost use Rattle.cx_decode.specs.Table.{MatchesAs, MatchesNone};

use crate::format::Format;
use crate::op::Op;

/// The three bits 14:12.
pub fn minor(word: u32) -> u32
    ensures { result ≡ word / 2 ^ 12 % 2 ^ 3 }
{
    (word >> 12) & 7
}

/// The row of a word with the major opcode LOAD.
pub fn load_op(word: u32) -> Option<Op>
    requires { word % 2 ^ 7 ≡ 0x03 }
    ensures row { IfSome result (MatchesAs Format.Immediate word) }
    ensures none { IfNone result (MatchesNone word) }
{
    match minor(word) {
        0 => Some(Op::Lb),
        1 => Some(Op::Lh),
        2 => Some(Op::Lw),
        4 => Some(Op::Lbu),
        5 => Some(Op::Lhu),
        _ => None,
    }
}

/// The row of a word with the major opcode STORE.
pub fn store_op(word: u32) -> Option<Op>
    requires { word % 2 ^ 7 ≡ 0x23 }
    ensures row { IfSome result (MatchesAs Format.Store word) }
    ensures none { IfNone result (MatchesNone word) }
{
    match minor(word) {
        0 => Some(Op::Sb),
        1 => Some(Op::Sh),
        2 => Some(Op::Sw),
        _ => None,
    }
}

/// The row of a word with the major opcode BRANCH.
pub fn branch_op(word: u32) -> Option<Op>
    requires { word % 2 ^ 7 ≡ 0x63 }
    ensures row { IfSome result (MatchesAs Format.Branch word) }
    ensures none { IfNone result (MatchesNone word) }
{
    match minor(word) {
        0 => Some(Op::Beq),
        1 => Some(Op::Bne),
        4 => Some(Op::Blt),
        5 => Some(Op::Bge),
        6 => Some(Op::Bltu),
        7 => Some(Op::Bgeu),
        _ => None,
    }
}

/// The row of a word with the major opcode JALR.
pub fn jump_register_op(word: u32) -> Option<Op>
    requires { word % 2 ^ 7 ≡ 0x67 }
    ensures row { IfSome result (MatchesAs Format.Immediate word) }
    ensures none { IfNone result (MatchesNone word) }
{
    match minor(word) {
        0 => Some(Op::Jalr),
        _ => None,
    }
}

/// The row of a word with the major opcode MISC-MEM.
pub fn fence_op(word: u32) -> Option<Op>
    requires { word % 2 ^ 7 ≡ 0x0f }
    ensures row { IfSome result (MatchesAs Format.Fence word) }
    ensures none { IfNone result (MatchesNone word) }
{
    match minor(word) {
        0 => Some(Op::Fence),
        1 => Some(Op::FenceI),
        _ => None,
    }
}

/// The row of a word with the major opcode OP, by bits 31:25 above the minor bits.
pub fn register_op(word: u32) -> Option<Op>
    requires { word % 2 ^ 7 ≡ 0x33 }
    ensures row { IfSome result (MatchesAs Format.Register word) }
    ensures none { IfNone result (MatchesNone word) }
{
    match ((word >> 25) << 3) + minor(word) {
        0x000 => Some(Op::Add),
        0x001 => Some(Op::Sll),
        0x002 => Some(Op::Slt),
        0x003 => Some(Op::Sltu),
        0x004 => Some(Op::Xor),
        0x005 => Some(Op::Srl),
        0x006 => Some(Op::Or),
        0x007 => Some(Op::And),
        0x008 => Some(Op::Mul),
        0x009 => Some(Op::Mulh),
        0x00a => Some(Op::Mulhsu),
        0x00b => Some(Op::Mulhu),
        0x00c => Some(Op::Div),
        0x00d => Some(Op::Divu),
        0x00e => Some(Op::Rem),
        0x00f => Some(Op::Remu),
        0x100 => Some(Op::Sub),
        0x105 => Some(Op::Sra),
        _ => None,
    }
}

/// The row of a word with the major opcode AMO at words, but for LR, by bits 31:27.
pub fn atomic_op(word: u32) -> Option<Op>
    requires major { word % 2 ^ 7 ≡ 0x2f }
    requires minor { word / 2 ^ 12 % 2 ^ 3 ≡ 2 }
    requires other { word / 2 ^ 27 ≢ 2 }
    ensures row { IfSome result (MatchesAs Format.Atomic word) }
    ensures none { IfNone result (MatchesNone word) }
{
    match word >> 27 {
        0x00 => Some(Op::AmoaddW),
        0x01 => Some(Op::AmoswapW),
        0x03 => Some(Op::ScW),
        0x04 => Some(Op::AmoxorW),
        0x08 => Some(Op::AmoorW),
        0x0c => Some(Op::AmoandW),
        0x10 => Some(Op::AmominW),
        0x14 => Some(Op::AmomaxW),
        0x18 => Some(Op::AmominuW),
        0x1c => Some(Op::AmomaxuW),
        _ => None,
    }
}
