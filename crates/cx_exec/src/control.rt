//! What a control register instruction does with the register.

ghost use Rattle.std.specs.Prelude.{◌≡◌};
ghost use Rattle.cx_decode.specs.WellFormed.{WellFormed};
ghost use Rattle.cx_exec.specs.Control.{control_operand_of, control_value_of, reads_control, writes_control};

use crate::values::register;
use cx_decode::{Ins, Op};

/// Whether an instruction reads a control register: each control register instruction does, but CSRRW and CSRRWI with
/// rd 0.
pub fn reads_control(ins: &Ins) -> bool
    ensures { result ≡ reads_control ins.now }
{
    match ins.op {
        Op::Csrrs | Op::Csrrc | Op::Csrrsi | Op::Csrrci => true,
        Op::Csrrw | Op::Csrrwi => ins.rd != 0,
        _ => false,
    }
}

/// Whether an instruction writes a control register: each control register instruction does, but one that sets or
/// clears bits and has 0 in bits 19:15 of its word.
pub fn writes_control(ins: &Ins) -> bool
    ensures { result ≡ writes_control ins.now }
{
    match ins.op {
        Op::Csrrw | Op::Csrrwi => true,
        Op::Csrrs | Op::Csrrc | Op::Csrrsi | Op::Csrrci => ins.rs1 != 0,
        _ => false,
    }
}

/// The operand of a control register instruction: the value of rs1, or bits 19:15 of its word; 0 for all others.
pub fn control_operand(ins: &Ins, regs: &[u32; 32]) -> u32
    requires { WellFormed ins.now }
    ensures { result ≡ control_operand_of ins.now regs.now }
{
    match ins.op {
        Op::Csrrw | Op::Csrrs | Op::Csrrc => register(regs, ins.rs1),
        Op::Csrrwi | Op::Csrrsi | Op::Csrrci => u32::from(ins.rs1),
        _ => 0,
    }
}

/// The value that a control register instruction writes: the operand, the old value with its bits set, or the old value
/// with its bits cleared. All others leave the old value.
pub fn control_value(op: Op, old: u32, operand: u32) -> u32
    ensures { result ≡ control_value_of op old operand }
{
    match op {
        Op::Csrrw | Op::Csrrwi => operand,
        Op::Csrrs | Op::Csrrsi => old | operand,
        Op::Csrrc | Op::Csrrci => old & !operand,
        _ => old,
    }
}
