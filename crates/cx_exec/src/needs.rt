//! From an instruction to its ask.

ghost use Rattle.std.specs.Prelude.{◌≡◌};
ghost use Rattle.cx_decode.specs.WellFormed.{WellFormed};
ghost use Rattle.cx_exec.specs.Asking.{ask_of};

use crate::asks::Ask;
use crate::got::Got;
use crate::values::Values;
use cx_decode::{Ins, Op};

/// What an instruction at pc, with these registers, needs from memory or elsewhere.
pub fn ask(ins: &Ins, pc: u32, regs: &[u32; 32]) -> Ask
    requires { WellFormed ins.now }
    ensures { result ≡ ask_of ins.now pc regs.now }
{
    let Values { a, imm, .. } = Values::of(ins, pc, regs, Got::Nothing);
    let va = a.wrapping_add(imm);
    match ins.op {
        Op::Lb | Op::Lbu => Ask::Load { va, len: 1 },
        Op::Lh | Op::Lhu => Ask::Load { va, len: 2 },
        Op::Lw => Ask::Load { va, len: 4 },
        Op::Sb => Ask::Store { va, len: 1 },
        Op::Sh => Ask::Store { va, len: 2 },
        Op::Sw => Ask::Store { va, len: 4 },
        Op::LrW => Ask::Reserve { va: a },
        Op::ScW => Ask::Conditional { va: a },
        Op::AmoswapW
        | Op::AmoaddW
        | Op::AmoxorW
        | Op::AmoandW
        | Op::AmoorW
        | Op::AmominW
        | Op::AmomaxW
        | Op::AmominuW
        | Op::AmomaxuW => Ask::Amo { va: a },
        Op::Csrrw | Op::Csrrs | Op::Csrrc | Op::Csrrwi | Op::Csrrsi | Op::Csrrci => Ask::Csr,
        Op::Ecall | Op::Ebreak | Op::Sret | Op::Mret => Ask::System,
        _ => Ask::Nothing,
    }
}
