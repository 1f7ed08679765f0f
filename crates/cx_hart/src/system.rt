//! Instructions that call, break and return from traps, and those that ask for nothing.

ghost use Rattle.std.specs.Prelude.{◌≡◌};
ghost use Rattle.cx_decode.specs.WellFormed.{WellFormed};
ghost use Rattle.cx_hart.specs.System.{computed, returned, system};

use crate::effect::{instruction_effect, retired_with};
use crate::findings::{Control, Retired, Stop};
use crate::legal::{illegal, is_barred};
use cx_csr::State;
use cx_csr::causes::{BREAKPOINT, CALL_FROM_USER};
use cx_decode::{Ins, Op};
use cx_exec::{Effect, Got};
use cx_trap::{can_mret, can_sret};

/// What a return from a trap retires with, which goes on at `pc`.
#[inline]
fn returned(state: &State, control: Control, pc: u32) -> Retired
    ensures { result ≡ returned state.now control pc }
{
    let effect = Effect {
        rd: 0,
        value: 0,
        pc,
        write: None,
    };
    Retired {
        control,
        ..retired_with(state, effect)
    }
}

/// A call of the environment, a breakpoint, or the return from a trap.
#[inline(never)]
#[tactic(auto, unfolding(crate::specs::System::system))]
pub(crate) fn system(word: u32, state: &State, op: Op) -> Result<Retired, Stop>
    ensures { result ≡ system word state.now op }
{
    match op {
        Op::Ecall => Err(Stop::Trap {
            cause: CALL_FROM_USER + state.mode as u32,
            tval: 0,
        }),
        Op::Ebreak => Err(Stop::Trap {
            cause: BREAKPOINT,
            tval: state.pc,
        }),
        Op::Mret if can_mret(state) => Ok(returned(state, Control::Mret, state.csr.mepc)),
        Op::Sret if can_sret(state) => Ok(returned(state, Control::Sret, state.csr.sepc)),
        _ => Err(illegal(word)),
    }
}

/// An instruction that asks for nothing.
#[inline]
#[tactic(auto, unfolding(crate::specs::System::computed))]
pub(crate) fn computed(word: u32, state: &State, ins: &Ins) -> Result<Retired, Stop>
    requires { WellFormed ins.now }
    ensures { result ≡ computed word state.now ins.now }
{
    if is_barred(state, ins.op) {
        return Err(illegal(word));
    }
    let effect = instruction_effect(state, ins, Got::Nothing)?;
    Ok(retired_with(state, effect))
}
