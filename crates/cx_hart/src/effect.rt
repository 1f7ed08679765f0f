//! What an instruction does to registers and pc, and what it retires with.

ghost use Rattle.std.specs.Prelude.{◌≡◌};
ghost use Rattle.cx_decode.specs.WellFormed.{WellFormed};
ghost use Rattle.cx_hart.specs.Effects.{instruction_effect, retired_with};

use crate::findings::{Control, Retired, Stop};
use cx_csr::State;
use cx_csr::causes::INSTRUCTION_ADDRESS_MISALIGNED;
use cx_decode::Ins;
use cx_exec::{Effect, Got, carry_out};

/// The effect of an instruction, or the trap that a misaligned target ends in.
#[inline]
pub(crate) fn instruction_effect(state: &State, ins: &Ins, got: Got) -> Result<Effect, Stop>
    requires { WellFormed ins.now }
    ensures { result ≡ instruction_effect state.now ins.now got }
{
    match carry_out(ins, state.pc, &state.x, got) {
        Ok(effect) => Ok(effect),
        Err(misaligned) => Err(Stop::Trap {
            cause: INSTRUCTION_ADDRESS_MISALIGNED,
            tval: misaligned.target,
        }),
    }
}

/// What an instruction retires with that has this effect and no other.
#[inline]
pub(crate) fn retired_with(state: &State, effect: Effect) -> Retired
    ensures { result ≡ retired_with state.now effect }
{
    Retired {
        effect,
        control: Control::Untouched,
        reservation: state.reservation,
        write: None,
        write_more: None,
        value: None,
        result: None,
    }
}
