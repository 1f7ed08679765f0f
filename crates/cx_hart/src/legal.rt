//! Which words are instructions, and which of these the mode bars.

ghost use Rattle.std.specs.Prelude.{◌≡◌, IfOk};
ghost use Rattle.cx_decode.specs.Groups.{group_of};
ghost use Rattle.cx_decode.specs.WellFormed.{WellFormed};
ghost use Rattle.cx_hart.specs.Begin.{going_of};
ghost use Rattle.cx_hart.specs.Legal.{is_barred};

use crate::findings::{Going, Stop};
use cx_csr::causes::ILLEGAL_INSTRUCTION;
use cx_csr::modes::{MACHINE, SUPERVISOR, USER};
use cx_csr::status::{TVM, TW};
use cx_csr::{State, is_bit_set};
use cx_decode::{Decoder, Op};

/// The stop of an illegal instruction.
#[inline]
pub(crate) fn illegal(word: u32) -> Stop
    ensures { result ≡ Stop.Trap ILLEGAL_INSTRUCTION word }
{
    Stop::Trap {
        cause: ILLEGAL_INSTRUCTION,
        tval: word,
    }
}

/// The instruction that a word spells.
#[inline(always)]
#[tactic(auto, using(crate::proofs::Beginnings::going_known, crate::proofs::Beginnings::going_none))]
pub(crate) fn going(decoder: &mut Decoder, word: u32) -> Result<Going, Stop>
    ensures going { result ≡ going_of word }
    ensures formed { IfOk result (λ g. WellFormed g.ins) }
    ensures group { IfOk result (λ g. g.group ≡ group_of g.ins.op) }
{
    match decoder.decode(word) {
        Some(known) => Ok(Going {
            word,
            ins: known.ins,
            group: known.group,
        }),
        None => Err(illegal(word)),
    }
}

/// Whether the mode may not wait, or may not order translations.
#[inline]
pub(crate) fn is_barred(state: &State, op: Op) -> bool
    ensures { result ≡ is_barred state.now op }
{
    match op {
        Op::Wfi => state.mode < MACHINE && is_bit_set(state.csr.mstatus, TW),
        Op::SfenceVma => {
            state.mode == USER || state.mode == SUPERVISOR && is_bit_set(state.csr.mstatus, TVM)
        }
        _ => false,
    }
}
