//! One turn of the hart: where it begins, and an instruction carried out as far as nothing changes.

ghost use Rattle.std.specs.Prelude.{◌≡◌, ◌%◌, ◌≤◌, IfOk};
ghost use Rattle.cx_decode.specs.Groups.{group_of};
ghost use Rattle.cx_decode.specs.WellFormed.{WellFormed};
ghost use Rattle.cx_exec.specs.Asking.{ask_of};
ghost use Rattle.cx_hart.specs.Begin.{begun};
ghost use Rattle.cx_hart.specs.Looks.{Learns};
ghost use Rattle.cx_hart.specs.Turn.{done_without_access, executed};

use crate::access::accessed;
use crate::control::controlled;
use crate::fetch::fetched;
use crate::findings::{Going, Retired, Stop};
use crate::here::Here;
use crate::legal::going;
use crate::system::{computed, system};
use crate::tells::Tells;
use cx_decode::{Decoder, Ins};
use cx_exec::{Ask, ask};
use cx_trap::pending;

/// An instruction that asks for no access to memory.
#[inline]
#[tactic(auto, using(crate::proofs::Needs::control_number))]
fn done_without_access(here: &Here, word: u32, ins: &Ins, ask: Ask) -> Result<Retired, Stop>
    requires formed { WellFormed ins.now }
    requires ask { ask ≡ ask_of ins.now here.now.state.pc here.now.state.x }
    ensures { result ≡ done_without_access here.now word ins.now ask }
{
    // The rare results are bound apart, so that the common one is written once, to where the caller wants it.
    let rare = match ask {
        Ask::Csr => controlled(here, word, ins),
        Ask::System => system(word, here.state, ins.op),
        _ => return computed(word, here.state, ins),
    };
    rare
}

/// An instruction carried out.
#[inline]
#[tactic(auto, unfolding(crate::specs::Turn::executed), using(crate::proofs::Needs::need_length))]
pub(crate) fn executed<R: Tells>(
    here: &Here,
    word: u32,
    ins: &Ins,
    rec: &mut R,
) -> Result<Retired, Stop>
    requires formed { WellFormed ins.now }
    requires room { 4 ≤ R.room rec.old }
    ensures retired { result ≡ (executed here.now word ins.now).end }
    ensures told { Learns (R.knows rec.old) (R.knows rec.new) (executed here.now word ins.now).looks }
{
    let ask = ask(ins, here.state.pc, &here.state.x);
    if let Some(need) = ask.need() {
        return accessed(here, ins, need, rec);
    }
    done_without_access(here, word, ins, ask)
}

/// The instruction that a turn carries out, unless an interrupt is to be taken or its fetch ends in a trap.
#[inline(always)]
#[tactic(auto, unfolding(crate::specs::Begin::begun), using(crate::proofs::Telling::told_append))]
pub(crate) fn begun<R: Tells>(
    here: &Here,
    decoder: &mut Decoder,
    rec: &mut R,
) -> Result<Going, Stop>
    requires aligned { here.now.state.pc % 4 ≡ 0 }
    requires room { 6 ≤ R.room rec.old }
    ensures going { result ≡ (begun here.now).end }
    ensures told { Learns (R.knows rec.old) (R.knows rec.new) (begun here.now).looks }
    ensures room { 4 ≤ R.room rec.new }
    ensures formed { IfOk result (λ g. WellFormed g.ins) }
    ensures group { IfOk result (λ g. g.group ≡ group_of g.ins.op) }
{
    if let Some(number) = pending(here.state) {
        return Err(Stop::Interrupt(number));
    }
    let word = fetched(here, rec)?;
    going(decoder, word)
}
