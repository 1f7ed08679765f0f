//! The end of a turn: its changes are made and told.

ghost use Rattle.std.specs.Prelude.{◌≡◌, ◌+◌, ◌≤◌, length, None, Err};
ghost use Rattle.cx_hart.specs.Conclude.{IsCause, IsEnd, asked_of, is_left};
ghost use Rattle.cx_hart.specs.Outcomes.{EndsStepThere, Goes, machine};
ghost use Rattle.cx_hart.specs.Phases.{unseen};
ghost use Rattle.cx_hart.specs.Step.{ended_in};
ghost use Rattle.cx_hart.specs.declared.answer.Went.TheVariants as went;
ghost use Rattle.cx_hart.specs.declared.record.StepRec.{StepRec};

use crate::after::{retire, take_trap, write_both};
use crate::answer::{Asked, Went};
use crate::findings::{Retired, Stop};
use crate::record::Ended;
use crate::tells::Tells;
use cx_csr::State;
use cx_csr::causes::{INSTRUCTION_ADDRESS_MISALIGNED, INTERRUPT_BIT};
use cx_ram::Ram;

/// The value that the turn asks for, where it asks for one that isn't due.
#[inline]
pub(crate) fn asked_of(ended: &Result<Retired, Stop>) -> Option<Asked>
    ensures { result ≡ asked_of ended.now }
{
    match ended {
        Err(Stop::Asks(what)) => Some(*what),
        _ => None,
    }
}

/// Whether a value is due that the turn didn't take.
#[inline]
pub(crate) fn is_left(given: Option<u32>, ended: &Result<Retired, Stop>) -> bool
    ensures { result ≡ is_left given ended.now }
{
    let taken = match ended {
        Ok(retired) => retired.value,
        Err(_) => None,
    };
    given.is_some() && taken.is_none()
}

/// Makes the changes of a turn that is carried out, and tells how it ended.
#[inline]
pub(crate) fn conclude<R: Tells>(
    ended: &Result<Retired, Stop>,
    state: &mut State,
    ram: &mut Ram,
    rec: &mut R,
)
    requires end { IsEnd (length ram.old.memory) state.old ended.now }
    requires room { 2 ≤ ram.old.spare }
    ensures outcome { (r : StepRec) → R.knows rec.old r → Goes (R.knows rec.new) went.Stepped
        (machine state.old ram.old.memory) (machine state.new ram.new.memory)
        (ended_in (machine state.old ram.old.memory) r ended.now) }
    ensures size { length ram.new.memory ≡ length ram.old.memory }
    ensures saved { ram.new.saved ≡ ram.old.saved }
    ensures spare { ram.old.spare ≤ ram.new.spare + 2 }
{
    match ended {
        Ok(retired) => {
            rec.done(retired);
            retire(state, retired);
            write_both(ram, retired);
        }
        Err(Stop::Trap { cause, tval }) => {
            rec.ended(Ended::Trap(*cause));
            take_trap(state, *cause, *tval);
        }
        Err(Stop::Interrupt(number)) => {
            rec.ended(Ended::Interrupt(*number));
            take_trap(state, *number + INTERRUPT_BIT, 0);
        }
        Err(Stop::Asks(_)) => unreachable!(),
    }
}

/// The end of a turn that stops before its instruction retires.
#[cold]
#[inline(never)]
pub(crate) fn stopped<R: Tells>(
    given: Option<u32>,
    stop: Stop,
    state: &mut State,
    rec: &mut R,
) -> Went
    requires { IsCause stop }
    ensures { EndsStepThere (R.knows rec.old) (R.knows rec.new) given state.old (unseen (Err stop)) result state.new }
{
    match stop {
        Stop::Asks(what) => Went::NeedsValue(what),
        Stop::Trap { cause, tval } => {
            if given.is_some() {
                return Went::ValueLeft;
            }
            rec.ended(Ended::Trap(cause));
            take_trap(state, cause, tval);
            Went::Stepped
        }
        Stop::Interrupt(number) => {
            if given.is_some() {
                return Went::ValueLeft;
            }
            rec.ended(Ended::Interrupt(number));
            take_trap(state, number + INTERRUPT_BIT, 0);
            Went::Stepped
        }
    }
}

/// The end of a turn whose instruction goes on at a target that isn't a multiple of 4.
#[cold]
#[inline(never)]
pub(crate) fn misaligned<R: Tells>(target: u32, state: &mut State, rec: &mut R) -> Went
    ensures { EndsStepThere (R.knows rec.old) (R.knows rec.new) None state.old
        (unseen (Err (Stop.Trap INSTRUCTION_ADDRESS_MISALIGNED target))) result state.new }
{
    let stop = Stop::Trap {
        cause: INSTRUCTION_ADDRESS_MISALIGNED,
        tval: target,
    };
    stopped(None, stop, state, rec)
}
