//! Taking a step that was taken before.

ghost use Rattle.std.specs.Bool.{OnTrue};
ghost use Rattle.std.specs.Prelude.{◌≡◌, ◌+◌, ◌≤◌, length, true};
ghost use Rattle.cx_hart.specs.HartStep.{hart_step};
ghost use Rattle.cx_hart.specs.Whole.{machine_of};
ghost use Rattle.cx_replay.specs.Gathering.{IsCarriedOut, is_stepped};
ghost use Rattle.cx_replay.specs.Replaying.{Unknown};

use crate::handed::Handed;
use cx_hart::{Machine, StepRec, Steps, Went};
use std::sync::ledger::Ledger;

// Whether a step was carried out.
fn is_stepped(went: Went) -> bool
    ensures { result ≡ is_stepped went }
{
    match went {
        Went::Stepped => true,
        Went::NeedsValue(_) | Went::ValueLeft => false,
    }
}

/// Takes a step to which this is handed, and tells it to nobody. It answers false where memory is refused, or where
/// the step isn't carried out, which of a recording that was read to its end each is; the machine may stand anywhere
/// then.
pub(crate) fn take_untold<L: Ledger>(
    machine: &mut Machine,
    handed: &Handed,
    steps: &mut Steps<L>,
) -> bool
    ensures step { OnTrue result (IsCarriedOut (hart_step machine.old.split (machine_of machine.old) handed.now) Unknown
        (machine_of machine.new) true) }
    ensures ticks { steps.new ≤ steps.old + 1 }
    ensures size { length machine.new.memory ≡ length machine.old.memory }
    ensures split { machine.new.split ≡ machine.old.split }
    ensures saved { machine.new.saved ≡ machine.old.saved }
{
    if !handed.prepare(machine) {
        return false;
    }
    let went = machine.step_untold(handed.rest(), steps);
    is_stepped(went)
}

/// The same, told in a record.
pub(crate) fn take_told<L: Ledger>(
    machine: &mut Machine,
    handed: &Handed,
    rec: &mut StepRec,
    steps: &mut Steps<L>,
) -> bool
    ensures step { OnTrue result (IsCarriedOut (hart_step machine.old.split (machine_of machine.old) handed.now)
        (λ told. rec.new ≡ told) (machine_of machine.new) true) }
    ensures ticks { steps.new ≤ steps.old + 1 }
    ensures size { length machine.new.memory ≡ length machine.old.memory }
    ensures split { machine.new.split ≡ machine.old.split }
    ensures saved { machine.new.saved ≡ machine.old.saved }
{
    if !handed.prepare(machine) {
        return false;
    }
    let went = machine.step_into(handed.rest(), steps, rec);
    is_stepped(went)
}
