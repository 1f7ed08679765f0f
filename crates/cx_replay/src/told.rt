//! Who is told a step that is taken: a record, or nobody.
//!
//! There is one text of a replay's step, with this as a parameter. What is known of who was told is a relation to the
//! record that the step has by its definition: of a record that it is the one, of nobody nothing.

ghost use Rattle.std.specs.Prelude.{◌≡◌, ◌≤◌, length, IfSome};
ghost use Rattle.cx_hart.specs.HartStep.{hart_step};
ghost use Rattle.cx_hart.specs.Step.{without_transfers};
ghost use Rattle.cx_hart.specs.Whole.{machine_of};
ghost use Rattle.cx_hart.specs.declared.record.StepRec.{StepRec};
ghost use Rattle.cx_machine.specs.Due.{AreLines};
ghost use Rattle.cx_replay.specs.Gathering.{IsCarriedOut, is_stepped};

use cx_hart::{Due, Machine, StepRec, Steps, Went};
use std::sync::ledger::Ledger;

/// Who is told a step.
pub(crate) trait Told {
    /// That the record of the step is this one.
    ghost knows: { Self → StepRec → Type 0 };

    /// Takes a step, once the bytes of devices were written, and answers whether it was carried out.
    fn take<L: Ledger>(&mut self, machine: &mut Machine, due: Due, steps: &mut Steps<L>) -> bool
        requires room { 2 ≤ machine.old.spare }
        requires lines { IfSome due.lines AreLines }
        ensures step { IsCarriedOut (hart_step machine.old.split (machine_of machine.old) (without_transfers due))
            (knows self.new) (machine_of machine.new) result }
        ensures size { length machine.new.memory ≡ length machine.old.memory }
        ensures split { machine.new.split ≡ machine.old.split }
        ensures saved { machine.new.saved ≡ machine.old.saved };
}

// Whether the step was carried out.
fn is_stepped(went: Went) -> bool
    ensures { result ≡ is_stepped went }
{
    match went {
        Went::Stepped => true,
        Went::NeedsValue(_) | Went::ValueLeft => false,
    }
}

impl Told for StepRec {
    ghost use Rattle.std.specs.Prelude.{◌≡◌};
    ghost use Rattle.cx_hart.specs.declared.record.StepRec.{StepRec};

    ghost knows = { λ told rec. told ≡ rec };

    #[inline]
    #[tactic(auto, using(crate::proofs::Tellings::carried_and_told))]
    fn take<L: Ledger>(&mut self, machine: &mut Machine, due: Due, steps: &mut Steps<L>) -> bool {
        let went = machine.step_into(due, steps, self);
        is_stepped(went)
    }
}

/// Nobody is told.
#[derive(Drop)]
pub(crate) struct Nobody;

impl Told for Nobody {
    ghost use Rattle.cx_hart.specs.declared.record.StepRec.{StepRec};

    ghost knows = { λ nobody rec. Unit {0} };

    #[inline]
    #[tactic(auto, using(crate::proofs::Tellings::carried_untold))]
    fn take<L: Ledger>(&mut self, machine: &mut Machine, due: Due, steps: &mut Steps<L>) -> bool {
        let went = machine.step_untold(due, steps);
        is_stepped(went)
    }
}
