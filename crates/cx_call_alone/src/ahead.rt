//! Reading a call slice one record ahead of its steps.

ghost use Rattle.std.specs.Prelude.{◌≡◌, ℕ, suc, List, None, IfErr, IfOk, IsSome, IsTrue, OnOk};
ghost use Rattle.cx_alone.specs.Ahead.{EndIsLast, MayBeInput};
ghost use Rattle.cx_io.specs.Cause.{HasCause};
ghost use Rattle.cx_replay.specs.Records.{GaveMore};
ghost use Rattle.cx_callfmt.specs.Scan.{CallScan};
ghost use Rattle.cx_call_alone.specs.Ahead.{GoesOnCalls, IsAheadCalls, IsMidway, is_over, place_called};
ghost use Rattle.cx_call_alone.specs.Settling.{EndsOver, IsNotBroken, SettlesOn, TakesOn};

use crate::items::{StepItems, Told};
use crate::reading::read_record;
use cx_callfmt::CallReader;
use cx_io::Source;
use cx_replay::ReplayFault;
use std::alloc::Global;

/// What is due to the next step.
#[derive(Drop)]
pub(crate) enum Due {
    /// A step, with what is told of it.
    Step(StepItems),
    /// There is no next step.
    End,
}

/// A reader of a call slice that is one record ahead. The steps below `upto` are settled. Where a record waits, it is
/// one of step `upto`, and the first record behind it of another step settles that step; where none waits, the end was
/// read.
#[derive(Drop)]
pub(crate) struct Ahead {
    pub(crate) alloc: Global,
    pub(crate) reader: CallReader,
    pub(crate) upto: u64,
    pub(crate) waiting: Option<Told>,
}

impl Ahead {
    // Whether the end was read, and all steps before `at` are all that there are.
    fn is_over(&self, at: u64) -> bool
        ensures { result ≡ is_over at self.now.upto self.now.waiting }
    {
        match &self.waiting {
            None => self.upto <= at,
            Some(_) => false,
        }
    }

    // Takes the record that waits, where it is one of step `at`, and reads the next.
    fn take<S: Source>(
        &mut self,
        at: u64,
        step: &mut StepItems,
        source: &mut S,
    ) -> Result<(), ReplayFault>
        requires { GoesOnCalls self.old.upto self.old.waiting self.old.reader }
        ensures follows { IsSome (S.left source.old)
            → GaveMore (S.left source.old) (S.given source.old) (S.left source.new) (S.given source.new) }
        ensures takes { IsSome (S.left source.old) → (input : List ℕ)
            → MayBeInput (S.left source.new) (S.given source.new) input → (whole : CallScan) (end most : ℕ)
            → IsMidway whole end at (suc most) step.old self.old.upto self.old.waiting
            (place_called self.old.reader (S.given source.old) input) (S.left source.old)
            → TakesOn whole end at most step.new self.new (S.left source.new) (S.given source.new) input result }
        ensures last { IsSome (S.left source.old) → EndIsLast self.old.waiting (S.left source.old)
            → OnOk result (EndIsLast self.new.waiting (S.left source.new)) }
        ensures going { OnOk result (GoesOnCalls self.new.upto self.new.waiting self.new.reader) }
        ensures kind { IfErr result IsNotBroken }
        ensures cause { HasCause ReplayFault.ReadFault (S.faults source.old) (S.faults source.new) result }
    {
        if at < self.upto {
            return Ok(());
        }
        let Some(what) = self.waiting.take() else {
            return Ok(());
        };
        let (upto, waiting) = read_record(self.alloc, &mut self.reader, source)?;
        self.upto = upto;
        self.waiting = waiting;
        step.tell(what);
        Ok(())
    }

    /// What is due to step `at`, before which all were taken, once that step is settled: the first record behind its
    /// own is read first.
    pub(crate) fn settle<S: Source>(&mut self, at: u64, source: &mut S) -> Result<Due, ReplayFault>
        requires { GoesOnCalls self.old.upto self.old.waiting self.old.reader }
        ensures follows { IsSome (S.left source.old)
            → GaveMore (S.left source.old) (S.given source.old) (S.left source.new) (S.given source.new) }
        ensures settles { IsSome (S.left source.old) → (input : List ℕ)
            → MayBeInput (S.left source.new) (S.given source.new) input → (whole : CallScan) (end : ℕ)
            → IsAheadCalls whole end at self.old.upto self.old.waiting
            (place_called self.old.reader (S.given source.old) input) (S.left source.old)
            → SettlesOn whole end at self.new (S.left source.new) (S.given source.new) input result }
        ensures last { IsSome (S.left source.old) → EndIsLast self.old.waiting (S.left source.old)
            → OnOk result (EndIsLast self.new.waiting (S.left source.new)) }
        ensures ended { IfOk result (EndsOver self.new.waiting) }
        ensures going { OnOk result (GoesOnCalls self.new.upto self.new.waiting self.new.reader) }
        ensures kind { IfErr result IsNotBroken }
        ensures cause { HasCause ReplayFault.ReadFault (S.faults source.old) (S.faults source.new) result }
    {
        if self.is_over(at) {
            return Ok(Due::End);
        }
        let mut step = StepItems::none(self.alloc);
        self.take(at, &mut step, source)?;
        self.take(at, &mut step, source)?;
        self.take(at, &mut step, source)?;
        Ok(Due::Step(step))
    }
}
