//! A machine that takes the steps of a run again.

ghost use Rattle.std.specs.Bool.{OnTrue};
ghost use Rattle.std.specs.Prelude.{◌≡◌, ◌+◌, ◌-◌, ◌%◌, ◌<◌, ◌≤◌, false, Some};
ghost use Rattle.cx_hart.specs.Whole.{machine_of};
ghost use Rattle.cx_hart.specs.WellFormed.{IsWellFormed};
ghost use Rattle.cx_log.specs.Recording.{Recording};
ghost use Rattle.cx_seek.specs.Dues.{index_behind};
ghost use Rattle.cx_seek.specs.Seeking.{IsCourse, IsRunOf, IsSameMachine, IsWithin, StandsIn, taken};

use crate::course::Course;
use crate::step::{take_told, take_untold};
use cx_hart::{Machine, StepRec, Steps};
use std::sync::ledger::Ledger;

/// A machine before a step of a run, the step, and the index of the first note of that step or a later one.
#[derive(Drop)]
pub(crate) struct Player {
    pub(crate) machine: Machine,
    pub(crate) at: u64,
    pub(crate) next: usize,
}

impl Player {
    // The next step was taken.
    fn pass(&mut self, course: &Course)
        requires { self.old.at < course.now.end }
        ensures { self.new ≡ record self.old {
          at = self.old.at + 1;
          next = index_behind course.now.notes self.old.next self.old.at;
        } }
    {
        self.next = course.notes.index_behind(self.next, self.at);
        self.at += 1;
    }

    /// Takes the next step, told to nobody. It answers false where memory is refused; the machine may stand anywhere
    /// then.
    pub(crate) fn play<L: Ledger>(&mut self, course: &Course, steps: &mut Steps<L>) -> bool
        requires from { course.now.base ≤ self.old.at }
        requires below { self.old.at < course.now.end }
        ensures stands { (run : Recording) → IsRunOf run course.now self.old.machine
            → StandsIn run course.now.notes self.old
            → OnTrue result (StandsIn run course.now.notes self.new) }
        ensures at { OnTrue result (self.new.at ≡ self.old.at + 1) }
        ensures still { result ≡ false → self.new.at ≡ self.old.at }
        ensures ticks { steps.new ≤ steps.old + 1 }
        ensures same { IsSameMachine self.old.machine self.new.machine }
    {
        let handed = course.notes.due(self.next, self.at);
        if !take_untold(&mut self.machine, handed, steps) {
            return false;
        }
        self.pass(course);
        true
    }

    /// The same, told in a record.
    pub(crate) fn tell<L: Ledger>(
        &mut self,
        course: &Course,
        rec: &mut StepRec,
        steps: &mut Steps<L>,
    ) -> bool
        requires from { course.now.base ≤ self.old.at }
        requires below { self.old.at < course.now.end }
        ensures stands { (run : Recording) → IsRunOf run course.now self.old.machine
            → StandsIn run course.now.notes self.old
            → OnTrue result (StandsIn run course.now.notes self.new) }
        ensures takes { (run : Recording) → IsRunOf run course.now self.old.machine
            → StandsIn run course.now.notes self.old
            → OnTrue result (taken run self.old.at
            ≡ Some (record { machine = machine_of self.new.machine; rec = rec.new })) }
        ensures at { OnTrue result (self.new.at ≡ self.old.at + 1) }
        ensures still { result ≡ false → self.new.at ≡ self.old.at }
        ensures formed { OnTrue result (IsWellFormed rec.new) }
        ensures ticks { steps.new ≤ steps.old + 1 }
        ensures same { IsSameMachine self.old.machine self.new.machine }
    {
        let handed = course.notes.due(self.next, self.at);
        if !take_told(&mut self.machine, handed, rec, steps) {
            return false;
        }
        self.pass(course);
        true
    }

    /// Goes back to the last checkpoint at step n or below it, from wherever the machine stands. It takes no memory.
    pub(crate) fn go_back(&mut self, course: &Course, n: u64)
        requires course { IsCourse course.now self.old.machine }
        requires from { course.now.base ≤ n }
        requires to { n ≤ course.now.end }
        ensures stands { (run : Recording) → IsRunOf run course.now self.old.machine
            → StandsIn run course.now.notes self.new }
        ensures from { course.now.base ≤ self.new.at }
        ensures left { self.new.at + (n - course.now.base) % course.now.distance ≡ n }
        ensures same { IsSameMachine self.old.machine self.new.machine }
    {
        let index = (n - course.base) / course.distance;
        let checkpoint = &course.checkpoints[index as usize];
        self.machine.restore(&checkpoint.moment);
        self.next = checkpoint.next;
        self.at = course.base + index * course.distance;
    }

    // Takes the steps below n. It answers false where memory is refused; the machine may stand anywhere then.
    fn run_on<L: Ledger>(&mut self, course: &Course, n: u64, steps: &mut Steps<L>) -> bool
        requires from { course.now.base ≤ self.old.at }
        requires before { self.old.at ≤ n }
        requires to { n ≤ course.now.end }
        ensures stands { (run : Recording) → IsRunOf run course.now self.old.machine
            → StandsIn run course.now.notes self.old
            → OnTrue result (StandsIn run course.now.notes self.new) }
        ensures at { OnTrue result (self.new.at ≡ n) }
        ensures ticks { steps.new ≤ steps.old + (n - self.old.at) }
        ensures same { IsSameMachine self.old.machine self.new.machine }
    {
        while self.at < n {
            if !self.play(course, steps) {
                return false;
            }
        }
        true
    }

    /// Goes to step n. It answers false where memory is refused, and stands at the last checkpoint before n then.
    pub(crate) fn go_to<L: Ledger>(&mut self, course: &Course, n: u64, steps: &mut Steps<L>) -> bool
        requires course { IsCourse course.now self.old.machine }
        requires from { course.now.base ≤ n }
        requires to { n ≤ course.now.end }
        ensures stands { (run : Recording) → IsRunOf run course.now self.old.machine
            → StandsIn run course.now.notes self.new }
        ensures at { OnTrue result (self.new.at ≡ n) }
        ensures within { IsWithin course.now self.new }
        ensures ticks { steps.new ≤ steps.old + (n - course.now.base) % course.now.distance }
        ensures same { IsSameMachine self.old.machine self.new.machine }
    {
        self.go_back(course, n);
        if self.run_on(course, n, steps) {
            return true;
        }
        self.go_back(course, n);
        false
    }
}
