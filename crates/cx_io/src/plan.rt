//! Which calls of a source or a sink in memory fail.

ghost use Rattle.std.specs.Prelude.{◌≡◌, ◌^◌, ◌<◌, ◌≤◌, IsTrue};
ghost use Rattle.cx_io.specs.Cause.{Rose};

use std::marker::Model;

/// The numbers of the calls that fail, counted from 0, with the counts of calls and of faults so far.
#[derive(Debug, Drop)]
pub struct FaultPlan {
    fails: Vec<u64>,
    calls: u64,
    faults: u64,
}

impl Model for FaultPlan {
    ghost use Rattle.std.specs.Prelude.{◌-◌, ◌^◌, ◌≤◌};
    ghost use Rattle.cx_io.specs.Plan.{Plan};

    ghost Value = { Plan };

    ghost view = { λ p. record { fails = p.fails.items; calls = p.calls; faults = p.faults } };
}

impl FaultPlan {
    ghost use Rattle.cx_io.specs.Plan.{after_call, fails_next, planned};

    /// A plan in which the calls of these numbers fail.
    pub fn new(fails: Vec<u64>) -> FaultPlan
        ensures { result ≡ planned fails.items }
    {
        FaultPlan {
            fails,
            calls: 0,
            faults: 0,
        }
    }

    /// Numbers a call, counts its fault if it has one, and tells whether it has.
    pub fn fails_now(&mut self) -> bool
        ensures answer { result ≡ fails_next self.old }
        ensures after { self.new ≡ after_call self.old }
        ensures later { self.old.faults ≤ self.new.faults }
        ensures fits { self.new.faults < 2 ^ 64 }
        ensures rose { IsTrue result → Rose self.old.faults self.new.faults }
    {
        let fails = self.fails.contains(&self.calls);
        let faults = self.faults;
        self.calls = self.calls.saturating_add(1);
        if fails {
            self.faults = faults.saturating_add(1);
        }
        fails
    }
}
