//! A world whose answers stand in a list.

ghost use Rattle.std.specs.Prelude.{◌≡◌, ◌^◌, ◌<◌, ℕ, List, Option, Ok, Err, if◌then◌else◌, get_or, slice_get, unwrap_or};
ghost use Rattle.cx_io.specs.Cause.{HasCause};
ghost use Rattle.cx_io.specs.ScriptWorld.{scripted_answer};

use crate::plan::FaultPlan;
use crate::{Failed, Outside, World};
use std::marker::Model;

/// A world that gives the answers of a list in order, and behind the last one that nothing happens. Those of its calls
/// fail whose numbers, counted from 0, its maker listed; a failed call takes no answer. It tells its answers while
/// their count is below 2^64 - 1.
#[derive(Debug, Drop)]
pub struct ScriptWorld {
    script: Vec<Outside>,
    given: u64,
    plan: FaultPlan,
}

impl Model for ScriptWorld {
    ghost use Rattle.cx_io.specs.ScriptWorld.{Scripted};

    ghost Value = { Scripted };

    ghost view = { λ w. record { script = w.script.items; given = w.given; plan = w.plan } };
}

impl ScriptWorld {
    ghost use Rattle.cx_io.specs.Plan.{planned};

    /// A world of these answers, before the first, whose calls fail that `fails` lists.
    pub fn new(answers: Vec<Outside>, fails: Vec<u64>) -> ScriptWorld
        ensures { result ≡ record { script = answers.items; given = 0; plan = planned fails.items } }
    {
        ScriptWorld {
            script: answers,
            given: 0,
            plan: FaultPlan::new(fails),
        }
    }

    // The answer that comes next.
    fn next_answer(&self) -> Outside
        ensures { result ≡ scripted_answer self.now.script self.now.given }
    {
        match self.script.get(self.given as usize) {
            Some(answer) => *answer,
            None => Outside {
                ticks: 0,
                console: false,
                block: false,
            },
        }
    }
}

impl World for ScriptWorld {
    ghost use Rattle.std.specs.Prelude.{◌≡◌, ℕ, List, Option, Ok, Err, if◌then◌else◌};
    ghost use Rattle.cx_io.specs.declared.outside.Outside.{Outside};
    ghost use Rattle.cx_io.specs.Cause.{HasCause};
    ghost use Rattle.cx_io.specs.Turns.{AddsAnswer};
    ghost use Rattle.cx_io.specs.Plan.{fails_next};
    ghost use Rattle.cx_io.specs.ScriptWorld.{after_turn, scripted_answer, told_script};

    ghost answers = { told_script };

    ghost faults = { λ w. w.plan.faults };

    /// Gives the next answer of the list. It fails exactly where the number of the call is listed.
    fn turn(&mut self) -> Result<Outside, Failed>
        ensures answer { AddsAnswer (told_script self.old) (told_script self.new) result }
        ensures cause { HasCause (record {}) self.old.plan.faults self.new.plan.faults result }
        ensures scripted { result ≡ (if fails_next self.old.plan then Err (record {})
            else Ok (scripted_answer self.old.script self.old.given)) }
        ensures next { self.new ≡ after_turn self.old }
    {
        if self.plan.fails_now() {
            return Err(Failed);
        }
        let answer = self.next_answer();
        self.given = self.given.saturating_add(1);
        Ok(answer)
    }
}
