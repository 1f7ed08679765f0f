//! A world whose answers follow from one number.

ghost use Rattle.std.specs.Prelude.{◌≡◌, ◌==◌, ◌+◌, ◌%◌, ◌^◌, ◌<◌, ℕ, List, Option};
ghost use Rattle.cx_io.specs.Cause.{HasCause};

use crate::{Failed, Outside, World};
use std::marker::Model;

/// A world that a seed determines. It never fails, and it tells its answers while their count is below 2^64 - 1.
#[derive(Debug, Drop)]
pub struct SeedWorld {
    seed: u64,
    calls: u64,
}

impl Model for SeedWorld {
    ghost use Rattle.cx_io.specs.SeedWorld.{Seeded};

    ghost Value = { Seeded };

    ghost view = { λ w. record { seed = w.seed; calls = w.calls } };
}

impl SeedWorld {
    /// The world of the seed `s`, before its first answer.
    pub fn new(s: u64) -> SeedWorld
        ensures { result ≡ record { seed = s; calls = 0 } }
    {
        SeedWorld { seed: s, calls: 0 }
    }
}

/// Whether `period` divides the sum of `a` and `b`, which may pass 64 bits.
fn divides_sum(a: u64, b: u64, period: u64) -> bool
    requires { (0 < period) × (period < 2 ^ 32) }
    ensures { result ≡ ((a + b) % period == 0) }
{
    (a % period + b % period) % period == 0
}

impl World for SeedWorld {
    ghost use Rattle.std.specs.Prelude.{◌≡◌, ℕ, List, Option};
    ghost use Rattle.cx_io.specs.declared.outside.Outside.{Outside};
    ghost use Rattle.cx_io.specs.Cause.{HasCause};
    ghost use Rattle.cx_io.specs.Turns.{AddsAnswer};
    ghost use Rattle.cx_io.specs.Plan.{one_more};
    ghost use Rattle.cx_io.specs.SeedWorld.{seeded_answer, told_answers};

    ghost answers = { told_answers };

    ghost faults = { λ w. 0 };

    /// Gives the next answer of the seed. Its number stays at 2^64 - 1 once it is there.
    fn turn(&mut self) -> Result<Outside, Failed>
        ensures answer { AddsAnswer (told_answers self.old) (told_answers self.new) result }
        ensures cause { HasCause (record {}) 0 0 result }
        ensures seeded { result ≡ Ok (seeded_answer self.old.seed self.old.calls) }
        ensures next { self.new ≡ record self.old { calls = one_more self.old.calls } }
    {
        let answer = Outside {
            ticks: 1 + (self.seed % 3) as u32,
            console: divides_sum(self.calls, self.seed, 61),
            block: divides_sum(self.calls, self.seed, 37),
        };
        self.calls = self.calls.saturating_add(1);
        Ok(answer)
    }
}
