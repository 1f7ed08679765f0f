//! A world of a seed that tells its seed too.

ghost use Rattle.std.specs.Prelude.{◌≡◌, ◌+◌, ◌%◌, ◌<◌};
ghost use Rattle.cx_io.specs.Plan.{one_more};

use cx_io::{Failed, Outside, World};
use std::marker::Model;

/// A seeded world whose seed stands in front of the answers that it tells. A contract over every world knows of it no
/// more than these: so it knows that the seed stays. It gives the answers of `cx_io::SeedWorld`, and keeps from turn to
/// turn what that divides for at each.
#[derive(Drop)]
pub(crate) struct SeedTold {
    seed: u64,
    calls: u64,
    ticks: u32,
    console: u32,
    block: u32,
}

impl Model for SeedTold {
    ghost use Rattle.std.specs.Prelude.{◌≡◌, ◌+◌, ◌%◌};
    ghost use Rattle.cx_io.specs.SeedWorld.{Seeded};
    ghost use Rattle.cx_top.specs.SeedTold.{KeepsRemainders};

    ghost Value = { Seeded };

    ghost view = { λ w. record { seed = w.seed; calls = w.calls } };

    ghost invariant = { λ w. KeepsRemainders w.seed w.calls w.ticks w.console w.block };
}

impl SeedTold {
    /// The world of this seed, before its first answer.
    pub(crate) fn new(seed: u64) -> SeedTold
        ensures { result ≡ record { seed = seed; calls = 0 } }
    {
        SeedTold {
            seed,
            calls: 0,
            ticks: 1 + (seed % 3) as u32,
            console: (seed % 61) as u32,
            block: (seed % 37) as u32,
        }
    }

    // The next answer is one further on. Its number stays at 2^64 - 1 once it is there.
    #[inline(always)]
    fn advance(&mut self)
        ensures { self.new ≡ record self.old { calls = one_more self.old.calls } }
    {
        if let Some(calls) = self.calls.checked_add(1) {
            self.calls = calls;
            self.console = next_remainder(self.console, 61);
            self.block = next_remainder(self.block, 37);
        }
    }
}

// The remainder by this period of the number behind one with this remainder.
#[inline(always)]
fn next_remainder(remainder: u32, period: u32) -> u32
    requires { remainder < period }
    ensures { result ≡ (remainder + 1) % period }
{
    let next = remainder + 1;
    if next == period { 0 } else { next }
}

impl World for SeedTold {
    ghost use Rattle.std.specs.Prelude.{◌≡◌, ℕ, List, Option};
    ghost use Rattle.cx_io.specs.declared.outside.Outside.{Outside};
    ghost use Rattle.cx_io.specs.Cause.{HasCause};
    ghost use Rattle.cx_io.specs.Plan.{one_more};
    ghost use Rattle.cx_io.specs.SeedWorld.{seeded_answer};
    ghost use Rattle.cx_io.specs.Turns.{AddsAnswer};
    ghost use Rattle.cx_commands.specs.Record.{told_behind_seed};

    ghost answers = { told_behind_seed };

    ghost faults = { λ w. 0 };

    #[inline(always)]
    fn turn(&mut self) -> Result<Outside, Failed>
        ensures answer { AddsAnswer (told_behind_seed self.old) (told_behind_seed self.new) result }
        ensures cause { HasCause (record {}) 0 0 result }
        ensures seeded { result ≡ Ok (seeded_answer self.old.seed self.old.calls) }
        ensures next { self.new ≡ record self.old { calls = one_more self.old.calls } }
    {
        let answer = Outside {
            ticks: self.ticks,
            console: self.console == 0,
            block: self.block == 0,
        };
        self.advance();
        Ok(answer)
    }
}
