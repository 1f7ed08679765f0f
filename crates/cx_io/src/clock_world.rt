//! A world over the clock of the process. It tells nothing of its answers: what the clock shows, no clause can know.

ghost use Rattle.std.specs.Prelude.{◌≡◌, ℕ, ◌<◌, ◌≤◌, if◌then◌else◌, List, Option, is_err, IfOk, true};
ghost use Rattle.cx_io.specs.Cause.{HasCause};
ghost use Rattle.cx_io.specs.Plan.{one_more};

use crate::{Failed, Outside, World};
use std::marker::Model;
use std::time::{Clock, Duration, Instant};

/// A world over a clock of the process. At each turn the machine's clock goes on by the microseconds since the last one;
/// what is left of one counts at a later turn. Bytes of the console and the completion of a command may come at any
/// turn. A clock that can't be read is a fault.
#[derive(Drop)]
pub struct ClockWorld<C> {
    clock: C,
    counted: Option<Instant>,
    faults: u64,
}

/// Contracts see how often it has failed.
impl<C> Model for ClockWorld<C> {
    ghost Value = { ℕ };

    ghost view = { λ w. w.faults };
}

impl<C: Clock> ClockWorld<C> {
    /// A world over `clock`, which has not failed yet.
    pub fn new(clock: C) -> ClockWorld<C>
        ensures { result ≡ 0 }
    {
        ClockWorld {
            clock,
            counted: None,
            faults: 0,
        }
    }

    // The microseconds up to now that weren't counted yet, at most 2^32 - 1; none at the first turn.
    fn count_to(&mut self, now: Instant) -> u32
        ensures { self.new ≡ self.old }
    {
        let Some(counted) = self.counted else {
            self.counted = Some(now);
            return 0;
        };
        let passed = now.duration_since(counted).as_micros();
        let ticks = u32::try_from(passed).unwrap_or(u32::MAX);
        let next = counted.checked_add(Duration::from_micros(u64::from(ticks)));
        self.counted = Some(next.unwrap_or(now));
        ticks
    }
}

impl<C: Clock> World for ClockWorld<C> {
    ghost use Rattle.std.specs.Prelude.{◌≡◌, ℕ, List, Option, None, true, is_err, IfOk, if◌then◌else◌};
    ghost use Rattle.cx_io.specs.declared.outside.Outside.{Outside};
    ghost use Rattle.cx_io.specs.Cause.{HasCause};
    ghost use Rattle.cx_io.specs.Turns.{AddsAnswer};
    ghost use Rattle.cx_io.specs.Plan.{one_more};

    ghost answers = { λ w. None };

    ghost faults = { λ w. w };

    /// One look at the clock. Its count of faults rises exactly where the answer is `Failed`.
    fn turn(&mut self) -> Result<Outside, Failed>
        ensures answer { AddsAnswer None None result }
        ensures cause { HasCause (record {}) self.old self.new result }
        ensures always { IfOk result (λ o. (o.console ≡ true) × (o.block ≡ true)) }
        ensures count { self.new ≡ (if is_err result then one_more self.old else self.old) }
    {
        match Instant::now(&self.clock) {
            Ok(now) => Ok(Outside {
                ticks: self.count_to(now),
                console: true,
                block: true,
            }),
            Err(_) => {
                self.faults = self.faults.saturating_add(1);
                Err(Failed)
            }
        }
    }
}
