//! The lines of observations.

ghost use Rattle.std.specs.Prelude.{◌≡◌, ◌+◌, ℕ, List, [], ◌++◌, IfErr, IfOk, IsTrue, length};

use crate::observing::ObservationTeller;
use cx_codec::{Out, OutFault};
use cx_io::Sink;
use cx_observe::Obs;
use cx_print::obs_line;
use std::alloc::Global;

/// Puts a line for each observation, with its index.
#[derive(Drop)]
pub struct ObservationLines {
    count: u64,
    out: Out,
}

// One more, if 64 bits hold it. Where they don't, the output ends as want of memory does.
fn one_more(count: u64) -> Result<u64, OutFault>
    ensures next { IfOk result (λ next. next ≡ count + 1) }
    ensures fault { IfErr result (λ fault. fault ≡ OutFault.NoMemory) }
{
    match count.checked_add(1) {
        Some(next) => Ok(next),
        None => Err(OutFault::NoMemory),
    }
}

impl ObservationTeller for ObservationLines {
    ghost use Rattle.cx_commands.specs.Observed.{observation_lines};
    ghost use Rattle.cx_tellers.specs.Showing.{lines_grow, no_lines_written};

    ghost text = { observation_lines 0 };

    ghost full = { observation_lines 0 };

    ghost takes = { λ o. Unit {0} };

    ghost waiting = { λ l. l.out.bytes };

    ghost keeps = { λ l os. l.count ≡ length os };

    ghost count = { λ l. l.count };

    ghost ready = { λ l. IsTrue l.out.live };

    ghost possible = { λ o possible. tt };

    ghost grows = { lines_grow };

    ghost unwritten = { no_lines_written };

    fn start<T: Sink>(alloc: Global, _sink: &mut T) -> Result<ObservationLines, OutFault> {
        let out = Out::new(alloc)?;
        Ok(ObservationLines { count: 0, out })
    }

    fn tell<T: Sink>(&mut self, obs: &Obs, sink: &mut T) -> Result<(), OutFault> {
        let next = one_more(self.count)?;
        obs_line(&mut self.out, self.count, obs, sink)?;
        self.count = next;
        Ok(())
    }

    fn told(&self) -> u64 {
        self.count
    }

    fn finish<T: Sink>(self, sink: &mut T) -> Result<(), OutFault> {
        self.out.finish(sink)
    }
}
