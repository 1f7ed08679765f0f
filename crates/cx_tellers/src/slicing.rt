//! The slice of a process, as what is told of its observations.

ghost use Rattle.std.specs.Prelude.{◌≡◌, ◌<◌, ◌≤◌, ◌^◌, List, ℕ, [], ◌++◌, IfErr, IsTrue, OnOk};

use crate::observing::ObservationTeller;
use cx_codec::OutFault;
use cx_io::Sink;
use cx_observe::Obs;
use cx_process::Slicer;
use std::alloc::Global;

/// How many observations a slice may have.
const MOST_OBSERVATIONS: u64 = 1 << 48;

/// Whether a slice of so many observations may have one more. A recording has no more steps than a slice may have
/// observations, nor has another slice; one that had would end the output as want of memory does.
pub(crate) fn may_have_more(count: u64) -> Result<(), OutFault>
    ensures few { OnOk result (count < 2 ^ 48) }
    ensures fault { IfErr result (λ fault. fault ≡ OutFault.NoMemory) }
{
    if count >= MOST_OBSERVATIONS {
        return Err(OutFault::NoMemory);
    }
    Ok(())
}

/// Whether a slice of so many observations may end: it has one at least. One that had none would end the output as want
/// of memory does.
pub(crate) fn may_end(count: u64) -> Result<(), OutFault>
    ensures some { OnOk result (1 ≤ count) }
    ensures fault { IfErr result (λ fault. fault ≡ OutFault.NoMemory) }
{
    if count == 0 {
        return Err(OutFault::NoMemory);
    }
    Ok(())
}

impl ObservationTeller for Slicer {
    ghost use Rattle.cx_process.specs.Stands.{HasTaken, output_of};
    ghost use Rattle.cx_observe.specs.Possible.{Possible};
    ghost use Rattle.cx_commands.specs.Growing.{slice_grows, slice_unwritten};
    ghost use Rattle.cx_commands.specs.Process.{slice_begun, slice_of};

    ghost text = { slice_begun };

    ghost full = { slice_of };

    ghost takes = { Possible };

    ghost waiting = { λ s. (output_of s).bytes };

    ghost keeps = { λ s os. HasTaken os s };

    ghost count = { λ s. s.count };

    ghost ready = { λ s. IsTrue (output_of s).live };

    ghost possible = { λ o possible. possible };

    ghost grows = { slice_grows };

    ghost unwritten = { slice_unwritten };

    fn start<T: Sink>(alloc: Global, sink: &mut T) -> Result<Slicer, OutFault> {
        Slicer::new(alloc, sink)
    }

    fn tell<T: Sink>(&mut self, obs: &Obs, sink: &mut T) -> Result<(), OutFault> {
        may_have_more(self.count())?;
        self.feed(obs, sink)
    }

    fn told(&self) -> u64 {
        self.count()
    }

    fn finish<T: Sink>(self, sink: &mut T) -> Result<(), OutFault> {
        may_end(self.count())?;
        self.end(sink)
    }
}
