//! The slice of a program by its calls, as what is told of its observations.

ghost use Rattle.std.specs.Prelude.{◌≡◌, List, ℕ, [], ◌++◌, IsTrue};

use crate::observing::ObservationTeller;
use crate::slicing::{may_end, may_have_more};
use cx_calls::Caller;
use cx_codec::OutFault;
use cx_io::Sink;
use cx_observe::Obs;
use std::alloc::Global;

impl ObservationTeller for Caller {
    ghost use Rattle.cx_calls.specs.Begun.{calls_begun, calls_text};
    ghost use Rattle.cx_calls.specs.Stands.{HasTaken, count_of, output_of};
    ghost use Rattle.cx_observe.specs.Possible.{Possible};
    ghost use Rattle.cx_commands.specs.Growing.{call_slice_grows, call_slice_unwritten};

    ghost text = { calls_begun };

    ghost full = { calls_text };

    ghost takes = { Possible };

    ghost waiting = { λ c. (output_of c).bytes };

    ghost keeps = { λ c os. HasTaken os c };

    ghost count = { count_of };

    ghost ready = { λ c. IsTrue (output_of c).live };

    ghost possible = { λ o possible. possible };

    ghost grows = { call_slice_grows };

    ghost unwritten = { call_slice_unwritten };

    fn start<T: Sink>(alloc: Global, sink: &mut T) -> Result<Caller, OutFault> {
        Caller::new(alloc, sink)
    }

    fn tell<T: Sink>(&mut self, obs: &Obs, sink: &mut T) -> Result<(), OutFault> {
        may_have_more(self.count())?;
        self.feed(obs, sink)
    }

    fn told(&self) -> u64 {
        self.count()
    }

    fn finish<T: Sink>(self, sink: &mut T) -> Result<(), OutFault> {
        may_end(self.count())?;
        self.end(sink)
    }
}
