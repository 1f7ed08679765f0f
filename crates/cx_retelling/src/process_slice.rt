//! The replay of a process slice.

use crate::slice_replay::SliceReplay;
use cx_alone::Alone;
use cx_codec::Bytes;
use cx_io::Source;
use cx_observe::Obs;
use cx_replay::ReplayFault;
use std::alloc::Global;

impl SliceReplay for Alone {
    ghost use Rattle.cx_alone.specs.Ahead.{EndIsLast};
    ghost use Rattle.cx_alone.specs.Replaying.{IsGoing, Stands};
    ghost use Rattle.cx_codec.specs.Place.{end_of};
    ghost use Rattle.cx_observe.specs.Possible.{Possible};
    ghost use Rattle.cx_slicefmt.specs.Rules.{process};
    ghost use Rattle.cx_slicefmt.specs.Scan.{scan_groups};
    ghost use Rattle.cx_retelling.specs.ProcessBegun.{process_begins};
    ghost use Rattle.cx_retelling.specs.Through.{process_at};

    ghost through = { process_at };

    ghost stands = { λ p os a left given input. Stands (scan_groups process 0 p) (end_of p) os a left given input };

    ghost gives = { Possible };

    ghost count = { λ a. a.at };

    ghost going = { IsGoing };

    ghost last = { λ a left. EndIsLast a.ahead.waiting left };

    ghost begins = { process_begins };

    fn open<S: Source>(alloc: Global, bytes: Bytes, source: &mut S) -> Result<Alone, ReplayFault> {
        Alone::open_process(alloc, bytes, source)
    }

    fn steps(&self) -> u64 {
        self.count()
    }

    fn give<S: Source>(&mut self, source: &mut S) -> Result<Option<Obs>, ReplayFault> {
        self.next(source)
    }
}
