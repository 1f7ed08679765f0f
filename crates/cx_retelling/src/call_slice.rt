//! The replay of a call slice.

use crate::slice_replay::SliceReplay;
use cx_call_alone::CallAlone;
use cx_codec::Bytes;
use cx_io::Source;
use cx_observe::Obs;
use cx_replay::ReplayFault;
use std::alloc::Global;

impl SliceReplay for CallAlone {
    ghost use Rattle.std.specs.Prelude.{false};
    ghost use Rattle.cx_alone.specs.Ahead.{EndIsLast};
    ghost use Rattle.cx_call_alone.specs.Replaying.{IsGoing, Stands, at_of};
    ghost use Rattle.cx_callfmt.specs.Rules.{calls};
    ghost use Rattle.cx_callfmt.specs.Scan.{scan_behind_head};
    ghost use Rattle.cx_codec.specs.Place.{end_of};
    ghost use Rattle.cx_slicefmt.specs.Reading.{head_at};
    ghost use Rattle.cx_retelling.specs.CallsBegun.{calls_begin};
    ghost use Rattle.cx_retelling.specs.Through.{calls_at};

    ghost through = { calls_at };

    ghost stands = { λ p os a left given input. Stands (scan_behind_head (head_at calls false p)) (end_of p) os a left
        given input };

    ghost gives = { λ o. Unit {0} };

    ghost count = { at_of };

    ghost going = { IsGoing };

    ghost last = { λ a left. EndIsLast a.ahead.waiting left };

    ghost begins = { calls_begin };

    fn open<S: Source>(
        alloc: Global,
        bytes: Bytes,
        source: &mut S,
    ) -> Result<CallAlone, ReplayFault> {
        CallAlone::open_calls(alloc, bytes, source)
    }

    fn steps(&self) -> u64 {
        self.count()
    }

    fn give<S: Source>(&mut self, source: &mut S) -> Result<Option<Obs>, ReplayFault> {
        self.next(source)
    }
}
