//! The replay of a call slice.

ghost use Rattle.std.specs.Prelude.{◌≡◌, ◌<◌, ◌^◌, ℕ, false, List, None, IfErr, IfOk, IsSome, IsTrue, OnOk};
ghost use Rattle.cx_alone.specs.Ahead.{EndIsLast, MayBeInput};
ghost use Rattle.cx_alone.specs.Replaying.{CountsOn};
ghost use Rattle.cx_codec.specs.Place.{end_of};
ghost use Rattle.cx_codec.specs.Reads.{over, place_in};
ghost use Rattle.cx_io.specs.Cause.{HasCause};
ghost use Rattle.cx_map.specs.Bytes.{AreBytes};
ghost use Rattle.cx_observe.specs.declared.obs.Obs.{Obs};
ghost use Rattle.cx_replay.specs.Records.{GaveMore};
ghost use Rattle.cx_slicefmt.specs.Reading.{head_at};
ghost use Rattle.cx_callfmt.specs.Rules.{calls};
ghost use Rattle.cx_callfmt.specs.Scan.{CallScan, scan_behind_head};
ghost use Rattle.cx_call_alone.specs.Replaying.{Answers, IsGoing, Opens, Stands, at_of};
ghost use Rattle.cx_call_alone.specs.Settling.{IsNotBroken};

use crate::ahead::Ahead;
use crate::called::Called;
use crate::reading::{read_head, read_record};
use crate::taking::go_by;
use cx_alone::{Stop, replay_fault};
use cx_callfmt::CallReader;
use cx_codec::Bytes;
use cx_io::Source;
use cx_observe::Obs;
use cx_replay::ReplayFault;
use std::alloc::Global;

/// The replay of a call slice alone. It stands for the observations that it gave: its words and bytes are those known
/// behind them, with what the last call was handed. After a refusal it has ended.
#[derive(Drop)]
pub struct CallAlone {
    called: Called,
    at: u64,
    ahead: Ahead,
}

impl CallAlone {
    /// Opens a call slice, behind its magic: reads the start's head and the first record. `Format` comes exactly where
    /// one of them is bad: at its first bad field. `ReadFault` comes only where the source's count of faults rose.
    /// `NoMemory` is free.
    pub fn open_calls<S: Source>(
        alloc: Global,
        bytes: Bytes,
        source: &mut S,
    ) -> Result<CallAlone, ReplayFault>
        requires { IsTrue bytes.live }
        ensures follows { IsSome (S.left source.old)
            → GaveMore (S.left source.old) (S.given source.old) (S.left source.new) (S.given source.new) }
        ensures opens { IsSome (S.left source.old) → (input : List ℕ)
            → MayBeInput (S.left source.new) (S.given source.new) input
            → AreBytes (place_in (over bytes None (S.given source.old)) input).ahead
            → Opens (scan_behind_head (head_at calls false (place_in (over bytes None (S.given source.old)) input)))
            (end_of (place_in (over bytes None (S.given source.old)) input)) (S.left source.new) (S.given source.new)
            input result }
        ensures last { IsSome (S.left source.old) → IfOk result (λ a. EndIsLast a.ahead.waiting (S.left source.new)) }
        ensures going { IfOk result IsGoing }
        ensures count { IfOk result (λ a. at_of a ≡ 0) }
        ensures kind { IfErr result IsNotBroken }
        ensures cause { HasCause ReplayFault.ReadFault (S.faults source.old) (S.faults source.new) result }
    {
        let mut reader = CallReader::open(bytes);
        let found = match reader.head(source) {
            Ok(found) => found,
            Err(fault) => return Err(replay_fault(fault)),
        };
        let head = read_head(alloc, &mut reader, found, source)?;
        let mut called = Called::new(alloc);
        called.hand(&head)?;
        let (upto, waiting) = read_record(alloc, &mut reader, source)?;
        Ok(CallAlone {
            called,
            at: 0,
            ahead: Ahead {
                alloc,
                reader,
                upto,
                waiting,
            },
        })
    }

    /// How many observations it gave: at most 2^48.
    pub fn count(&self) -> u64
        ensures { result ≡ at_of self.now }
    {
        self.at
    }

    /// Gives the observation of the next step; None exactly where the input is a call slice that was gone through to
    /// its end, with nothing owed. A step is given once the first record of a later one, or the end with nothing behind
    /// it, was read whole.
    ///
    /// `Format` and `Broken` come exactly by the first bad place of the input, once all steps were given that are
    /// settled before it: `Format` where a field is bad, and `Broken` where the step or what is placed there breaks a
    /// rule, or where something is owed at the end. `ReadFault` comes only where the source's count of faults rose,
    /// once all steps were given that the records which came settle. `NoMemory` is free.
    pub fn next<S: Source>(&mut self, source: &mut S) -> Result<Option<Obs>, ReplayFault>
        requires going { IsGoing self.old }
        requires most { at_of self.old < 2 ^ 63 }
        ensures follows { IsSome (S.left source.old)
            → GaveMore (S.left source.old) (S.given source.old) (S.left source.new) (S.given source.new) }
        ensures answers { IsSome (S.left source.old) → (input : List ℕ)
            → MayBeInput (S.left source.new) (S.given source.new) input
            → (whole : CallScan) (end : ℕ) (os : List Obs)
            → Stands whole end os self.old (S.left source.old) (S.given source.old) input
            → Answers whole end os self.new (S.left source.new) (S.given source.new) input result }
        ensures last { IsSome (S.left source.old) → EndIsLast self.old.ahead.waiting (S.left source.old)
            → OnOk result (EndIsLast self.new.ahead.waiting (S.left source.new)) }
        ensures ended { IfOk result (λ found. found ≡ None → self.new.ahead.waiting ≡ None) }
        ensures going { IfOk result (λ found. IsGoing self.new) }
        ensures count { CountsOn (at_of self.old) (at_of self.new) result }
        ensures cause { HasCause ReplayFault.ReadFault (S.faults source.old) (S.faults source.new) result }
    {
        let due = self.ahead.settle(self.at, source)?;
        match go_by(&mut self.called, due) {
            Ok(None) => Ok(None),
            Ok(Some(obs)) => {
                self.at += 1;
                Ok(Some(obs))
            }
            Err(Stop::Broken) => Err(ReplayFault::Broken(self.at)),
            Err(Stop::NoMemory) => Err(ReplayFault::NoMemory),
        }
    }
}
