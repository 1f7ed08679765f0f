//! The replay of a slice.

ghost use Rattle.std.specs.Prelude.{◌≡◌, ◌<◌, ◌^◌, ℕ, List, None, IfErr, IfOk, IfSome, IsSome, IsTrue};
ghost use Rattle.std.specs.Prelude.{OnOk};
ghost use Rattle.cx_codec.specs.Place.{end_of};
ghost use Rattle.cx_codec.specs.Reads.{over, place_in};
ghost use Rattle.cx_io.specs.Cause.{HasCause};
ghost use Rattle.cx_map.specs.Bytes.{AreBytes};
ghost use Rattle.cx_observe.specs.Possible.{Possible};
ghost use Rattle.cx_observe.specs.declared.obs.Obs.{Obs};
ghost use Rattle.cx_replay.specs.Records.{GaveMore};
ghost use Rattle.cx_slicefmt.specs.Rules.{process};
ghost use Rattle.cx_slicefmt.specs.Scan.{scan_groups};
ghost use Rattle.cx_slices.specs.Settled.{SliceScan};
ghost use Rattle.cx_alone.specs.Ahead.{EndIsLast, MayBeInput};
ghost use Rattle.cx_alone.specs.Faults.{IsReading};
ghost use Rattle.cx_alone.specs.Replaying.{Answers, CountsOn, IsGoing, Opens, Stands};

use crate::ahead::Ahead;
use crate::fault::Stop;
use crate::step::go_by;
use cx_codec::Bytes;
use cx_io::Source;
use cx_observe::Obs;
use cx_program::Standing;
use cx_replay::ReplayFault;
use std::alloc::Global;

/// The replay of a process slice alone. It stands for the observations that it gave: its words and bytes are those
/// known behind them. After a refusal it has ended.
#[derive(Drop)]
pub struct Alone {
    standing: Standing,
    at: u64,
    ahead: Ahead,
}

impl Alone {
    /// Opens a slice, behind its magic, and reads its first group. `Format` comes exactly where that group is bad: at
    /// its first bad field. `ReadFault` comes only where the source's count of faults rose.
    pub fn open_process<S: Source>(
        alloc: Global,
        bytes: Bytes,
        source: &mut S,
    ) -> Result<Alone, ReplayFault>
        requires { IsTrue bytes.live }
        ensures follows { IsSome (S.left source.old)
            → GaveMore (S.left source.old) (S.given source.old) (S.left source.new) (S.given source.new) }
        ensures opens { IsSome (S.left source.old) → (input : List ℕ)
            → MayBeInput (S.left source.new) (S.given source.new) input
            → AreBytes (place_in (over bytes None (S.given source.old)) input).ahead
            → Opens (scan_groups process 0 (place_in (over bytes None (S.given source.old)) input))
            (end_of (place_in (over bytes None (S.given source.old)) input)) (S.left source.new) (S.given source.new)
            input result }
        ensures last { IsSome (S.left source.old) → IfOk result (λ a. EndIsLast a.ahead.waiting (S.left source.new)) }
        ensures going { IfOk result IsGoing }
        ensures count { IfOk result (λ a. a.at ≡ 0) }
        ensures kind { IfErr result IsReading }
        ensures cause { HasCause ReplayFault.ReadFault (S.faults source.old) (S.faults source.new) result }
    {
        let ahead = Ahead::open(bytes, source)?;
        Ok(Alone {
            standing: Standing::new(alloc),
            at: 0,
            ahead,
        })
    }

    /// How many observations it gave: at most 2^48.
    pub fn count(&self) -> u64
        ensures { result ≡ self.now.at }
    {
        self.at
    }

    /// Gives the observation of the next step; None exactly where the input is a slice that was gone through to its
    /// end. A step is given once the group behind it, or the end with nothing behind it, was read whole.
    ///
    /// `Format` and `Broken` come exactly by the first bad place of the input, once all steps were given that are
    /// settled before it: `Format` where a field is bad, and `Broken` where an item of the step stands already or isn't
    /// seen, or the program can't take the step with what is known. `ReadFault` comes only where the source's count of
    /// faults rose, once all steps were given that the groups which came settle. `NoMemory` is free.
    pub fn next<S: Source>(&mut self, source: &mut S) -> Result<Option<Obs>, ReplayFault>
        requires going { IsGoing self.old }
        requires most { self.old.at < 2 ^ 63 }
        ensures follows { IsSome (S.left source.old)
            → GaveMore (S.left source.old) (S.given source.old) (S.left source.new) (S.given source.new) }
        ensures answers { IsSome (S.left source.old) → (input : List ℕ)
            → MayBeInput (S.left source.new) (S.given source.new) input
            → (whole : SliceScan ℕ) (end : ℕ) (os : List Obs)
            → Stands whole end os self.old (S.left source.old) (S.given source.old) input
            → Answers whole end os self.new (S.left source.new) (S.given source.new) input result }
        ensures last { IsSome (S.left source.old) → EndIsLast self.old.ahead.waiting (S.left source.old)
            → OnOk result (EndIsLast self.new.ahead.waiting (S.left source.new)) }
        ensures ended { IfOk result (λ found. found ≡ None → self.new.ahead.waiting ≡ None) }
        ensures going { IfOk result (λ found. IsGoing self.new) }
        ensures count { CountsOn self.old.at self.new.at result }
        ensures possible { IfOk result (λ found. IfSome found Possible) }
        ensures cause { HasCause ReplayFault.ReadFault (S.faults source.old) (S.faults source.new) result }
    {
        let due = self.ahead.settle(self.at, source)?;
        match go_by(&mut self.standing, due) {
            Ok(None) => Ok(None),
            Ok(Some(obs)) => {
                self.at += 1;
                Ok(Some(obs))
            }
            Err(Stop::Broken) => Err(ReplayFault::Broken(self.at)),
            Err(Stop::NoMemory) => Err(ReplayFault::NoMemory),
        }
    }
}
