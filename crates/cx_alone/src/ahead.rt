//! Reading a slice one entry ahead of its steps.

ghost use Rattle.std.specs.Prelude.{◌≡◌, ◌+◌, ◌<◌, ℕ, List, None, IfErr, IfOk, IsSome, IsTrue, OnOk};
ghost use Rattle.cx_codec.specs.Place.{end_of};
ghost use Rattle.cx_codec.specs.Reads.{over, place_in};
ghost use Rattle.cx_io.specs.Cause.{HasCause};
ghost use Rattle.cx_map.specs.Bytes.{AreBytes};
ghost use Rattle.cx_replay.specs.Records.{GaveMore};
ghost use Rattle.cx_slicefmt.specs.Rules.{process};
ghost use Rattle.cx_slicefmt.specs.Scan.{scan_groups};
ghost use Rattle.cx_slices.specs.Settled.{SliceScan};
ghost use Rattle.cx_alone.specs.Ahead.{EndIsLast, GoesOn, IsAhead, MayBeInput, place_of};
ghost use Rattle.cx_alone.specs.Faults.{IsReading};
ghost use Rattle.cx_alone.specs.Settling.{OpensOn, ReadsOn, SettlesOn};
ghost use Rattle.cx_alone.specs.Steps.{handed};

use crate::fault::replay_fault;
use cx_codec::Bytes;
use cx_io::Source;
use cx_replay::ReplayFault;
use cx_slicefmt::{Either, GroupItems, GroupReader};

/// What is due to the next step.
#[derive(Drop)]
pub(crate) enum Due {
    /// These items.
    Items(GroupItems),
    /// No items.
    Nothing,
    /// There is no next step.
    End,
}

/// A reader of a slice that is one entry ahead. The steps below `upto` are settled. Where a group waits, it is that of
/// step `upto`, and what follows it settles that step; where none waits, the end was read.
#[derive(Drop)]
pub(crate) struct Ahead {
    reader: GroupReader,
    upto: u64,
    waiting: Option<GroupItems>,
}

// Reads an entry: the step of a group, with its items, or the number of steps, where it is the end.
fn read_entry<S: Source>(
    reader: &mut GroupReader,
    source: &mut S,
) -> Result<(u64, Option<GroupItems>), ReplayFault>
    requires live { IsTrue reader.old.input.live }
    requires open { reader.old.ended ≡ None }
    ensures follows { IsSome (S.left source.old)
        → GaveMore (S.left source.old) (S.given source.old) (S.left source.new) (S.given source.new) }
    ensures reads { IsSome (S.left source.old) → (input : List ℕ)
        → MayBeInput (S.left source.new) (S.given source.new) input
        → AreBytes (place_of reader.old (S.given source.old) input).ahead
        → ReadsOn (scan_groups process reader.old.least (place_of reader.old (S.given source.old) input))
        reader.old.least (end_of (place_of reader.old (S.given source.old) input))
        (place_of reader.new (S.given source.new) input) (S.left source.new) (input ≡ S.given source.new) result }
    ensures stays { IsSome (S.left source.old) → (input : List ℕ)
        → MayBeInput (S.left source.new) (S.given source.new) input
        → end_of (place_of reader.old (S.given source.old) input)
        ≡ end_of (place_of reader.new (S.given source.new) input) }
    ensures last { IsSome (S.left source.old) → IfOk result (λ read. EndIsLast read.1 (S.left source.new)) }
    ensures going { IfOk result (λ read. GoesOn read.0 read.1 reader.new) }
    ensures kind { IfErr result IsReading }
    ensures cause { HasCause ReplayFault.ReadFault (S.faults source.old) (S.faults source.new) result }
{
    match reader.next(source) {
        Ok(Either::Group(index, items)) => Ok((index, Some(items))),
        Ok(Either::End(count)) => Ok((count, None)),
        Err(fault) => Err(replay_fault(fault)),
    }
}

impl Ahead {
    /// Opens a slice behind its magic, and reads its first entry.
    pub(crate) fn open<S: Source>(bytes: Bytes, source: &mut S) -> Result<Ahead, ReplayFault>
        requires { IsTrue bytes.live }
        ensures follows { IsSome (S.left source.old)
            → GaveMore (S.left source.old) (S.given source.old) (S.left source.new) (S.given source.new) }
        ensures opens { IsSome (S.left source.old) → (input : List ℕ)
            → MayBeInput (S.left source.new) (S.given source.new) input
            → AreBytes (place_in (over bytes None (S.given source.old)) input).ahead
            → OpensOn (scan_groups process 0 (place_in (over bytes None (S.given source.old)) input))
            (end_of (place_in (over bytes None (S.given source.old)) input)) (S.left source.new) (S.given source.new)
            input result }
        ensures last { IsSome (S.left source.old) → IfOk result (λ a. EndIsLast a.waiting (S.left source.new)) }
        ensures going { IfOk result (λ a. GoesOn a.upto a.waiting a.reader) }
        ensures kind { IfErr result IsReading }
        ensures cause { HasCause ReplayFault.ReadFault (S.faults source.old) (S.faults source.new) result }
    {
        let mut reader = GroupReader::open(bytes);
        let (upto, waiting) = read_entry(&mut reader, source)?;
        Ok(Ahead {
            reader,
            upto,
            waiting,
        })
    }

    /// What is due to step `at`, before which all were taken, once that step is settled: the entry behind its group is
    /// read first.
    pub(crate) fn settle<S: Source>(&mut self, at: u64, source: &mut S) -> Result<Due, ReplayFault>
        requires { GoesOn self.old.upto self.old.waiting self.old.reader }
        ensures follows { IsSome (S.left source.old)
            → GaveMore (S.left source.old) (S.given source.old) (S.left source.new) (S.given source.new) }
        ensures settles { IsSome (S.left source.old) → (input : List ℕ)
            → MayBeInput (S.left source.new) (S.given source.new) input → (whole : SliceScan ℕ) (end : ℕ)
            → IsAhead whole end at self.old.upto self.old.waiting
            (place_of self.old.reader (S.given source.old) input) (S.left source.old)
            → SettlesOn whole end at self.new (S.left source.new) (S.given source.new) input result }
        ensures last { IsSome (S.left source.old) → EndIsLast self.old.waiting (S.left source.old)
            → OnOk result (EndIsLast self.new.waiting (S.left source.new)) }
        ensures ended { IfOk result (λ due. handed due ≡ None → self.new.waiting ≡ None) }
        ensures going { IfOk result (λ due. GoesOn self.new.upto self.new.waiting self.new.reader) }
        ensures kind { IfErr result IsReading }
        ensures cause { HasCause ReplayFault.ReadFault (S.faults source.old) (S.faults source.new) result }
    {
        if at < self.upto {
            return Ok(Due::Nothing);
        }
        let Some(items) = self.waiting.take() else {
            return Ok(Due::End);
        };
        let (upto, waiting) = read_entry(&mut self.reader, source)?;
        self.upto = upto;
        self.waiting = waiting;
        Ok(Due::Items(items))
    }
}
