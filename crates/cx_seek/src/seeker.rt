//! Reaching any step of a recording.

ghost use Rattle.std.specs.Bool.{OnFalse, OnTrue};
ghost use Rattle.std.specs.Prelude.{◌≡◌, ◌↔◌, ℕ, ◌+◌, ◌-◌, ◌%◌, ◌<◌, ◌≤◌, List, [], Err, false, IfOk, IfSome, IsSome, length};
ghost use Rattle.std.specs.Prelude.{IsTrue, OnOk, true};
ghost use Rattle.cx_codec.specs.Reads.{Begins};
ghost use Rattle.cx_hart.specs.WellFormed.{IsWellFormed};
ghost use Rattle.cx_io.specs.Cause.{HasCause};
ghost use Rattle.cx_log.specs.Reading.{Opened};
ghost use Rattle.cx_log.specs.Recording.{Recording};
ghost use Rattle.cx_log.specs.Scan.{Scan};
ghost use Rattle.cx_replay.specs.Records.{GaveMore, MayBeWhole};
ghost use Rattle.cx_replay.specs.Replaying.{Stands};
ghost use Rattle.cx_run.specs.Due.{due_at};
ghost use Rattle.cx_seek.specs.Dues.{covers};
ghost use Rattle.cx_seek.specs.Opening.{Opens, course_of};
ghost use Rattle.cx_seek.specs.Seeking.{Forwards, IsCourse, IsOf, IsWithin, IsSameCourse, distance_in, is_in, told_as};
ghost use Rattle.cx_seek.specs.declared.fault.SeekFault.TheVariants as fault;

use crate::course::Course;
use crate::fault::SeekFault;
use crate::keeping::{Keeping, save};
use crate::opening::run_through;
use crate::player::Player;
use cx_csr::State;
use cx_hart::{Machine, StepRec, Steps};
use cx_io::{NoMemory, Source};
use cx_log::Header;
use cx_replay::{Records, Replay, ReplayFault};
use std::alloc::Global;
use std::marker::Model;
use std::sync::ledger::Ledger;

/// A recording that was read to its end, and its machine before one of its steps or at the end. It keeps at most 64
/// checkpoints of the run, so that it can go to any other step.
#[derive(Drop)]
pub struct Seeker {
    course: Course,
    player: Player,
}

impl Model for Seeker {
    ghost use Rattle.cx_seek.specs.Seeking.{IsCourse, IsWithin, Seeking};

    ghost Value = { Seeking };

    ghost view = { λ s. record { course = s.course; player = s.player } };

    ghost invariant = { λ s. IsCourse s.course s.player.machine × IsWithin s.course s.player };
}

impl Seeker {
    // The seeker of what was kept of a run up to its end, behind which the machine stands.
    fn of(header: &Header, end: u64, keeping: Keeping, machine: Machine) -> Seeker
        requires course { IsCourse (course_of header.now end keeping) machine }
        ensures { result ≡ record {
          course = course_of header.now end keeping;
          player = record { machine = machine; at = end; next = length keeping.notes };
        } }
    {
        let Keeping {
            checkpoints,
            distance,
            notes,
        } = keeping;
        let next = notes.count();
        Seeker {
            course: Course {
                base: header.base,
                end,
                pages: header.pages,
                distance,
                checkpoints,
                notes,
            },
            player: Player {
                machine,
                at: end,
                next,
            },
        }
    }

    /// Reads a recording with this header to its end, as it is replayed from its first step on, and keeps what seeking
    /// needs of it. The seeker stands at the end. `Format` and `Broken` come exactly by the first bad place of the
    /// input. `ReadFault` comes only where the source's count of faults rose, and nothing that the source gave is bad
    /// then. `NoMemory` is free.
    pub fn open<R: Records, S: Source>(
        alloc: Global,
        replay: Replay<R>,
        header: &Header,
        source: &mut S,
    ) -> Result<Seeker, ReplayFault>
        requires live { IsTrue replay.live }
        requires pages { (R.seen replay.records).pages ≡ header.now.pages }
        requires at { replay.progress.at ≡ header.now.base }
        ensures follows { IsSome (S.left source.old) → GaveMore (S.left source.old) (S.given source.old)
            (S.left source.new) (S.given source.new) }
        ensures opens { IsSome (S.left source.old) → (input : List ℕ) → Begins (S.given source.new) input
            → (end : ℕ) (o : Opened) (whole : Scan) → o.header ≡ header.now
            → Stands o whole [] replay.machine replay.progress (R.seen replay.records).bytes
            (R.has replay.records (S.given source.old) input end)
            → Opens o whole end
            (MayBeWhole (S.left source.new) (S.given source.new) input) (input ≡ S.given source.new) result }
        ensures spent { IsSome (S.left source.old) → OnOk result (R.leaves (S.left source.new)) }
        ensures cause { HasCause ReplayFault.ReadFault (S.faults source.old) (S.faults source.new) result }
    {
        let mut replay = replay;
        let mut keeping = Keeping::new(alloc);
        save(&mut replay, &mut keeping)?;
        run_through(&mut replay, &mut keeping, header.base, source)?;
        let end = replay.at();
        Ok(Seeker::of(header, end, keeping, replay.into_machine()))
    }

    /// The first step of the recording.
    pub fn base(&self) -> u64
        ensures { result ≡ self.now.course.base }
    {
        self.course.base
    }

    /// The step behind its last.
    pub fn end(&self) -> u64
        ensures { result ≡ self.now.course.end }
    {
        self.course.end
    }

    /// How many pages of RAM its machine has.
    pub fn pages(&self) -> u32
        ensures { result ≡ self.now.course.pages }
    {
        self.course.pages
    }

    /// How many steps apart its checkpoints stand: 1,024 times the least power of two of which fewer than 64 are in the
    /// recording's steps.
    pub fn distance(&self) -> u64
        ensures distance { result ≡ distance_in self.now }
        ensures some { 1024 ≤ result }
    {
        self.course.distance
    }

    /// The step before which the seeker stands, or the end.
    pub fn at(&self) -> u64
        ensures at { result ≡ self.now.player.at }
        ensures within { is_in self.now result ≡ true }
    {
        self.player.at
    }

    /// The state of the hart before that step, and before the lines that come with it.
    pub fn state(&self) -> &State
        ensures { result.now ≡ self.now.player.machine.state }
    {
        self.player.machine.state()
    }

    /// Whether a write of a device that comes with that step covers the byte at a place; at the end none does.
    pub fn dma_covers(&self, pa: u32) -> bool
        ensures covers { (run : Recording) → IsOf run self.now → self.now.player.at < run.end
            → result ≡ covers (due_at run.events self.now.player.at).transfers pa }
        ensures end { (run : Recording) → IsOf run self.now → self.now.player.at ≡ run.end → result ≡ false }
    {
        let handed = self.course.notes.due(self.player.next, self.player.at);
        handed.covers(pa)
    }

    // Whether a step is one of the recording, or its end.
    fn has(&self, n: u64) -> bool
        ensures { result ≡ is_in self.now n }
    {
        self.course.base <= n && n <= self.course.end
    }

    /// Goes to step n, in fewer steps than lie between two checkpoints: it takes those from the last checkpoint at step
    /// n or below it. `NotThere` comes exactly where n is no step of the recording, nor its end; nothing changes then.
    /// After `NoMemory` the seeker stands at another step.
    pub fn seek<L: Ledger>(&mut self, n: u64, steps: &mut Steps<L>) -> Result<(), SeekFault>
        ensures run { (run : Recording) → IsOf run self.old → IsOf run self.new }
        ensures at { OnOk result (self.new.player.at ≡ n) }
        ensures not_there { (result ≡ Err fault.NotThere) ↔ (is_in self.old n ≡ false) }
        ensures stays { result ≡ Err fault.NotThere → self.new ≡ self.old }
        ensures none { result ≡ Err fault.NotThere → steps.new ≡ steps.old }
        ensures ticks { steps.new ≤ steps.old + (n - self.old.course.base) % distance_in self.old }
        ensures same { IsSameCourse self.old self.new }
    {
        if !self.has(n) {
            return Err(SeekFault::NotThere);
        }
        if self.player.go_to(&self.course, n, steps) {
            Ok(())
        } else {
            Err(SeekFault::NoMemory)
        }
    }

    /// Takes the next step, told in the record; false exactly at the end. After `NoMemory` the seeker stands at the
    /// last checkpoint before that step.
    pub fn forward_into<L: Ledger>(
        &mut self,
        rec: &mut StepRec,
        steps: &mut Steps<L>,
    ) -> Result<bool, NoMemory>
        ensures run { (run : Recording) → IsOf run self.old → IsOf run self.new }
        ensures step { (run : Recording) → IsOf run self.old → Forwards run self.old self.new (told_as rec.new result) }
        ensures formed { IfOk result (λ gave. OnTrue gave (IsWellFormed rec.new)) }
        ensures end { IfOk result (λ gave. OnFalse gave (self.old.player.at ≡ self.old.course.end)) }
        ensures at { IfOk result (λ gave. OnTrue gave (self.new.player.at ≡ self.old.player.at + 1)) }
        ensures ticks { steps.new ≤ steps.old + 1 }
        ensures same { IsSameCourse self.old self.new }
    {
        let at = self.player.at;
        if at == self.course.end {
            return Ok(false);
        }
        if self.player.tell(&self.course, rec, steps) {
            return Ok(true);
        }
        self.player.go_back(&self.course, at);
        Err(NoMemory)
    }

    /// The same, with the record handed out; None exactly at the end.
    pub fn forward<L: Ledger>(&mut self, steps: &mut Steps<L>) -> Result<Option<StepRec>, NoMemory>
        ensures run { (run : Recording) → IsOf run self.old → IsOf run self.new }
        ensures step { (run : Recording) → IsOf run self.old → Forwards run self.old self.new result }
        ensures formed { IfOk result (λ gave. IfSome gave IsWellFormed) }
        ensures ticks { steps.new ≤ steps.old + 1 }
        ensures same { IsSameCourse self.old self.new }
    {
        let mut rec = StepRec::BLANK;
        if self.forward_into(&mut rec, steps)? {
            return Ok(Some(rec));
        }
        Ok(None)
    }
}
