//! Replaying a recording step by step.

ghost use Rattle.std.specs.Bool.{OnFalse, OnTrue};
ghost use Rattle.std.specs.Prelude.{◌≡◌, ◌≢◌, ◌≤◌, ◌+◌, ℕ, List, [], ◌∷◌, ◌++◌, length, false, true, is_ok, IfOk};
ghost use Rattle.std.specs.Prelude.{IfErr, IfNone, IsSome, IsTrue, None, Some};
ghost use Rattle.cx_codec.specs.Place.{end_of};
ghost use Rattle.cx_codec.specs.Reads.{Begins};
ghost use Rattle.cx_csr.specs.Keeps.{Keeps};
ghost use Rattle.cx_hart.specs.Whole.{IsLive, machine_at, machine_of};
ghost use Rattle.cx_hart.specs.declared.record.StepRec.{StepRec};
ghost use Rattle.cx_io.specs.Cause.{HasCause};
ghost use Rattle.cx_log.specs.Reading.{Opened};
ghost use Rattle.cx_log.specs.Order.{InOrder, IsHeader, at_start};
ghost use Rattle.cx_log.specs.Scan.{Scan, scan};
ghost use Rattle.cx_machine.specs.Due.{nothing_due};
ghost use Rattle.cx_machine.specs.Machine.{pages_of};
ghost use Rattle.cx_pages.specs.Memories.{SameOthers};
ghost use Rattle.cx_map.specs.Bytes.{AreBytes};
ghost use Rattle.cx_run.specs.StepEvents.{has_mark};
ghost use Rattle.cx_map.specs.Map.{size_of_pages};
ghost use Rattle.cx_replay.specs.KeptRecords.{HasKept, kept_from, scan_of};
ghost use Rattle.cx_replay.specs.LogRecords.{HasAhead, IsBegun, place_of};
ghost use Rattle.cx_replay.specs.Records.{GaveMore, MayBeWhole, RisesFrom};
ghost use Rattle.cx_replay.specs.Replaying.{Answers, Arrives, Stands, Starts, StepsOn, begun_at_base, mark_before, told_in, Unknown};
ghost use Rattle.cx_replay.specs.Taken.{IsTaken};

use crate::advance::advance;
use crate::due::DueRecords;
use crate::fault::ReplayFault;
use crate::kept::KeptEvents;
use crate::kept_records::KeptReader;
use crate::progress::Progress;
use crate::records::Records;
use crate::told::Nobody;
use cx_hart::{Machine, Moment, StepRec};
use cx_io::{NoMemory, Source};
use cx_log::{Behind, Header, LogReader};
use std::alloc::Global;
use std::marker::Model;

/// A replay of a recording: its machine before the next step, and a reader of its records, which is one record ahead of
/// the steps. After a refusal it has ended.
#[derive(Drop)]
pub struct Replay<R: Records> {
    machine: Machine,
    records: R,
    progress: Progress,
    due: DueRecords,
    live: bool,
}

impl<R: Records> Model for Replay<R> {
    ghost use Rattle.std.specs.Prelude.{◌≡◌, IsTrue, length};
    ghost use Rattle.cx_map.specs.Map.{size_of_pages};
    ghost use Rattle.cx_replay.specs.Replaying.{IsSound, Replaying};

    ghost Value = { Replaying R };

    ghost view = { λ r. record {
      machine = r.machine;
      records = r.records;
      progress = r.progress;
      due = r.due;
      live =
          r.live;
    } };

    ghost invariant = { λ r. (IsTrue r.live → IsSound r.progress (R.seen r.records))
        × (length r.machine.memory ≡ size_of_pages (R.seen r.records).pages) };
}

impl<R: Records> Replay<R> {
    /// A replay of a recording whose first step is `base`: the machine before that step, and a reader that stands
    /// before the first record.
    pub fn start(alloc: Global, machine: Machine, records: R, base: u64) -> Replay<R>
        requires live { IsTrue (R.seen records).live }
        requires more { (R.seen records).ended ≡ false }
        requires last { (R.seen records).last ≡ base }
        requires size { length machine.memory ≡ size_of_pages (R.seen records).pages }
        ensures is { result ≡ record {
          machine = machine;
          records = records;
          progress = begun_at_base base;
          due =
              nothing_due;
          live = true;
        } }
        ensures stands { (given input : List ℕ) (end : ℕ) (o : Opened) (whole : Scan)
            → R.has records given input end whole → RisesFrom base whole
            → Starts o base machine
            → Stands o whole [] result.machine result.progress (R.seen result.records).bytes
            (R.has result.records given input end) }
    {
        Replay {
            machine,
            records,
            progress: Progress::at_base(base),
            due: DueRecords::new(alloc),
            live: true,
        }
    }

    /// Whether it goes on: it does until a call is refused.
    pub fn live(&self) -> bool
        ensures { result ≡ self.now.live }
    {
        self.live
    }

    /// The step that comes next.
    pub fn at(&self) -> u64
        ensures { result ≡ self.now.progress.at }
    {
        self.progress.at
    }

    /// The machine before that step, and before the writes of devices and the lines that come with it.
    pub fn machine(&self) -> &Machine
        ensures machine { result.now ≡ self.now.machine }
        ensures size { length self.now.machine.memory ≡ size_of_pages (R.seen self.now.records).pages }
    {
        &self.machine
    }

    /// The reader of the records.
    pub fn records(&self) -> &R
        ensures { result.now ≡ self.now.records }
    {
        &self.records
    }

    /// What was due to the step that was given last.
    pub fn due(&self) -> &DueRecords
        ensures { result.now ≡ self.now.due }
    {
        &self.due
    }

    /// The step of the last mark among the records up to the one that settled the step before `at`, if it is at most
    /// `at`; None where there is none, or no step was given.
    pub fn mark(&self) -> Option<u64>
        ensures none { (gave input : List ℕ) (end : ℕ) (o : Opened) (whole : Scan)
            → Stands o whole [] self.now.machine self.now.progress (R.seen self.now.records).bytes
            (R.has self.now.records gave input end)
            → result ≡ None }
        ensures some { (gave input : List ℕ) (end : ℕ) (o : Opened) (whole : Scan) (given : List StepRec)
            → Stands o whole given self.now.machine self.now.progress (R.seen self.now.records).bytes
            (R.has self.now.records gave input end)
            → given ≢ [] → result ≡ mark_before self.now.progress.at whole.events }
    {
        self.progress.mark()
    }

    /// Whether a mark stands at the step that was given last.
    pub fn gave_mark(&self) -> bool
        ensures { (gave input : List ℕ) (end : ℕ) (o : Opened) (whole : Scan) (given : List StepRec) (rec : StepRec)
            → Stands o whole (given ++ rec ∷ []) self.now.machine self.now.progress (R.seen self.now.records).bytes
            (R.has self.now.records gave input end)
            → InOrder o.header.pages (at_start o.header.base o.header.start) whole.events whole.upto
            → result ≡ has_mark (o.header.base + length given) whole.events }
    {
        self.progress.passed_mark()
    }

    /// Keeps the machine as it is before the next step. `NoMemory` is free; the replay goes on then too.
    pub fn save(&mut self) -> Result<Moment, NoMemory>
        ensures moment { IfOk result (λ moment. machine_at self.new.machine.saved moment
            ≡ Some (machine_of self.old.machine)) }
        ensures number { IfOk result (λ moment. ¬ IsLive self.old.machine.saved moment) }
        ensures others { IfOk result
            (λ moment. SameOthers moment.snap self.old.machine.saved self.new.machine.saved) }
        ensures keeps { IfOk result (λ moment. Keeps (pages_of self.new.machine.memory) moment.state) }
        ensures size { length self.new.machine.memory ≡ size_of_pages (R.seen self.new.records).pages }
        ensures stands { (gave input : List ℕ) (end : ℕ) (o : Opened) (whole : Scan) (given : List StepRec)
            → Stands o whole given self.old.machine self.old.progress (R.seen self.old.records).bytes
            (R.has self.old.records gave input end)
            → Stands o whole given self.new.machine self.new.progress (R.seen self.new.records).bytes
            (R.has self.new.records gave input end) }
        ensures same { self.new ≡ record self.old {
          machine = record self.old.machine { saved = self.new.machine.saved };
        } }
        ensures refused { IfErr result (λ refused. self.new ≡ self.old) }
    {
        match self.machine.save() {
            Ok(moment) => Ok(moment),
            Err(_) => Err(NoMemory),
        }
    }

    /// Ends a moment of the machine, which stays as it is.
    pub fn forget(&mut self, moment: Moment)
        requires { IsLive self.old.machine.saved moment }
        ensures machine { machine_of self.new.machine ≡ machine_of self.old.machine }
        ensures gone { ¬ IsLive self.new.machine.saved moment }
        ensures others { SameOthers moment.snap self.old.machine.saved self.new.machine.saved }
        ensures split { self.new.machine.split ≡ self.old.machine.split }
        ensures spare { self.old.machine.spare ≤ self.new.machine.spare }
        ensures stands { (gave input : List ℕ) (end : ℕ) (o : Opened) (whole : Scan) (given : List StepRec)
            → Stands o whole given self.old.machine self.old.progress (R.seen self.old.records).bytes
            (R.has self.old.records gave input end)
            → Stands o whole given self.new.machine self.new.progress (R.seen self.new.records).bytes
            (R.has self.new.records gave input end) }
        ensures same { self.new ≡ record self.old { machine = self.new.machine } }
    {
        self.machine.forget(moment);
    }

    /// Hands the machine out, with its moments.
    pub fn into_machine(self) -> Machine
        ensures machine { result ≡ self.machine }
        ensures size { length result.memory ≡ size_of_pages (R.seen self.records).pages }
    {
        self.machine
    }

    /// Gives the next step, told in the record; false exactly where the recording was read to its end and the input
    /// ended. `Format` and `Broken` come exactly by the first bad place of the input, once all steps were given that
    /// its records settle before. `ReadFault` comes only where the source's count of faults rose; what the source gave
    /// settles no step that wasn't given. `NoMemory` is free.
    #[tactic(auto, using(crate::proofs::Taking::told_taken, crate::proofs::Taking::told_walked))]
    pub fn next_into<S: Source>(
        &mut self,
        rec: &mut StepRec,
        source: &mut S,
    ) -> Result<bool, ReplayFault>
        requires { IsTrue self.old.live }
        ensures follows { IsSome (S.left source.old) → GaveMore (S.left source.old) (S.given source.old)
            (S.left source.new) (S.given source.new) }
        ensures answers { IsSome (S.left source.old) → (input : List ℕ) → Begins (S.given source.new) input
            → (end : ℕ) (o : Opened) (whole : Scan) (given : List StepRec)
            → Stands o whole given self.old.machine self.old.progress (R.seen self.old.records).bytes
            (R.has self.old.records (S.given source.old) input end)
            → Answers o whole given self.new.machine self.new.progress (R.seen self.new.records).bytes
            (R.has self.new.records (S.given source.new) input end)
            self.new.due end (MayBeWhole (S.left source.new) (S.given source.new) input)
            (input ≡ S.given source.new) (told_in rec.new result) }
        ensures live { self.new.live ≡ is_ok result }
        ensures spent { IsSome (S.left source.old)
            → IfOk result (λ gave. OnFalse gave (R.leaves (S.left source.new))) }
        ensures at { StepsOn self.old.progress.at self.new.progress.at result }
        ensures taken { IfOk result (λ gave. OnTrue gave (IsTaken rec.new)) }
        ensures walked { IfOk result (λ gave. OnTrue gave (rec.new.walked ≤ 6)) }
        ensures split { self.new.machine.split ≡ self.old.machine.split }
        ensures saved { self.new.machine.saved ≡ self.old.machine.saved }
        ensures pages { (R.seen self.new.records).pages ≡ (R.seen self.old.records).pages }
        ensures cause { HasCause ReplayFault.ReadFault (S.faults source.old) (S.faults source.new) result }
    {
        let told = advance(
            &mut self.machine,
            &mut self.progress,
            &mut self.due,
            &mut self.records,
            rec,
            source,
        );
        self.live = told.is_ok();
        told
    }

    /// The same for whoever only has to arrive: the step is told to nobody.
    pub fn next_untold<S: Source>(&mut self, source: &mut S) -> Result<bool, ReplayFault>
        requires { IsTrue self.old.live }
        ensures follows { IsSome (S.left source.old) → GaveMore (S.left source.old) (S.given source.old)
            (S.left source.new) (S.given source.new) }
        ensures answers { IsSome (S.left source.old) → (input : List ℕ) → Begins (S.given source.new) input
            → (end : ℕ) (o : Opened) (whole : Scan) (given : List StepRec)
            → Stands o whole given self.old.machine self.old.progress (R.seen self.old.records).bytes
            (R.has self.old.records (S.given source.old) input end)
            → Arrives Unknown o whole given self.new.machine self.new.progress (R.seen self.new.records).bytes
            (R.has self.new.records (S.given source.new) input end)
            self.new.due end (MayBeWhole (S.left source.new) (S.given source.new) input)
            (input ≡ S.given source.new) result }
        ensures live { self.new.live ≡ is_ok result }
        ensures spent { IsSome (S.left source.old)
            → IfOk result (λ gave. OnFalse gave (R.leaves (S.left source.new))) }
        ensures at { StepsOn self.old.progress.at self.new.progress.at result }
        ensures split { self.new.machine.split ≡ self.old.machine.split }
        ensures saved { self.new.machine.saved ≡ self.old.machine.saved }
        ensures pages { (R.seen self.new.records).pages ≡ (R.seen self.old.records).pages }
        ensures cause { HasCause ReplayFault.ReadFault (S.faults source.old) (S.faults source.new) result }
    {
        let told = advance(
            &mut self.machine,
            &mut self.progress,
            &mut self.due,
            &mut self.records,
            &mut Nobody,
            source,
        );
        self.live = told.is_ok();
        told
    }

    /// The same, with the record handed out; None where `next_into` answers false.
    pub fn next<S: Source>(&mut self, source: &mut S) -> Result<Option<StepRec>, ReplayFault>
        requires { IsTrue self.old.live }
        ensures follows { IsSome (S.left source.old) → GaveMore (S.left source.old) (S.given source.old)
            (S.left source.new) (S.given source.new) }
        ensures answers { IsSome (S.left source.old) → (input : List ℕ) → Begins (S.given source.new) input
            → (end : ℕ) (o : Opened) (whole : Scan) (given : List StepRec)
            → Stands o whole given self.old.machine self.old.progress (R.seen self.old.records).bytes
            (R.has self.old.records (S.given source.old) input end)
            → Answers o whole given self.new.machine self.new.progress (R.seen self.new.records).bytes
            (R.has self.new.records (S.given source.new) input end)
            self.new.due end (MayBeWhole (S.left source.new) (S.given source.new) input)
            (input ≡ S.given source.new) result }
        ensures spent { IsSome (S.left source.old)
            → IfOk result (λ gave. IfNone gave (R.leaves (S.left source.new))) }
        ensures live { self.new.live ≡ is_ok result }
        ensures split { self.new.machine.split ≡ self.old.machine.split }
        ensures saved { self.new.machine.saved ≡ self.old.machine.saved }
        ensures pages { (R.seen self.new.records).pages ≡ (R.seen self.old.records).pages }
        ensures cause { HasCause ReplayFault.ReadFault (S.faults source.old) (S.faults source.new) result }
    {
        let mut rec = StepRec::BLANK;
        if self.next_into(&mut rec, source)? {
            return Ok(Some(rec));
        }
        Ok(None)
    }
}

impl Replay<LogReader> {
    /// A replay of the recording that this reader read up to its first record, and whose pages it read into this
    /// machine.
    pub fn of_log(alloc: Global, reader: LogReader, machine: Machine) -> Replay<LogReader>
        requires begun { IsBegun reader }
        requires state { machine.state ≡ reader.header.start }
        requires split { machine.split ≡ reader.header.split }
        requires size { length machine.memory ≡ size_of_pages reader.header.pages }
        ensures is { result ≡ record {
          machine = machine;
          records = reader;
          progress = begun_at_base reader.header.base;
          due = nothing_due;
          live = true;
        } }
        ensures stands { (given input : List ℕ) → AreBytes (place_of reader given input).ahead
            → Stands (record { header = reader.header; memory = machine.memory })
            (scan reader.header.pages (at_start reader.header.base reader.header.start) (place_of reader given input))
            [] result.machine result.progress result.records.bytes (HasAhead result.records given input
            (end_of (place_of reader given input))) }
    {
        let base = reader.header().base;
        Replay::start(alloc, machine, reader, base)
    }

    /// The header of the recording.
    pub fn header(&self) -> &Header
        ensures header { result.now ≡ self.now.records.header }
        ensures rules { IsHeader result.now }
    {
        self.records.header()
    }
}

impl Replay<KeptReader> {
    /// A replay of the recording with this header, the machine's memory, and these events up to its end, which were
    /// kept. The machine is the one before its first step.
    pub fn of_kept(
        alloc: Global,
        machine: Machine,
        header: &Header,
        events: KeptEvents,
        end: u64,
    ) -> Replay<KeptReader>
        requires header { IsHeader header.now }
        requires order { InOrder header.now.pages (at_start header.now.base header.now.start) events end }
        requires state { machine.state ≡ header.now.start }
        requires split { machine.split ≡ header.now.split }
        requires size { length machine.memory ≡ size_of_pages header.now.pages }
        ensures is { result ≡ record {
          machine = machine;
          records = kept_from header.now.pages header.now.base events end;
          progress = begun_at_base header.now.base;
          due = nothing_due;
          live = true;
        } }
        ensures stands { (given input : List ℕ) (offset : ℕ)
            → Stands (record { header = header.now; memory = machine.memory }) (scan_of events end) []
            result.machine result.progress result.records.bytes (HasKept result.records given input offset) }
    {
        let start = Behind::at_start(header.base, &header.start);
        let records = KeptReader::new(header.pages, &start, events, end);
        Replay::start(alloc, machine, records, header.base)
    }
}
