//! Commands that write as the steps of a recording are settled.

ghost use Rattle.std.specs.Bool.{OnFalse};
ghost use Rattle.std.specs.Prelude.{◌≡◌, ◌+◌, ◌<◌, ◌^◌, [], ◌∷◌, ◌++◌, List, ℕ, Bool, Option, unwrap_or, length, IfOk};
ghost use Rattle.std.specs.Prelude.{false, true};
ghost use Rattle.std.specs.Prelude.{IfErr};
ghost use Rattle.std.specs.Prelude.{IsSome, IsTrue, Ok, OnOk, if◌then◌else◌};
ghost use Rattle.cx_io.specs.Cause.{HasCause};
ghost use Rattle.cx_codec.specs.Blocks.{whole as whole_blocks};
ghost use Rattle.cx_codec.specs.Place.{Place, end_of};
ghost use Rattle.cx_codec.specs.Reads.{Begins};
ghost use Rattle.cx_hart.specs.declared.record.StepRec.{StepRec};
ghost use Rattle.cx_log.specs.Order.{IsHeader};
ghost use Rattle.cx_log.specs.Reading.{Opened, start_of};
ghost use Rattle.cx_log.specs.Scan.{Scan};
ghost use Rattle.cx_map.specs.Bytes.{AreBytes};
ghost use Rattle.cx_map.specs.Map.{size_of_pages};
ghost use Rattle.cx_replay.specs.LogRecords.{HasAhead};
ghost use Rattle.cx_replay.specs.Records.{GaveMore, MayBeWhole};
ghost use Rattle.cx_replay.specs.Replaying.{Stands};
ghost use Rattle.cx_replay.specs.Taken.{IsTaken};
ghost use Rattle.cx_run.specs.Due.{due_at};
ghost use Rattle.cx_commands.specs.Doing.{Does, Judges, ended};
ghost use Rattle.cx_commands.specs.Opening.{begun_at, scan_from};
ghost use Rattle.cx_commands.specs.Streaming.{FinishesOn, IsAll, IsOrdered, IsStreamRefusal, StartsOn, Tells, TellsOn};
ghost use Rattle.cx_commands.specs.Streaming.{TellsThrough, Told, settled_by, sought};

use cx_codec::OutFault;
use cx_commands::Status;
use cx_hart::{Machine, StepRec};
use cx_io::{Sink, Source};
use cx_log::{Header, LogReader};
use cx_replay::{DueRecords, Records, Replay};
use std::alloc::Global;

/// What tells the steps of a run, in a text that grows with each step.
pub trait Teller: Drop {
    /// What it is made for.
    type Asked: Copy + Drop;

    /// The text of the first steps of an input, by their records.
    ghost text: { Self.Asked → Opened → Scan → List StepRec → List ℕ };

    /// The text of an input in which nothing is bad.
    ghost full: { Self.Asked → Opened → Scan → List ℕ };

    /// Whether it seeks something among the steps, and whether that is among these.
    ghost seeks: { Bool };

    ghost there: { Self.Asked → List StepRec → Bool };

    /// What was put and waits to be written.
    ghost waiting: { Self → List ℕ };

    /// What is kept besides, once these steps were told.
    ghost keeps: { Self → Self.Asked → Opened → Scan → List StepRec → Type 0 };

    /// That it goes on.
    ghost ready: { Self → Type 0 };

    /// Whether it has found what it seeks.
    ghost found: { Self → Bool };

    /// Begins with what stands before the first step, by the header and the machine of a recording. `WriteFault` comes
    /// only where the sink's count of faults rose.
    fn start<T: Sink>(
        alloc: Global,
        asked: Self::Asked,
        header: &Header,
        machine: &Machine,
        sink: &mut T,
    ) -> Result<Self, OutFault>
        requires header { IsHeader header.now }
        requires size { length machine.now.memory ≡ size_of_pages header.now.pages }
        ensures starts { (o : Opened) (whole : Scan) → o.header ≡ header.now → o.memory ≡ machine.now.memory
            → StartsOn (T.held sink.old) (text asked o whole []) waiting (T.held sink.new)
            (λ w. keeps w asked o whole []) result }
        ensures goes { IfOk result ready }
        ensures cause { HasCause OutFault.WriteFault (T.faults sink.old) (T.faults sink.new) result };

    /// Tells a step that was taken, to which this was due. `WriteFault` comes only where the sink's count of faults rose.
    fn tell<T: Sink>(
        &mut self,
        step: u64,
        rec: &StepRec,
        due: &DueRecords,
        sink: &mut T,
    ) -> Result<(), OutFault>
        requires ready { ready self.old }
        requires taken { IsTaken rec.now }
        ensures tells { (asked : Self.Asked) (o : Opened) (whole : Scan) (given : List StepRec)
            (base : Option (List ℕ)) → IsOrdered o whole
            → step ≡ o.header.base + length given → step < whole.upto → due.now ≡ due_at whole.events step
            → Told base (text asked o whole given) (waiting self.old) (T.held sink.old)
            (keeps self.old asked o whole given)
            → TellsOn base (text asked o whole (given ++ rec.now ∷ [])) (waiting self.new) (T.held sink.new)
            (keeps self.new asked o whole (given ++ rec.now ∷ [])) result }
        ensures goes { OnOk result (ready self.new) }
        ensures cause { HasCause OutFault.WriteFault (T.faults sink.old) (T.faults sink.new) result };

    /// Whether what it seeks is among the steps told. It is where nothing is sought.
    fn is_there(&self) -> bool
        ensures found { result ≡ found self.now }
        ensures sure { seeks ≡ false → result ≡ true }
        ensures there { (asked : Self.Asked) (o : Opened) (whole : Scan) (given : List StepRec)
            → keeps self.now asked o whole given → result ≡ there asked given };

    /// Tells the end of a run, and hands all to the sink. It is refused as a step is.
    fn finish<T: Sink>(self, end: u64, sink: &mut T) -> Result<(), OutFault>
        requires ready { ready self }
        requires found { IsTrue (found self) }
        ensures finishes { (asked : Self.Asked) (o : Opened) (whole : Scan) (given : List StepRec)
            (base : Option (List ℕ)) → IsAll o whole given end
            → Told base (text asked o whole given) (waiting self) (T.held sink.old) (keeps self asked o whole given)
            → FinishesOn base (full asked o whole) (T.held sink.new) result }
        ensures cause { HasCause OutFault.WriteFault (T.faults sink.old) (T.faults sink.new) result };

    ghost grows: { (asked : Self.Asked) (o : Opened) (whole : Scan) (xs ys : List StepRec) → IsOrdered o whole
        → Begins (text asked o whole xs) (text asked o whole (xs ++ ys)) };

    /// Where it isn't there, nothing is written.
    ghost unwritten: { (asked : Self.Asked) (o : Opened) (whole : Scan) (given : List StepRec)
        → there asked given ≡ false → whole_blocks (text asked o whole given) ≡ [] };
}

// Takes the next step, and tells it; false where the recording was read to its end.
fn tell_step<W: Teller, R: Records, S: Source, T: Sink>(
    replay: &mut Replay<R>,
    teller: &mut W,
    rec: &mut StepRec,
    source: &mut S,
    sink: &mut T,
) -> Result<bool, Status>
    requires live { IsTrue replay.old.live }
    requires ready { W.ready teller.old }
    ensures follows { IsSome (S.left source.old) → GaveMore (S.left source.old) (S.given source.old) (S.left source.new)
        (S.given source.new) }
    ensures tells { IsSome (S.left source.old) → (input : List ℕ) → Begins (S.given source.new) input
        → (end : ℕ) (asked : W.Asked) (o : Opened) (whole : Scan) (given : List StepRec) (base : Option (List ℕ))
        → IsOrdered o whole → Stands o whole given replay.old.machine replay.old.progress (R.seen replay.old.records).bytes
        (R.has replay.old.records (S.given source.old) input end)
        → Told base (W.text asked o whole given) (W.waiting teller.old) (T.held sink.old)
        (W.keeps teller.old asked o whole given)
        → Tells o whole (settled_by (W.text asked) o whole) base (T.held sink.new)
        (λ now. Told base (W.text asked o whole now) (W.waiting teller.new) (T.held sink.new)
        (W.keeps teller.new asked o whole now))
        (λ now. Stands o whole now replay.new.machine replay.new.progress (R.seen replay.new.records).bytes
        (R.has replay.new.records (S.given source.new) input end)) replay.new.progress.at end
        (MayBeWhole (S.left source.new) (S.given source.new) input) (input ≡ S.given source.new) result }
    ensures spent { IsSome (S.left source.old)
        → IfOk result (λ going. OnFalse going (R.leaves (S.left source.new))) }
    ensures live { OnOk result (IsTrue replay.new.live) }
    ensures ready { OnOk result (W.ready teller.new) }
    ensures at { IfOk result (λ going. replay.new.progress.at
        ≡ (if going then replay.old.progress.at + 1 else replay.old.progress.at)) }
    ensures small { replay.old.progress.at < 2 ^ 64 }
    ensures kind { IfErr result (IsStreamRefusal false) }
    ensures read_cause { HasCause Status.ReadFault (S.faults source.old) (S.faults source.new) result }
    ensures write_cause { HasCause Status.WriteFault (T.faults sink.old) (T.faults sink.new) result }
{
    let step = replay.at();
    if !replay.next_into(rec, source)? {
        return Ok(false);
    }
    teller.tell(step, rec, replay.due(), sink)?;
    Ok(true)
}

/// Takes all steps, and tells them.
pub fn tell_all<W: Teller, R: Records, S: Source, T: Sink>(
    replay: &mut Replay<R>,
    teller: &mut W,
    source: &mut S,
    sink: &mut T,
) -> Result<(), Status>
    requires live { IsTrue replay.old.live }
    requires ready { W.ready teller.old }
    ensures follows { IsSome (S.left source.old) → GaveMore (S.left source.old) (S.given source.old) (S.left source.new)
        (S.given source.new) }
    ensures tells { IsSome (S.left source.old) → (input : List ℕ) → Begins (S.given source.new) input
        → (end : ℕ) (asked : W.Asked) (o : Opened) (whole : Scan) (base : Option (List ℕ)) → IsOrdered o whole
        → Stands o whole [] replay.old.machine replay.old.progress (R.seen replay.old.records).bytes
        (R.has replay.old.records (S.given source.old) input end)
        → Told base (W.text asked o whole []) (W.waiting teller.old) (T.held sink.old)
        (W.keeps teller.old asked o whole [])
        → TellsThrough o whole (settled_by (W.text asked) o whole) base (T.held sink.new)
        (λ now. Told base (W.text asked o whole now) (W.waiting teller.new) (T.held sink.new)
        (W.keeps teller.new asked o whole now))
        replay.new.progress.at end
        (MayBeWhole (S.left source.new) (S.given source.new) input) (input ≡ S.given source.new) result }
    ensures spent { IsSome (S.left source.old) → OnOk result (R.leaves (S.left source.new)) }
    ensures ready { OnOk result (W.ready teller.new) }
    ensures kind { IfErr result (IsStreamRefusal false) }
    ensures read_cause { HasCause Status.ReadFault (S.faults source.old) (S.faults source.new) result }
    ensures write_cause { HasCause Status.WriteFault (T.faults sink.old) (T.faults sink.new) result }
{
    let mut rec = StepRec::BLANK;
    let mut going = true;
    while going {
        going = tell_step(replay, teller, &mut rec, source, sink)?;
    }
    Ok(())
}

/// Takes all steps of a recording, and tells them up to the end. `NotThere` comes exactly where nothing is bad in the
/// recording, and what the teller seeks isn't among its steps; nothing is written then.
pub fn tell_run<W: Teller, S: Source, T: Sink>(
    replay: Replay<LogReader>,
    teller: W,
    source: &mut S,
    sink: &mut T,
) -> Result<(), Status>
    requires live { IsTrue replay.live }
    requires ready { W.ready teller }
    ensures follows { IsSome (S.left source.old) → GaveMore (S.left source.old) (S.given source.old) (S.left source.new)
        (S.given source.new) }
    ensures does { IsSome (S.left source.old) → (input bytes : List ℕ) → Begins (S.given source.new) input
        → AreBytes bytes
        → (asked : W.Asked) (o : Opened) (p : Place) (base : Option (List ℕ)) → begun_at (start_of bytes) ≡ Ok (o, p)
        → Stands o (scan_from o p) [] replay.machine replay.progress replay.records.bytes
        (HasAhead replay.records (S.given source.old) input (end_of p))
        → Told base (W.text asked o (scan_from o p) []) (W.waiting teller) (T.held sink.old)
        (W.keeps teller asked o (scan_from o p) [])
        → Does (sought (W.there asked) (W.text asked) (W.full asked)) bytes (MayBeWhole (S.left source.new) (S.given source.new) input)
        (input ≡ S.given source.new) base (T.held sink.new) result }
    ensures spent { IsSome (S.left source.old) → Judges true (ended result) → unwrap_or (S.left source.new) [] ≡ [] }
    ensures kind { IfErr result (IsStreamRefusal W.seeks) }
    ensures read_cause { HasCause Status.ReadFault (S.faults source.old) (S.faults source.new) result }
    ensures write_cause { HasCause Status.WriteFault (T.faults sink.old) (T.faults sink.new) result }
{
    let mut replay = replay;
    let mut teller = teller;
    tell_all(&mut replay, &mut teller, source, sink)?;
    if !teller.is_there() {
        return Err(Status::NotThere);
    }
    teller.finish(replay.at(), sink)?;
    Ok(())
}
