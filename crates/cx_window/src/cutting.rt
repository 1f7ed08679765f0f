//! Cutting a window from a replay.

ghost use Rattle.std.specs.Bool.{OnFalse};
ghost use Rattle.std.specs.Prelude.{◌≡◌, ◌==◌, ◌+◌, ◌<◌, ◌^◌, ℕ, List, [], length, IfOk, IsSome, IsTrue, OnOk};
ghost use Rattle.cx_codec.specs.Reads.{Begins};
ghost use Rattle.cx_hart.specs.Whole.{machine_of};
ghost use Rattle.cx_hart.specs.declared.record.StepRec.{StepRec};
ghost use Rattle.cx_io.specs.Cause.{HasCause};
ghost use Rattle.cx_log.specs.Order.{IsHeader};
ghost use Rattle.cx_log.specs.Reading.{Opened};
ghost use Rattle.cx_log.specs.Scan.{Scan, decoded};
ghost use Rattle.cx_map.specs.Map.{size_of_pages};
ghost use Rattle.cx_replay.specs.Records.{GaveMore, MayBeWhole};
ghost use Rattle.cx_replay.specs.Replaying.{Stands, StepsOn};
ghost use Rattle.cx_window.specs.Cut.{Cuts, IsJudged, Ran, Turned};
ghost use Rattle.cx_window.specs.Slicing.{IsFit, IsSeen, SameWindow, Slices};

use crate::slice::Slice;
use crate::slicer::Slicer;
use crate::span::Span;
use cx_hart::StepRec;
use cx_io::{NoMemory, Source};
use cx_log::Header;
use cx_replay::{Records, Replay, ReplayFault};
use std::alloc::Global;

// Keeps the machine, where the window's first step comes next.
fn see<R: Records>(replay: &mut Replay<R>, slicer: &mut Slicer) -> Result<(), NoMemory>
    ensures seen { OnOk result (IsSeen (replay.old.progress.at == slicer.old.from) (machine_of replay.new.machine)
        replay.old.machine.saved replay.new.machine.saved slicer.old slicer.new) }
    ensures stands { (gave input : List ℕ) (end : ℕ) (o : Opened) (whole : Scan) (given : List StepRec)
        → Stands o whole given replay.old.machine replay.old.progress (R.seen replay.old.records).bytes
        (R.has replay.old.records gave input end)
        → Stands o whole given replay.new.machine replay.new.progress (R.seen replay.new.records).bytes
        (R.has replay.new.records gave input end) }
    ensures fit { IsFit (R.seen replay.old.records).pages replay.old.machine.saved slicer.old
        → IsFit (R.seen replay.old.records).pages replay.new.machine.saved slicer.new }
    ensures window { SameWindow slicer.old slicer.new }
    ensures at { replay.new.progress.at ≡ replay.old.progress.at }
    ensures same { replay.new ≡ record replay.old {
      machine = record replay.old.machine { saved = replay.new.machine.saved };
    } }
{
    if !slicer.starts_at(replay.at()) {
        return Ok(());
    }
    let moment = replay.save()?;
    slicer.keep(moment);
    Ok(())
}

// Takes the next step, and shows it to the slicer where it is one of the window; false where the recording was read to
// its end. Of a step outside the window no record is made.
fn turn<R: Records, S: Source>(
    replay: &mut Replay<R>,
    slicer: &mut Slicer,
    rec: &mut StepRec,
    source: &mut S,
) -> Result<bool, ReplayFault>
    requires { IsTrue replay.old.live }
    ensures follows { IsSome (S.left source.old) → GaveMore (S.left source.old) (S.given source.old) (S.left source.new)
        (S.given source.new) }
    ensures turned { IsSome (S.left source.old) → (input : List ℕ) → Begins (S.given source.new) input
        → (end : ℕ) (o : Opened) (whole : Scan) (given : List StepRec)
        → Stands o whole given replay.old.machine replay.old.progress (R.seen replay.old.records).bytes
        (R.has replay.old.records (S.given source.old) input end)
        → Slices (decoded o whole) replay.old.machine.saved given slicer.old
        → Turned o whole replay.new.progress.at replay.new.machine.saved slicer.new
        (λ now. Stands o whole now replay.new.machine replay.new.progress (R.seen replay.new.records).bytes
        (R.has replay.new.records (S.given source.new) input end)) end
        (MayBeWhole (S.left source.new) (S.given source.new) input) (input ≡ S.given source.new) result }
    ensures spent { IsSome (S.left source.old)
        → IfOk result (λ going. OnFalse going (R.leaves (S.left source.new))) }
    ensures same { SameWindow slicer.old slicer.new }
    ensures pages { (R.seen replay.old.records).pages ≡ (R.seen replay.new.records).pages }
    ensures fit { IsFit (R.seen replay.old.records).pages replay.old.machine.saved slicer.old
        → IsFit (R.seen replay.old.records).pages replay.new.machine.saved slicer.new }
    ensures split { replay.new.machine.split ≡ replay.old.machine.split }
    ensures live { OnOk result (IsTrue replay.new.live) }
    ensures at { OnOk result (StepsOn replay.old.progress.at replay.new.progress.at result) }
    ensures small { replay.old.progress.at < 2 ^ 64 }
    ensures cause { HasCause ReplayFault.ReadFault (S.faults source.old) (S.faults source.new) result }
{
    let step = replay.at();
    see(replay, slicer)?;
    if !slicer.has_step(step) {
        return replay.next_untold(source);
    }
    if !replay.next_into(rec, source)? {
        return Ok(false);
    }
    slicer.feed(step, rec, replay.gave_mark(), replay.due())?;
    Ok(true)
}

// Takes all steps, and shows each to the slicer.
fn run_through<R: Records, S: Source>(
    replay: &mut Replay<R>,
    slicer: &mut Slicer,
    source: &mut S,
) -> Result<(), ReplayFault>
    requires { IsTrue replay.old.live }
    ensures follows { IsSome (S.left source.old) → GaveMore (S.left source.old) (S.given source.old) (S.left source.new)
        (S.given source.new) }
    ensures ran { IsSome (S.left source.old) → (input : List ℕ) → Begins (S.given source.new) input
        → (end : ℕ) (o : Opened) (whole : Scan)
        → Stands o whole [] replay.old.machine replay.old.progress (R.seen replay.old.records).bytes
        (R.has replay.old.records (S.given source.old) input end)
        → Slices (decoded o whole) replay.old.machine.saved [] slicer.old
        → Ran o whole replay.new.progress.at replay.new.machine.saved slicer.new end
        (MayBeWhole (S.left source.new) (S.given source.new) input) (input ≡ S.given source.new) result }
    ensures spent { IsSome (S.left source.old) → OnOk result (R.leaves (S.left source.new)) }
    ensures same { SameWindow slicer.old slicer.new }
    ensures pages { (R.seen replay.old.records).pages ≡ (R.seen replay.new.records).pages }
    ensures fit { IsFit (R.seen replay.old.records).pages replay.old.machine.saved slicer.old
        → IsFit (R.seen replay.old.records).pages replay.new.machine.saved slicer.new }
    ensures split { replay.new.machine.split ≡ replay.old.machine.split }
    ensures cause { HasCause ReplayFault.ReadFault (S.faults source.old) (S.faults source.new) result }
{
    let mut rec = StepRec::BLANK;
    let mut going = true;
    while going {
        going = turn(replay, slicer, &mut rec, source)?;
    }
    Ok(())
}

/// Takes all steps of a recording with this header, as it is replayed, and cuts off the window of these steps. It
/// answers None exactly where the recording hasn't the window's steps. `Format` and `Broken` come exactly by the first
/// bad place of the input. `ReadFault` comes only where the source's count of faults rose, and nothing that the source
/// gave is bad then. `NoMemory` is free.
pub fn cut<R: Records, S: Source>(
    alloc: Global,
    replay: Replay<R>,
    header: &Header,
    span: Span,
    source: &mut S,
) -> Result<Option<Slice>, ReplayFault>
    requires live { IsTrue replay.live }
    requires header { IsHeader header.now }
    requires pages { (R.seen replay.records).pages ≡ header.now.pages }
    requires split { replay.machine.split ≡ header.now.split }
    ensures follows { IsSome (S.left source.old) → GaveMore (S.left source.old) (S.given source.old) (S.left source.new)
        (S.given source.new) }
    ensures cuts { IsSome (S.left source.old) → (input : List ℕ) → Begins (S.given source.new) input
        → (end : ℕ) (o : Opened) (whole : Scan) → o.header ≡ header.now → IsJudged o whole
        → Stands o whole [] replay.machine replay.progress (R.seen replay.records).bytes
        (R.has replay.records (S.given source.old) input end)
        → Cuts o whole span.from span.to end
        (MayBeWhole (S.left source.new) (S.given source.new) input) (input ≡ S.given source.new) result }
    ensures spent { IsSome (S.left source.old) → OnOk result (R.leaves (S.left source.new)) }
    ensures cause { HasCause ReplayFault.ReadFault (S.faults source.old) (S.faults source.new) result }
{
    let mut replay = replay;
    let mut slicer = Slicer::new(alloc, header.pages, span.from, span.to)?;
    run_through(&mut replay, &mut slicer, source)?;
    if !span.lies_in(header.base, replay.at()) {
        return Ok(None);
    }
    Ok(slicer.finish(header, replay.into_machine()))
}
