//! Keeping the events of steps up to the next mark.

ghost use Rattle.std.specs.Prelude.{◌≡◌, ◌==◌, ◌&&◌, ◌++◌, ◌^◌, ◌<◌, not, ℕ, suc, List, IfErr, IfOk, IfSome};
ghost use Rattle.std.specs.Prelude.{IsSome, IsTrue, Some};
ghost use Rattle.cx_codec.specs.Reads.{Begins};
ghost use Rattle.cx_hart.specs.declared.record.StepRec.{StepRec};
ghost use Rattle.cx_io.specs.Cause.{HasCause};
ghost use Rattle.cx_log.specs.Order.{InOrder, at_start};
ghost use Rattle.cx_log.specs.Reading.{Opened};
ghost use Rattle.cx_log.specs.Scan.{Scan};
ghost use Rattle.cx_replay.specs.Records.{GaveMore, MayBeWhole};
ghost use Rattle.cx_replay.specs.Replaying.{Stands};
ghost use Rattle.cx_run.specs.StepEvents.{has_mark, step_events};
ghost use Rattle.cx_keeping.specs.Keeping.{Finds, GathersEvents, GoesTo, IsLiveBehind, IsSpentBehind, LeavesSpent};
ghost use Rattle.cx_keeping.specs.Keeping.{StepsTo};
ghost use Rattle.cx_keeping.specs.Keeping.{GathersStep, StepsOnTo};

use crate::fault::KeepingFault;
use crate::gathered::Gathered;
use cx_io::Source;
use cx_replay::{KeptEvents, Records, Replay, ReplayFault};

// Whether a mark stands at the step that comes next. None stands at the first step of a recording.
fn is_at_mark<R: Records>(replay: &Replay<R>) -> bool
    ensures { (gave input : List ℕ) (end last : ℕ) (o : Opened) (whole : Scan) (given : List StepRec)
        → Stands o whole given replay.now.machine replay.now.progress (R.seen replay.now.records).bytes
        (R.has replay.now.records gave input end)
        → InOrder o.header.pages (at_start o.header.base o.header.start) whole.events last
        → result ≡ (not (replay.now.progress.at == o.header.base) && has_mark replay.now.progress.at whole.events) }
{
    match replay.mark() {
        Some(step) => step == replay.at(),
        None => false,
    }
}

// Where the replay stands before a mark, that is found.
fn found<R: Records>(replay: &Replay<R>) -> Option<Gathered>
    ensures finds { (gave input : List ℕ) (end last : ℕ) (o : Opened) (whole : Scan) (given : List StepRec)
        → Stands o whole given replay.now.machine replay.now.progress (R.seen replay.now.records).bytes
        (R.has replay.now.records gave input end)
        → InOrder o.header.pages (at_start o.header.base o.header.start) whole.events last
        → Finds replay.now.progress.at
        (not (replay.now.progress.at == o.header.base) && has_mark replay.now.progress.at whole.events) result }
    ensures at { IfSome result (λ g. g ≡ Gathered.Mark replay.now.progress.at) }
{
    if is_at_mark(replay) {
        return Some(Gathered::Mark(replay.at()));
    }
    None
}

// Keeps the events of the step that was given last, and sees whether a mark stands at the next one.
fn keep<R: Records>(
    replay: &Replay<R>,
    step: u64,
    marked: bool,
    kept: &mut KeptEvents,
) -> Result<Option<Gathered>, KeepingFault>
    ensures kept { IfOk result (λ g. kept.new ≡ kept.old ++ step_events step marked replay.now.due) }
    ensures finds { (gave input : List ℕ) (end last : ℕ) (o : Opened) (whole : Scan) (given : List StepRec)
        → Stands o whole given replay.now.machine replay.now.progress (R.seen replay.now.records).bytes
        (R.has replay.now.records gave input end)
        → InOrder o.header.pages (at_start o.header.base o.header.start) whole.events last
        → IfOk result (Finds replay.now.progress.at
        (not (replay.now.progress.at == o.header.base) && has_mark replay.now.progress.at whole.events)) }
    ensures at { IfOk result (λ g. IfSome g (λ g. g ≡ Gathered.Mark replay.now.progress.at)) }
    ensures refused { IfErr result (λ e. e ≡ KeepingFault.NoMemory) }
{
    match kept.push_step(step, marked, replay.due()) {
        Ok(()) => Ok(found(replay)),
        Err(_) => Err(KeepingFault::NoMemory),
    }
}

// Takes the next step and keeps its events. It answers where that ends, and None where it goes on.
fn turn<R: Records, S: Source>(
    replay: &mut Replay<R>,
    kept: &mut KeptEvents,
    source: &mut S,
) -> Result<Option<Gathered>, KeepingFault>
    requires { IsTrue replay.old.live }
    ensures follows { IsSome (S.left source.old) → GaveMore (S.left source.old) (S.given source.old) (S.left source.new)
        (S.given source.new) }
    ensures turns { IsSome (S.left source.old) → (input : List ℕ) → Begins (S.given source.new) input
        → (end from last : ℕ) (o : Opened) (whole : Scan)
        → InOrder o.header.pages (at_start o.header.base o.header.start) whole.events last
        → GoesTo o whole from replay.old.progress.at (suc replay.old.progress.at) kept.old
        (λ given. Stands o whole given replay.old.machine replay.old.progress (R.seen replay.old.records).bytes
        (R.has replay.old.records (S.given source.old) input end))
        → GathersStep o whole from replay.new.progress.at kept.new
        (λ given. Stands o whole given replay.new.machine replay.new.progress (R.seen replay.new.records).bytes
        (R.has replay.new.records (S.given source.new) input end)) end
        (MayBeWhole (S.left source.new) (S.given source.new) input) (input ≡ S.given source.new) result }
    ensures spent { IsSome (S.left source.old) → LeavesSpent (R.leaves (S.left source.new)) result }
    ensures at { IfOk result (StepsOnTo replay.old.progress.at replay.new.progress.at) }
    ensures live { IfOk result (IsLiveBehind replay.new.live) }
    ensures split { replay.new.machine.split ≡ replay.old.machine.split }
    ensures saved { replay.new.machine.saved ≡ replay.old.machine.saved }
    ensures pages { (R.seen replay.new.records).pages ≡ (R.seen replay.old.records).pages }
    ensures small { replay.old.progress.at < 2 ^ 64 }
    ensures cause { HasCause KeepingFault.ReadFault (S.faults source.old) (S.faults source.new) result }
{
    let step = replay.at();
    let marked = is_at_mark(replay);
    match replay.next_untold(source) {
        Ok(going) => {
            if going {
                return keep(replay, step, marked, kept);
            }
            Ok(Some(Gathered::End(step)))
        }
        Err(ReplayFault::ReadFault) => Err(KeepingFault::ReadFault),
        Err(ReplayFault::NoMemory) => Err(KeepingFault::NoMemory),
        Err(ReplayFault::Format(_)) => Ok(Some(Gathered::Bad)),
        Err(ReplayFault::Broken(_)) => Ok(Some(Gathered::Bad)),
    }
}

/// Takes the steps up to the next mark, or to the end of the recording, and keeps their events behind those that were
/// kept already. `Mark` comes exactly where a mark stands that all steps below it were carried out for, `Bad` exactly
/// where the first bad place of the input comes before the next such mark. `ReadFault` comes only where the source's
/// count of faults rose; nothing that the source gave is bad then, and no mark that it gave can be reached. `NoMemory`
/// is free.
pub fn gather<R: Records, S: Source>(
    replay: &mut Replay<R>,
    kept: &mut KeptEvents,
    source: &mut S,
) -> Result<Gathered, KeepingFault>
    requires { IsTrue replay.old.live }
    ensures follows { IsSome (S.left source.old) → GaveMore (S.left source.old) (S.given source.old) (S.left source.new)
        (S.given source.new) }
    ensures gathers { IsSome (S.left source.old) → (input : List ℕ) → Begins (S.given source.new) input
        → (end from last : ℕ) (o : Opened) (whole : Scan)
        → InOrder o.header.pages (at_start o.header.base o.header.start) whole.events last
        → GoesTo o whole from replay.old.progress.at (suc replay.old.progress.at) kept.old
        (λ given. Stands o whole given replay.old.machine replay.old.progress (R.seen replay.old.records).bytes
        (R.has replay.old.records (S.given source.old) input end))
        → GathersEvents o whole from replay.new.progress.at kept.new
        (λ given. Stands o whole given replay.new.machine replay.new.progress (R.seen replay.new.records).bytes
        (R.has replay.new.records (S.given source.new) input end)) end
        (MayBeWhole (S.left source.new) (S.given source.new) input) (input ≡ S.given source.new) result }
    ensures spent { IsSome (S.left source.old) → IfOk result (IsSpentBehind (R.leaves (S.left source.new))) }
    ensures at { IfOk result (StepsTo replay.old.progress.at replay.new.progress.at) }
    ensures live { IfOk result (λ g. IsLiveBehind replay.new.live (Some g)) }
    ensures split { replay.new.machine.split ≡ replay.old.machine.split }
    ensures saved { replay.new.machine.saved ≡ replay.old.machine.saved }
    ensures pages { (R.seen replay.new.records).pages ≡ (R.seen replay.old.records).pages }
    ensures cause { HasCause KeepingFault.ReadFault (S.faults source.old) (S.faults source.new) result }
{
    loop {
        match turn(replay, kept, source)? {
            Some(found) => return Ok(found),
            None => {}
        }
    }
}
