//! Reading a whole recording, and keeping what seeking needs of it.

ghost use Rattle.std.specs.Bool.{OnFalse};
ghost use Rattle.std.specs.Prelude.{◌≡◌, ◌-◌, ◌<◌, ◌≤◌, ◌^◌, ℕ, List, [], length, IfOk, IsSome, IsTrue, OnOk};
ghost use Rattle.cx_codec.specs.Reads.{Begins};
ghost use Rattle.cx_hart.specs.declared.record.StepRec.{StepRec};
ghost use Rattle.cx_io.specs.Cause.{HasCause};
ghost use Rattle.cx_log.specs.Reading.{Opened};
ghost use Rattle.cx_log.specs.Scan.{Scan, decoded};
ghost use Rattle.cx_replay.specs.Records.{GaveMore, MayBeWhole};
ghost use Rattle.cx_replay.specs.Replaying.{Stands, StepsOn};
ghost use Rattle.cx_seek.specs.Keeping.{IsKept, Keeps, Ran, Turned};

use crate::keeping::{Keeping, keep};
use cx_io::Source;
use cx_replay::{Records, Replay, ReplayFault};

// Takes the next step, and keeps what is due to it, and the machine behind it where a checkpoint stands there. It
// answers false where the recording was read to its end.
fn turn<R: Records, S: Source>(
    replay: &mut Replay<R>,
    keeping: &mut Keeping,
    base: u64,
    source: &mut S,
) -> Result<bool, ReplayFault>
    requires live { IsTrue replay.old.live }
    requires above { base ≤ replay.old.progress.at }
    requires kept { IsKept (R.seen replay.old.records).pages (replay.old.progress.at - base) replay.old.machine.saved
        keeping.old }
    ensures follows { IsSome (S.left source.old) → GaveMore (S.left source.old) (S.given source.old) (S.left source.new)
        (S.given source.new) }
    ensures turned { IsSome (S.left source.old) → (input : List ℕ) → Begins (S.given source.new) input
        → (end : ℕ) (o : Opened) (whole : Scan) (given : List StepRec) → o.header.base ≡ base
        → Stands o whole given replay.old.machine replay.old.progress (R.seen replay.old.records).bytes
        (R.has replay.old.records (S.given source.old) input end)
        → Keeps (decoded o whole) replay.old.machine.saved replay.old.progress.at keeping.old
        → Turned o whole replay.new.progress.at replay.new.machine keeping.new
        (λ now. Stands o whole now replay.new.machine replay.new.progress (R.seen replay.new.records).bytes
        (R.has replay.new.records (S.given source.new) input end)) end
        (MayBeWhole (S.left source.new) (S.given source.new) input) (input ≡ S.given source.new) result }
    ensures spent { IsSome (S.left source.old)
        → IfOk result (λ going. OnFalse going (R.leaves (S.left source.new))) }
    ensures pages { (R.seen replay.new.records).pages ≡ (R.seen replay.old.records).pages }
    ensures kept { OnOk result (IsKept (R.seen replay.new.records).pages (replay.new.progress.at - base)
        replay.new.machine.saved keeping.new) }
    ensures above { OnOk result (base ≤ replay.new.progress.at) }
    ensures live { OnOk result (IsTrue replay.new.live) }
    ensures at { OnOk result (StepsOn replay.old.progress.at replay.new.progress.at result) }
    ensures small { replay.old.progress.at < 2 ^ 64 }
    ensures cause { HasCause ReplayFault.ReadFault (S.faults source.old) (S.faults source.new) result }
{
    let step = replay.at();
    if !replay.next_untold(source)? {
        return Ok(false);
    }
    keeping.notes.note(step, replay.due())?;
    keep(replay, keeping, replay.at() - base)?;
    Ok(true)
}

/// Takes all steps, and keeps what seeking needs of them.
pub(crate) fn run_through<R: Records, S: Source>(
    replay: &mut Replay<R>,
    keeping: &mut Keeping,
    base: u64,
    source: &mut S,
) -> Result<(), ReplayFault>
    requires live { IsTrue replay.old.live }
    requires above { base ≤ replay.old.progress.at }
    requires kept { IsKept (R.seen replay.old.records).pages (replay.old.progress.at - base) replay.old.machine.saved
        keeping.old }
    ensures follows { IsSome (S.left source.old) → GaveMore (S.left source.old) (S.given source.old) (S.left source.new)
        (S.given source.new) }
    ensures ran { IsSome (S.left source.old) → (input : List ℕ) → Begins (S.given source.new) input
        → (end : ℕ) (o : Opened) (whole : Scan) (given : List StepRec) → o.header.base ≡ base
        → Stands o whole given replay.old.machine replay.old.progress (R.seen replay.old.records).bytes
        (R.has replay.old.records (S.given source.old) input end)
        → Keeps (decoded o whole) replay.old.machine.saved replay.old.progress.at keeping.old
        → Ran o whole replay.new.progress.at replay.new.machine keeping.new end
        (MayBeWhole (S.left source.new) (S.given source.new) input) (input ≡ S.given source.new) result }
    ensures spent { IsSome (S.left source.old) → OnOk result (R.leaves (S.left source.new)) }
    ensures pages { (R.seen replay.new.records).pages ≡ (R.seen replay.old.records).pages }
    ensures kept { OnOk result (IsKept (R.seen replay.new.records).pages (replay.new.progress.at - base)
        replay.new.machine.saved keeping.new) }
    ensures above { OnOk result (base ≤ replay.new.progress.at) }
    ensures cause { HasCause ReplayFault.ReadFault (S.faults source.old) (S.faults source.new) result }
{
    let mut going = true;
    while going {
        going = turn(replay, keeping, base, source)?;
    }
    Ok(())
}
