//! The next step of a replay.

ghost use Rattle.std.specs.Bool.{OnFalse};
ghost use Rattle.std.specs.Prelude.{◌≡◌, ◌≤◌, ℕ, List, length, IfOk, IsSome, OnOk};
ghost use Rattle.cx_codec.specs.Reads.{Begins};
ghost use Rattle.cx_hart.specs.Whole.{machine_of};
ghost use Rattle.cx_hart.specs.declared.record.StepRec.{StepRec};
ghost use Rattle.cx_io.specs.Cause.{HasCause};
ghost use Rattle.cx_log.specs.Reading.{Opened};
ghost use Rattle.cx_log.specs.Scan.{Scan};
ghost use Rattle.cx_machine.specs.Machine.{IsMachine};
ghost use Rattle.cx_map.specs.Map.{size_of_pages};
ghost use Rattle.cx_replay.specs.Gathering.{TellsTaken};
ghost use Rattle.cx_replay.specs.Records.{GaveMore, MayBeWhole};
ghost use Rattle.cx_replay.specs.Replaying.{Arrives, IsSound, Stands, StepsOn};

use crate::due::DueRecords;
use crate::fault::ReplayFault;
use crate::gather::settle_next;
use crate::progress::Progress;
use crate::records::Records;
use crate::step::take_step;
use crate::told::Told;
use cx_hart::Machine;
use cx_io::Source;

// Tells that the machine keeps its rules, for as many pages as its RAM has.
#[inline]
fn keeps_rules(machine: &Machine)
    ensures { (pages : ℕ) → length machine.now.memory ≡ size_of_pages pages
        → IsMachine pages (machine_of machine.now) }
{
    let _ = machine.state();
    let _ = machine.ram().pages();
}

/// Settles the next step and takes it, and tells it; false where the recording was read to its end.
pub(crate) fn advance<R: Records, S: Source, W: Told>(
    machine: &mut Machine,
    progress: &mut Progress,
    due: &mut DueRecords,
    records: &mut R,
    told: &mut W,
    source: &mut S,
) -> Result<bool, ReplayFault>
    requires sound { IsSound progress.old (R.seen records.old) }
    requires size { length machine.old.memory ≡ size_of_pages (R.seen records.old).pages }
    ensures follows { IsSome (S.left source.old) → GaveMore (S.left source.old) (S.given source.old) (S.left source.new)
        (S.given source.new) }
    ensures answers { IsSome (S.left source.old) → (input : List ℕ) → Begins (S.given source.new) input
        → (end : ℕ) (o : Opened) (whole : Scan) (given : List StepRec)
        → Stands o whole given machine.old progress.old (R.seen records.old).bytes
        (R.has records.old (S.given source.old) input end)
        → Arrives (W.knows told.new) o whole given machine.new progress.new (R.seen records.new).bytes
        (R.has records.new (S.given source.new) input end) due.new end
        (MayBeWhole (S.left source.new) (S.given source.new) input) (input ≡ S.given source.new) result }
    ensures sound { OnOk result (IsSound progress.new (R.seen records.new)) }
    ensures spent { IsSome (S.left source.old) → IfOk result (λ gave. OnFalse gave (R.leaves (S.left source.new))) }
    ensures at { StepsOn progress.old.at progress.new.at result }
    ensures taken { TellsTaken (W.knows told.new) result }
    ensures size { length machine.new.memory ≡ length machine.old.memory }
    ensures split { machine.new.split ≡ machine.old.split }
    ensures saved { machine.new.saved ≡ machine.old.saved }
    ensures pages { (R.seen records.new).pages ≡ (R.seen records.old).pages }
    ensures cause { HasCause ReplayFault.ReadFault (S.faults source.old) (S.faults source.new) result }
{
    if !settle_next(progress, due, records, source)? {
        return Ok(false);
    }
    keeps_rules(machine);
    if !take_step(machine, due, told)? {
        return Err(ReplayFault::Broken(progress.at));
    }
    progress.pass();
    Ok(true)
}
