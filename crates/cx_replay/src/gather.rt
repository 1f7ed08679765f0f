//! Reading the records of the next step, up to the one that settles it.

ghost use Rattle.std.specs.Bool.{OnFalse};
ghost use Rattle.std.specs.Prelude.{◌≡◌, ℕ, List, ◌<◌, IfOk, OnOk, IfSome, IsSome, if◌then◌else◌};
ghost use Rattle.cx_codec.specs.Reads.{Begins};
ghost use Rattle.cx_io.specs.Cause.{HasCause};
ghost use Rattle.cx_log.specs.Item.{entry_of};
ghost use Rattle.cx_log.specs.Scan.{Scan};
ghost use Rattle.cx_replay.specs.Gathering.{GathersOn, IsAtEnd, IsGathering, IsReady, IsReadyOr, SettlesOn, TurnsOn};
ghost use Rattle.cx_replay.specs.Handing.{handed_by, marked_by};
ghost use Rattle.cx_replay.specs.Records.{GaveMore, MayBeWhole};
ghost use Rattle.cx_replay.specs.Replaying.{Gathers, IsRead, IsSound, settled_by, settles};

use crate::due::DueRecords;
use crate::fault::ReplayFault;
use crate::progress::Progress;
use crate::records::Records;
use cx_io::{NoMemory, Source};
use cx_log::{Item, What};

// Whether a record settles the step that comes next. It waits then, if it isn't End.
fn settle(progress: &mut Progress, item: &Item) -> bool
    ensures result { result ≡ settles progress.old.at item.now }
    ensures progress { progress.new ≡ (if settles progress.old.at item.now then settled_by item.now progress.old else
        progress.old) }
{
    if item.what.is_end() {
        progress.upto = item.step;
        progress.ended = true;
        progress.waiting = None;
        return true;
    }
    if progress.at < item.step {
        progress.upto = item.step;
        progress.ended = false;
        progress.waiting = Some(*item);
        return true;
    }
    false
}

// The step of the last mark, once this record was taken in.
fn marked(item: &Item, before: Option<u64>) -> Option<u64>
    ensures { (bytes : List ℕ) → result ≡ marked_by (entry_of bytes item.now) before }
{
    match item.what {
        What::Mark => Some(item.step),
        What::Dma(_) | What::Lines(_) | What::Value(_) | What::End => before,
    }
}

// Takes in a record of the next step, where a Dma has these bytes.
fn take_in(
    progress: &mut Progress,
    due: &mut DueRecords,
    item: &Item,
    bytes: &[u8],
) -> Result<(), NoMemory>
    ensures due { OnOk result (due.new ≡ handed_by (entry_of bytes.now item.now) due.old) }
    ensures progress { progress.new ≡ record progress.old {
      marked =
          marked_by (entry_of bytes.now item.now) progress.old.marked;
    } }
{
    progress.marked = marked(item, progress.marked);
    due.push(item, bytes)
}

// Reads one record, and answers whether it settles the next step; one that doesn't is taken in.
fn turn<R: Records, S: Source>(
    progress: &mut Progress,
    due: &mut DueRecords,
    records: &mut R,
    source: &mut S,
) -> Result<bool, ReplayFault>
    requires { IsGathering progress.old due.old (R.seen records.old) }
    ensures follows { IsSome (S.left source.old) → GaveMore (S.left source.old) (S.given source.old) (S.left source.new)
        (S.given source.new) }
    ensures turns { IsSome (S.left source.old) → (input : List ℕ) → Begins (S.given source.new) input
        → (end : ℕ) (whole : Scan)
        → Gathers whole progress.old.at due.old progress.old.marked (R.has records.old (S.given source.old) input end)
        → TurnsOn whole progress.new due.new (R.seen records.new).bytes (R.has records.new (S.given source.new) input
        end) end
        (MayBeWhole (S.left source.new) (S.given source.new) input) (input ≡ S.given source.new) result }
    ensures sound { IsReadyOr (IsGathering progress.new due.new (R.seen records.new)) progress.new due.new
        (R.seen records.new) result }
    ensures fewer { OnOk result ((R.seen records.new).most < (R.seen records.old).most) }
    ensures at { progress.new.at ≡ progress.old.at }
    ensures pages { (R.seen records.new).pages ≡ (R.seen records.old).pages }
    ensures cause { HasCause ReplayFault.ReadFault (S.faults source.old) (S.faults source.new) result }
{
    let item = records.next_record(source)?;
    if settle(progress, &item) {
        return Ok(true);
    }
    take_in(progress, due, &item, records.record_bytes())?;
    Ok(false)
}

// Reads up to the record that settles the next step.
fn gather<R: Records, S: Source>(
    progress: &mut Progress,
    due: &mut DueRecords,
    records: &mut R,
    source: &mut S,
) -> Result<(), ReplayFault>
    requires { IsGathering progress.old due.old (R.seen records.old) }
    ensures follows { IsSome (S.left source.old) → GaveMore (S.left source.old) (S.given source.old) (S.left source.new)
        (S.given source.new) }
    ensures gathers { IsSome (S.left source.old) → (input : List ℕ) → Begins (S.given source.new) input
        → (end : ℕ) (whole : Scan)
        → Gathers whole progress.old.at due.old progress.old.marked (R.has records.old (S.given source.old) input end)
        → GathersOn whole progress.new due.new (R.seen records.new).bytes (R.has records.new (S.given source.new) input
        end) end
        (MayBeWhole (S.left source.new) (S.given source.new) input) (input ≡ S.given source.new) result }
    ensures sound { OnOk result (IsReady progress.new due.new (R.seen records.new)) }
    ensures at { progress.new.at ≡ progress.old.at }
    ensures pages { (R.seen records.new).pages ≡ (R.seen records.old).pages }
    ensures cause { HasCause ReplayFault.ReadFault (S.faults source.old) (S.faults source.new) result }
{
    let mut settled = false;
    while !settled {
        settled = turn(progress, due, records, source)?;
    }
    Ok(())
}

// Takes in the record that waits, if one does: it is one of the next step.
fn take_waiting<R: Records>(
    progress: &mut Progress,
    due: &mut DueRecords,
    records: &R,
) -> Result<(), NoMemory>
    ensures none { progress.old.waiting ≡ None → OnOk result ((due.new ≡ due.old) × (progress.new ≡ progress.old)) }
    ensures some { IfSome progress.old.waiting
        (λ item. OnOk result ((due.new ≡ handed_by (entry_of (R.seen records.now).bytes item) due.old)
        × (progress.new ≡ record progress.old {
          marked = marked_by (entry_of (R.seen records.now).bytes item)
              progress.old.marked;
        }))) }
    ensures at { progress.new.at ≡ progress.old.at }
{
    if let Some(item) = progress.waiting {
        return take_in(progress, due, &item, records.record_bytes());
    }
    Ok(())
}

/// Settles the next step, and tells what is due to it; false where there is none: the recording was read to its end,
/// and nothing follows it.
#[inline(always)]
pub(crate) fn settle_next<R: Records, S: Source>(
    progress: &mut Progress,
    due: &mut DueRecords,
    records: &mut R,
    source: &mut S,
) -> Result<bool, ReplayFault>
    requires { IsSound progress.old (R.seen records.old) }
    ensures follows { IsSome (S.left source.old) → GaveMore (S.left source.old) (S.given source.old) (S.left source.new)
        (S.given source.new) }
    ensures settles { IsSome (S.left source.old) → (input : List ℕ) → Begins (S.given source.new) input
        → (end : ℕ) (whole : Scan)
        → IsRead whole progress.old.at progress.old (R.seen records.old).bytes (R.has records.old (S.given source.old)
        input end)
        → SettlesOn whole progress.new due.new (R.seen records.new).bytes (R.has records.new (S.given source.new) input
        end) end
        (MayBeWhole (S.left source.new) (S.given source.new) input) (input ≡ S.given source.new) result }
    ensures sound { IsReadyOr (IsAtEnd progress.old progress.new (R.seen records.old) (R.seen records.new)) progress.new
        due.new (R.seen records.new) result }
    ensures spent { IsSome (S.left source.old) → IfOk result (λ more. OnFalse more (R.leaves (S.left source.new))) }
    ensures at { progress.new.at ≡ progress.old.at }
    ensures pages { (R.seen records.new).pages ≡ (R.seen records.old).pages }
    ensures cause { HasCause ReplayFault.ReadFault (S.faults source.old) (S.faults source.new) result }
{
    due.clear();
    if progress.at < progress.upto {
        return Ok(true);
    }
    if progress.ended {
        records.see_end(source)?;
        return Ok(false);
    }
    take_waiting(progress, due, records)?;
    gather(progress, due, records, source)?;
    Ok(true)
}
