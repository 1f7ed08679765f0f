//! The records of a step, put by a writer.

ghost use Rattle.std.specs.Prelude.{◌≡◌, ◌≢◌, ◌+◌, ◌<◌, ◌^◌, IfSome, IsTrue, OnOk, unwrap_or};
ghost use Rattle.cx_io.specs.Cause.{HasCause};
ghost use Rattle.cx_live.specs.Seen.{due_of, transfers_of};
ghost use Rattle.cx_log.specs.declared.limits.TheConstants.{STEP_LIMIT};
ghost use Rattle.cx_machine.specs.Due.{AreLines, IsDue};
ghost use Rattle.cx_machine.specs.Transfers.{AreTransfers};
ghost use Rattle.cx_map.specs.Map.{size_of_pages};
ghost use Rattle.cx_run.specs.Driven.{is_marked};
ghost use Rattle.cx_run.specs.StepEvents.{line_events, mark_events, step_events, transfer_events, value_events};
ghost use Rattle.cx_run.specs.Taping.{Ready, Within};
ghost use Rattle.cx_record.specs.Putting.{PutsEvents};

use cx_codec::OutFault;
use cx_csr::Lines;
use cx_io::Sink;
use cx_live::Happened;
use cx_log::{Item, LogWriter, MARK_DISTANCE, What};

// Whether a mark stands at a step.
fn is_marked(step: u64) -> bool
    ensures { result ≡ is_marked step }
{
    0 < step && step % MARK_DISTANCE == 0
}

// Puts the mark of a step, where one stands there.
fn put_mark<T: Sink>(step: u64, writer: &mut LogWriter, sink: &mut T) -> Result<(), OutFault>
    requires live { IsTrue writer.old.output.live }
    requires none_owed { writer.old.left ≡ 0 }
    requires ready { Ready step writer.old.behind }
    requires small { step < STEP_LIMIT }
    ensures puts { PutsEvents (mark_events step (is_marked step)) writer.old (T.held sink.old) writer.new
        (T.held sink.new) result }
    ensures within { OnOk result (Within step 1 writer.new.behind) }
    ensures lines { OnOk result (writer.new.behind.lines ≡ writer.old.behind.lines) }
    ensures left { writer.new.left ≡ writer.old.left }
    ensures header { writer.new.header ≡ writer.old.header }
    ensures cause { HasCause OutFault.WriteFault (T.faults sink.old) (T.faults sink.new) result }
{
    if is_marked(step) {
        let what = What::Mark;
        return writer.event(&Item { step, what }, sink);
    }
    Ok(())
}

// Puts what the block device wrote to RAM before a step.
fn put_transfer<T: Sink>(
    step: u64,
    dma: Option<u32>,
    bytes: &[u8],
    writer: &mut LogWriter,
    sink: &mut T,
) -> Result<(), OutFault>
    requires live { IsTrue writer.old.output.live }
    requires none_owed { writer.old.left ≡ 0 }
    requires within { Within step 1 writer.old.behind }
    requires small { step < STEP_LIMIT }
    requires fits { AreTransfers (size_of_pages writer.old.header.pages) (transfers_of dma bytes.now) }
    ensures puts { PutsEvents (transfer_events step (transfers_of dma bytes.now)) writer.old (T.held sink.old) writer.new
        (T.held sink.new) result }
    ensures within { OnOk result (Within step 1 writer.new.behind) }
    ensures lines { OnOk result (writer.new.behind.lines ≡ writer.old.behind.lines) }
    ensures left { writer.new.left ≡ writer.old.left }
    ensures header { writer.new.header ≡ writer.old.header }
    ensures cause { HasCause OutFault.WriteFault (T.faults sink.old) (T.faults sink.new) result }
{
    if let Some(place) = dma {
        return writer.dma(step, place, bytes, sink);
    }
    Ok(())
}

// Puts the lines from a step on, where they change.
fn put_lines<T: Sink>(
    step: u64,
    lines: Option<Lines>,
    writer: &mut LogWriter,
    sink: &mut T,
) -> Result<(), OutFault>
    requires live { IsTrue writer.old.output.live }
    requires none_owed { writer.old.left ≡ 0 }
    requires within { Within step 1 writer.old.behind }
    requires small { step < STEP_LIMIT }
    requires fits { IfSome lines AreLines }
    requires change { IfSome lines (λ set. set ≢ writer.old.behind.lines) }
    ensures puts { PutsEvents (line_events step lines) writer.old (T.held sink.old) writer.new (T.held sink.new) result }
    ensures within { OnOk result (Within step 3 writer.new.behind) }
    ensures lines { OnOk result (writer.new.behind.lines ≡ unwrap_or lines writer.old.behind.lines) }
    ensures left { writer.new.left ≡ writer.old.left }
    ensures header { writer.new.header ≡ writer.old.header }
    ensures cause { HasCause OutFault.WriteFault (T.faults sink.old) (T.faults sink.new) result }
{
    if let Some(set) = lines {
        let what = What::Lines(set);
        return writer.event(&Item { step, what }, sink);
    }
    Ok(())
}

// Puts the value that a step asked for.
fn put_value<T: Sink>(
    step: u64,
    value: Option<u32>,
    writer: &mut LogWriter,
    sink: &mut T,
) -> Result<(), OutFault>
    requires live { IsTrue writer.old.output.live }
    requires none_owed { writer.old.left ≡ 0 }
    requires within { Within step 3 writer.old.behind }
    requires small { step < STEP_LIMIT }
    requires fits { IfSome value (λ v. v < 2 ^ 32) }
    ensures puts { PutsEvents (value_events step value) writer.old (T.held sink.old) writer.new (T.held sink.new) result }
    ensures within { OnOk result (Within step 4 writer.new.behind) }
    ensures lines { OnOk result (writer.new.behind.lines ≡ writer.old.behind.lines) }
    ensures left { writer.new.left ≡ writer.old.left }
    ensures header { writer.new.header ≡ writer.old.header }
    ensures cause { HasCause OutFault.WriteFault (T.faults sink.old) (T.faults sink.new) result }
{
    if let Some(value) = value {
        let what = What::Value(value);
        return writer.event(&Item { step, what }, sink);
    }
    Ok(())
}

/// Puts the records of a step, to which this was due, with these bytes of the block device.
#[inline(always)]
pub(crate) fn put_step<T: Sink>(
    step: u64,
    happened: &Happened,
    bytes: &[u8],
    writer: &mut LogWriter,
    sink: &mut T,
) -> Result<(), OutFault>
    requires live { IsTrue writer.old.output.live }
    requires none_owed { writer.old.left ≡ 0 }
    requires ready { Ready step writer.old.behind }
    requires small { step < STEP_LIMIT }
    requires due { IsDue writer.old.header.pages (due_of happened.now bytes.now) }
    requires change { IfSome happened.now.lines (λ set. set ≢ writer.old.behind.lines) }
    ensures puts { PutsEvents (step_events step (is_marked step) (due_of happened.now bytes.now)) writer.old
        (T.held sink.old) writer.new (T.held sink.new) result }
    ensures within { OnOk result (Within step 4 writer.new.behind) }
    ensures lines { OnOk result (writer.new.behind.lines ≡ unwrap_or happened.now.lines writer.old.behind.lines) }
    ensures left { writer.new.left ≡ writer.old.left }
    ensures header { writer.new.header ≡ writer.old.header }
    ensures cause { HasCause OutFault.WriteFault (T.faults sink.old) (T.faults sink.new) result }
{
    put_mark(step, writer, sink)?;
    put_transfer(step, happened.dma, bytes, writer, sink)?;
    put_lines(step, happened.lines, writer, sink)?;
    put_value(step, happened.value, writer, sink)
}
