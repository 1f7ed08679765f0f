//! The command `trace window`.

ghost use Rattle.std.specs.Prelude.{◌≡◌, List, ℕ, false, IsSome};
ghost use Rattle.cx_io.specs.Cause.{HasCause};
ghost use Rattle.cx_codec.specs.Reads.{Begins};
ghost use Rattle.cx_log.specs.Reading.{Opened};
ghost use Rattle.cx_log.specs.Scan.{Scan};
ghost use Rattle.cx_map.specs.Bytes.{AreBytes};
ghost use Rattle.cx_replay.specs.Records.{MayBeWhole};
ghost use Rattle.cx_commands.specs.Call.{input_behind};
ghost use Rattle.cx_commands.specs.Doing.{Answers, CausedBy, Consumes, IsUntouched, Judges, Leaves};
ghost use Rattle.cx_commands.specs.Streaming.{FinishesOn};
ghost use Rattle.cx_commands.specs.TraceWindow.{tracing_window, window_lines};
ghost use Rattle.cx_commands.specs.Window.{IsWindowStatus};
ghost use Rattle.cx_window.specs.Cut.{CutsOff, IsJudged};

use crate::slice::read_slice;
use cx_codec::OutFault;
use cx_commands::Status;
use cx_io::{MemSource, Sink, Source};
use cx_tellers::Lines;
use cx_telling::{Teller, tell_all};
use cx_window::{Slice, Span};
use std::alloc::Global;

// Runs the steps of a slice again, and puts their lines. The records are kept, so nothing is read.
fn tell_again<T: Sink>(alloc: Global, slice: Slice, sink: &mut T) -> Result<(), Status>
    ensures tells { (o : Opened) (whole : Scan) (a b : ℕ) → IsJudged o whole → CutsOff o whole a b slice
        → FinishesOn (T.held sink.old) (window_lines a b o whole) (T.held sink.new) result }
    ensures cause { HasCause Status.WriteFault (T.faults sink.old) (T.faults sink.new) result }
{
    let mut source = MemSource::new(Vec::new(alloc), Vec::new(alloc));
    let mut replay = slice.replay(alloc);
    let mut lines = Lines::new(alloc)?;
    tell_all(&mut replay, &mut lines, &mut source, sink)?;
    lines.finish(replay.at(), sink)?;
    Ok(())
}

// Puts the lines of a slice. Nothing is bad in what was kept, so no step is refused; one that were would end the output
// as want of memory does.
fn put_lines<T: Sink>(alloc: Global, slice: Slice, sink: &mut T) -> Result<(), OutFault>
    ensures puts { (o : Opened) (whole : Scan) (a b : ℕ) → IsJudged o whole → CutsOff o whole a b slice
        → FinishesOn (T.held sink.old) (window_lines a b o whole) (T.held sink.new) result }
    ensures cause { HasCause OutFault.WriteFault (T.faults sink.old) (T.faults sink.new) result }
{
    match tell_again(alloc, slice, sink) {
        Ok(()) => Ok(()),
        Err(Status::WriteFault) => Err(OutFault::WriteFault),
        Err(_) => Err(OutFault::NoMemory),
    }
}

/// Reads a recording to its end, runs it, and writes the lines of the window's steps, which run once more for that.
pub(crate) fn trace_window<S: Source, T: Sink>(
    alloc: Global,
    span: Span,
    source: &mut S,
    sink: &mut T,
) -> Status
    ensures answer { IsSome (S.left source.old) → (input : List ℕ) → Begins (S.given source.new) input
        → AreBytes (input_behind (S.given source.old) input)
        → Answers (tracing_window span.from span.to) (input_behind (S.given source.old) input)
        (MayBeWhole (S.left source.new) (S.given source.new) input) (input ≡ S.given source.new) result }
    ensures leaves { IsSome (S.left source.old) → (input : List ℕ) → Begins (S.given source.new) input
        → AreBytes (input_behind (S.given source.old) input)
        → Leaves (tracing_window span.from span.to) (input_behind (S.given source.old) input)
        (MayBeWhole (S.left source.new) (S.given source.new) input) (input ≡ S.given source.new) result
        (T.held sink.old) (T.held sink.new) }
    ensures consumes { IsSome (S.left source.old)
        → Consumes (S.left source.old) (S.given source.old) (S.left source.new) (S.given source.new)
        (Judges false result) }
    ensures kind { IsWindowStatus result }
    ensures untouched { IsUntouched false result → sink.new ≡ sink.old }
    ensures read_cause { CausedBy Status.ReadFault (S.faults source.old) (S.faults source.new) result }
    ensures write_cause { CausedBy Status.WriteFault (T.faults sink.old) (T.faults sink.new) result }
{
    let slice = match read_slice(alloc, span, source) {
        Ok(slice) => slice,
        Err(status) => return status,
    };
    match put_lines(alloc, slice, sink) {
        Ok(()) => Status::Done,
        Err(fault) => Status::from(fault),
    }
}
