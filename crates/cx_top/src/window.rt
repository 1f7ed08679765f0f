//! The command `window`.

ghost use Rattle.std.specs.Prelude.{◌≡◌, List, ℕ, false, IsSome};
ghost use Rattle.cx_codec.specs.Reads.{Begins};
ghost use Rattle.cx_map.specs.Bytes.{AreBytes};
ghost use Rattle.cx_replay.specs.Records.{MayBeWhole};
ghost use Rattle.cx_commands.specs.Call.{input_behind};
ghost use Rattle.cx_commands.specs.Doing.{Answers, CausedBy, Consumes, IsUntouched, Judges, Leaves};
ghost use Rattle.cx_commands.specs.Window.{IsWindowStatus, windowed};

use crate::slice::read_slice;
use cx_commands::Status;
use cx_io::{Sink, Source};
use cx_window::Span;
use std::alloc::Global;

/// Reads a recording, runs it, and writes the window of it.
pub(crate) fn window<S: Source, T: Sink>(
    alloc: Global,
    span: Span,
    source: &mut S,
    sink: &mut T,
) -> Status
    ensures answer { IsSome (S.left source.old) → (input : List ℕ) → Begins (S.given source.new) input
        → AreBytes (input_behind (S.given source.old) input)
        → Answers (windowed span.from span.to) (input_behind (S.given source.old) input)
        (MayBeWhole (S.left source.new) (S.given source.new) input) (input ≡ S.given source.new) result }
    ensures leaves { IsSome (S.left source.old) → (input : List ℕ) → Begins (S.given source.new) input
        → AreBytes (input_behind (S.given source.old) input)
        → Leaves (windowed span.from span.to) (input_behind (S.given source.old) input)
        (MayBeWhole (S.left source.new) (S.given source.new) input) (input ≡ S.given source.new) result
        (T.held sink.old) (T.held sink.new) }
    ensures consumes { IsSome (S.left source.old)
        → Consumes (S.left source.old) (S.given source.old) (S.left source.new) (S.given source.new)
        (Judges false result) }
    ensures kind { IsWindowStatus result }
    ensures untouched { IsUntouched false result → sink.new ≡ sink.old }
    ensures read_cause { CausedBy Status.ReadFault (S.faults source.old) (S.faults source.new) result }
    ensures write_cause { CausedBy Status.WriteFault (T.faults sink.old) (T.faults sink.new) result }
{
    let slice = match read_slice(alloc, span, source) {
        Ok(slice) => slice,
        Err(status) => return status,
    };
    match slice.write(alloc, sink) {
        Ok(()) => Status::Done,
        Err(fault) => Status::from(fault),
    }
}
