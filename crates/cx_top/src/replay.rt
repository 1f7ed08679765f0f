//! The command `replay`.

ghost use Rattle.std.specs.Prelude.{◌≡◌, [], List, ℕ, unwrap_or, true, false, IfErr, IsSome, IsTrue};
ghost use Rattle.cx_io.specs.Cause.{HasCause};
ghost use Rattle.cx_codec.specs.Place.{end_of};
ghost use Rattle.cx_codec.specs.Reads.{Begins, over, place_in};
ghost use Rattle.cx_log.specs.Reading.{start_of};
ghost use Rattle.cx_map.specs.Bytes.{AreBytes};
ghost use Rattle.cx_replay.specs.Records.{GaveMore, MayBeWhole};
ghost use Rattle.cx_commands.specs.Call.{input_behind};
ghost use Rattle.cx_commands.specs.Doing.{Answers, CausedBy, Consumes, Does, IsUntouched, Judges, Leaves, ended};
ghost use Rattle.cx_commands.specs.Opening.{begun_at, behind_magic_at};
ghost use Rattle.cx_commands.specs.Replay.{replaying};
ghost use Rattle.cx_commands.specs.Streaming.{IsStreamRefusal, IsStreamStatus};
ghost use Rattle.cx_commands.specs.Trace.{tracing};

use cx_alone::Alone;
use cx_call_alone::CallAlone;
use cx_codec::Bytes;
use cx_commands::{Magic, Status};
use cx_io::{Sink, Source};
use cx_retelling::retell;
use cx_tellers::{Lines, ObservationLines};
use cx_telling::{open_behind, read_magic, run_opened};
use std::alloc::Global;

// Reads a recording behind its magic, and puts the lines of its steps.
fn replay_recording<S: Source, T: Sink>(
    alloc: Global,
    bytes: Bytes,
    source: &mut S,
    sink: &mut T,
) -> Result<(), Status>
    requires live { IsTrue bytes.live }
    ensures follows { IsSome (S.left source.old) → GaveMore (S.left source.old) (S.given source.old) (S.left source.new)
        (S.given source.new) }
    ensures does { IsSome (S.left source.old) → (input text : List ℕ) → Begins (S.given source.new) input
        → AreBytes text
        → begun_at (start_of text)
        ≡ behind_magic_at (place_in (over bytes (S.left source.old) (S.given source.old)) input)
        → end_of (start_of text) ≡ end_of (place_in (over bytes (S.left source.old) (S.given source.old)) input)
        → Does tracing text (MayBeWhole (S.left source.new) (S.given source.new) input)
        (input ≡ S.given source.new) (T.held sink.old) (T.held sink.new) result }
    ensures spent { IsSome (S.left source.old) → Judges true (ended result) → unwrap_or (S.left source.new) [] ≡ [] }
    ensures kind { IfErr result (IsStreamRefusal false) }
    ensures read_cause { HasCause Status.ReadFault (S.faults source.old) (S.faults source.new) result }
    ensures write_cause { HasCause Status.WriteFault (T.faults sink.old) (T.faults sink.new) result }
{
    let opening = open_behind(alloc, bytes, source)?;
    run_opened::<Lines, S, T>(alloc, (), opening, source, sink)
}

// Reads an input, by its magic, and puts the lines of its steps or of its observations.
fn read_replay<S: Source, T: Sink>(
    alloc: Global,
    source: &mut S,
    sink: &mut T,
) -> Result<(), Status>
    ensures follows { IsSome (S.left source.old) → GaveMore (S.left source.old) (S.given source.old) (S.left source.new)
        (S.given source.new) }
    ensures does { IsSome (S.left source.old) → (input : List ℕ) → Begins (S.given source.new) input
        → AreBytes (input_behind (S.given source.old) input)
        → Does replaying (input_behind (S.given source.old) input)
        (MayBeWhole (S.left source.new) (S.given source.new) input) (input ≡ S.given source.new)
        (T.held sink.old) (T.held sink.new) result }
    ensures spent { IsSome (S.left source.old) → Judges true (ended result) → unwrap_or (S.left source.new) [] ≡ [] }
    ensures kind { IfErr result (IsStreamRefusal false) }
    ensures read_cause { HasCause Status.ReadFault (S.faults source.old) (S.faults source.new) result }
    ensures write_cause { HasCause Status.WriteFault (T.faults sink.old) (T.faults sink.new) result }
{
    let mut bytes = Bytes::new(alloc)?;
    let magic = read_magic(&mut bytes, source)?;
    match magic {
        Magic::Recording => replay_recording(alloc, bytes, source, sink),
        Magic::Process => retell::<Alone, ObservationLines, S, T>(alloc, bytes, source, sink),
        Magic::Calls => retell::<CallAlone, ObservationLines, S, T>(alloc, bytes, source, sink),
    }
}

/// Reads an input, runs it, and writes a line for each step, as the steps are settled: of a recording that of the step,
/// and of a slice of either kind that of its observation.
pub(crate) fn replay<S: Source, T: Sink>(alloc: Global, source: &mut S, sink: &mut T) -> Status
    ensures answer { IsSome (S.left source.old) → (input : List ℕ) → Begins (S.given source.new) input
        → AreBytes (input_behind (S.given source.old) input)
        → Answers replaying (input_behind (S.given source.old) input)
        (MayBeWhole (S.left source.new) (S.given source.new) input) (input ≡ S.given source.new) result }
    ensures leaves { IsSome (S.left source.old) → (input : List ℕ) → Begins (S.given source.new) input
        → AreBytes (input_behind (S.given source.old) input)
        → Leaves replaying (input_behind (S.given source.old) input)
        (MayBeWhole (S.left source.new) (S.given source.new) input) (input ≡ S.given source.new) result
        (T.held sink.old) (T.held sink.new) }
    ensures consumes { IsSome (S.left source.old)
        → Consumes (S.left source.old) (S.given source.old) (S.left source.new) (S.given source.new)
        (Judges true result) }
    ensures kind { IsStreamStatus false result }
    ensures untouched { IsUntouched true result → sink.new ≡ sink.old }
    ensures read_cause { CausedBy Status.ReadFault (S.faults source.old) (S.faults source.new) result }
    ensures write_cause { CausedBy Status.WriteFault (T.faults sink.old) (T.faults sink.new) result }
{
    match read_replay(alloc, source, sink) {
        Ok(()) => Status::Done,
        Err(status) => status,
    }
}
