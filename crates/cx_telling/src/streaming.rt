//! Commands that read a recording, and write as its steps are settled.

ghost use Rattle.std.specs.Prelude.{◌≡◌, [], List, ℕ, unwrap_or, true, IfErr, IsSome, Ok};
ghost use Rattle.cx_io.specs.Cause.{HasCause};
ghost use Rattle.cx_codec.specs.Reads.{Begins, over, place_in};
ghost use Rattle.cx_log.specs.Reading.{start_of};
ghost use Rattle.cx_machine.specs.Machine.{IsMemory};
ghost use Rattle.cx_map.specs.Bytes.{AreBytes};
ghost use Rattle.cx_replay.specs.LogRecords.{IsBegun};
ghost use Rattle.cx_replay.specs.Records.{GaveMore, MayBeWhole};
ghost use Rattle.cx_commands.specs.Call.{input_behind};
ghost use Rattle.cx_commands.specs.Doing.{Answers, CausedBy, Consumes, Does, IsUntouched, Judges, Leaves, ended};
ghost use Rattle.cx_commands.specs.Opening.{begun_at};
ghost use Rattle.cx_commands.specs.Streaming.{IsStreamRefusal, IsStreamStatus, sought};

use crate::opening::{Opening, open};
use crate::telling::{Teller, tell_run};
use cx_commands::Status;
use cx_io::{Sink, Source};
use cx_replay::Replay;
use std::alloc::Global;

/// Runs an opened recording, and tells its steps.
pub fn run_opened<W: Teller, S: Source, T: Sink>(
    alloc: Global,
    asked: W::Asked,
    opening: Opening,
    source: &mut S,
    sink: &mut T,
) -> Result<(), Status>
    requires begun { IsBegun opening.reader }
    requires state { opening.machine.state ≡ opening.reader.header.start }
    requires memory { IsMemory opening.reader.header.pages opening.machine.memory }
    requires split { opening.machine.split ≡ opening.reader.header.split }
    ensures follows { IsSome (S.left source.old) → GaveMore (S.left source.old) (S.given source.old) (S.left source.new)
        (S.given source.new) }
    ensures does { IsSome (S.left source.old) → (input bytes : List ℕ) → Begins (S.given source.new) input
        → AreBytes bytes
        → begun_at (start_of bytes) ≡ Ok (
          record { header = opening.reader.header; memory = opening.machine.memory },
          place_in (over opening.reader.input (S.left source.old) (S.given source.old)) input,
        )
        → Does (sought (W.there asked) (W.text asked) (W.full asked)) bytes (MayBeWhole (S.left source.new) (S.given source.new) input)
        (input ≡ S.given source.new) (T.held sink.old) (T.held sink.new) result }
    ensures spent { IsSome (S.left source.old) → Judges true (ended result) → unwrap_or (S.left source.new) [] ≡ [] }
    ensures kind { IfErr result (IsStreamRefusal W.seeks) }
    ensures read_cause { HasCause Status.ReadFault (S.faults source.old) (S.faults source.new) result }
    ensures write_cause { HasCause Status.WriteFault (T.faults sink.old) (T.faults sink.new) result }
{
    let Opening { reader, machine } = opening;
    let teller = W::start(alloc, asked, reader.header(), &machine, sink)?;
    let replay = Replay::of_log(alloc, reader, machine);
    tell_run(replay, teller, source, sink)
}

// Reads a recording, runs it, and tells its steps.
fn read_run<W: Teller, S: Source, T: Sink>(
    alloc: Global,
    asked: W::Asked,
    source: &mut S,
    sink: &mut T,
) -> Result<(), Status>
    ensures follows { IsSome (S.left source.old) → GaveMore (S.left source.old) (S.given source.old) (S.left source.new)
        (S.given source.new) }
    ensures does { IsSome (S.left source.old) → (input : List ℕ) → Begins (S.given source.new) input
        → AreBytes (input_behind (S.given source.old) input)
        → Does (sought (W.there asked) (W.text asked) (W.full asked)) (input_behind (S.given source.old) input)
        (MayBeWhole (S.left source.new) (S.given source.new) input) (input ≡ S.given source.new)
        (T.held sink.old) (T.held sink.new) result }
    ensures spent { IsSome (S.left source.old) → Judges true (ended result) → unwrap_or (S.left source.new) [] ≡ [] }
    ensures kind { IfErr result (IsStreamRefusal W.seeks) }
    ensures read_cause { HasCause Status.ReadFault (S.faults source.old) (S.faults source.new) result }
    ensures write_cause { HasCause Status.WriteFault (T.faults sink.old) (T.faults sink.new) result }
{
    let opening = open(alloc, source)?;
    run_opened::<W, S, T>(alloc, asked, opening, source, sink)
}

/// The command that reads a recording, runs it, and tells its steps as they are settled. `NotThere` comes exactly where
/// nothing is bad in the recording, and what the teller seeks isn't among its steps.
pub fn stream<W: Teller, S: Source, T: Sink>(
    alloc: Global,
    asked: W::Asked,
    source: &mut S,
    sink: &mut T,
) -> Status
    ensures answer { IsSome (S.left source.old) → (input : List ℕ) → Begins (S.given source.new) input
        → AreBytes (input_behind (S.given source.old) input)
        → Answers (sought (W.there asked) (W.text asked) (W.full asked)) (input_behind (S.given source.old) input)
        (MayBeWhole (S.left source.new) (S.given source.new) input) (input ≡ S.given source.new) result }
    ensures leaves { IsSome (S.left source.old) → (input : List ℕ) → Begins (S.given source.new) input
        → AreBytes (input_behind (S.given source.old) input)
        → Leaves (sought (W.there asked) (W.text asked) (W.full asked)) (input_behind (S.given source.old) input)
        (MayBeWhole (S.left source.new) (S.given source.new) input) (input ≡ S.given source.new) result
        (T.held sink.old) (T.held sink.new) }
    ensures consumes { IsSome (S.left source.old)
        → Consumes (S.left source.old) (S.given source.old) (S.left source.new) (S.given source.new)
        (Judges true result) }
    ensures kind { IsStreamStatus W.seeks result }
    ensures untouched { IsUntouched true result → sink.new ≡ sink.old }
    ensures read_cause { CausedBy Status.ReadFault (S.faults source.old) (S.faults source.new) result }
    ensures write_cause { CausedBy Status.WriteFault (T.faults sink.old) (T.faults sink.new) result }
{
    match read_run::<W, S, T>(alloc, asked, source, sink) {
        Ok(()) => Status::Done,
        Err(status) => status,
    }
}
