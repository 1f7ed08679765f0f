//! The command `roots`.

ghost use Rattle.std.specs.Prelude.{◌≡◌, List, ℕ, false, IfErr, IsSome, Ok};
ghost use Rattle.cx_io.specs.Cause.{HasCause};
ghost use Rattle.cx_codec.specs.Reads.{Begins, over, place_in};
ghost use Rattle.cx_inspect.specs.Lines.{root_lines};
ghost use Rattle.cx_log.specs.Reading.{start_of};
ghost use Rattle.cx_machine.specs.Machine.{IsMemory};
ghost use Rattle.cx_map.specs.Bytes.{AreBytes};
ghost use Rattle.cx_replay.specs.LogRecords.{IsBegun};
ghost use Rattle.cx_replay.specs.Records.{MayBeWhole};
ghost use Rattle.cx_commands.specs.Call.{input_behind};
ghost use Rattle.cx_commands.specs.Doing.{Answers, CausedBy, Consumes, IsUntouched, Judges, Leaves};
ghost use Rattle.cx_commands.specs.Opening.{begun_at};
ghost use Rattle.cx_commands.specs.Roots.{IsCountRefusal, ReadsRoots, listing_roots, without_sink};
ghost use Rattle.cx_commands.specs.Streaming.{FinishesOn, IsStreamStatus};
ghost use Rattle.cx_commands.specs.Window.{ReadAll};

use cx_codec::{Out, OutFault};
use cx_commands::Status;
use cx_inspect::Roots;
use cx_io::{MemSink, Sink, Source};
use cx_replay::Replay;
use cx_tellers::Counting;
use cx_telling::{Opening, open, tell_all};
use std::alloc::Global;

// Nothing is put while the roots are counted, so no sink fails; one that did would end the call as want of memory does.
fn without_sink(status: Status) -> Status
    ensures { result ≡ without_sink status }
{
    match status {
        Status::WriteFault => Status::NoMemory,
        _ => status,
    }
}

// Reads the records of an opened recording, runs it, and takes the roots of its steps in.
fn count_opened<S: Source>(alloc: Global, opening: Opening, source: &mut S) -> Result<Roots, Status>
    requires begun { IsBegun opening.reader }
    requires state { opening.machine.state ≡ opening.reader.header.start }
    requires memory { IsMemory opening.reader.header.pages opening.machine.memory }
    requires split { opening.machine.split ≡ opening.reader.header.split }
    ensures reads { IsSome (S.left source.old) → (input bytes : List ℕ)
        → Begins (S.given source.new) input → AreBytes bytes
        → begun_at (start_of bytes) ≡ Ok (
          record { header = opening.reader.header; memory = opening.machine.memory },
          place_in (over opening.reader.input (S.left source.old) (S.given source.old)) input,
        )
        → ReadsRoots bytes (MayBeWhole (S.left source.new) (S.given source.new) input)
        (input ≡ S.given source.new) result }
    ensures consumes { IsSome (S.left source.old)
        → Consumes (S.left source.old) (S.given source.old) (S.left source.new) (S.given source.new) (ReadAll result) }
    ensures kind { IfErr result IsCountRefusal }
    ensures cause { HasCause Status.ReadFault (S.faults source.old) (S.faults source.new) result }
{
    let Opening { reader, machine } = opening;
    let mut replay = Replay::of_log(alloc, reader, machine);
    let mut counting = Counting::new(alloc);
    let mut nowhere = MemSink::new(alloc, Vec::new(alloc));
    match tell_all(&mut replay, &mut counting, source, &mut nowhere) {
        Ok(()) => Ok(counting.into_roots()),
        Err(status) => Err(without_sink(status)),
    }
}

/// Reads a whole recording, runs it, and takes the roots of its steps in.
fn read_roots<S: Source>(alloc: Global, source: &mut S) -> Result<Roots, Status>
    ensures reads { IsSome (S.left source.old) → (input : List ℕ)
        → Begins (S.given source.new) input → AreBytes (input_behind (S.given source.old) input)
        → ReadsRoots (input_behind (S.given source.old) input)
        (MayBeWhole (S.left source.new) (S.given source.new) input) (input ≡ S.given source.new) result }
    ensures consumes { IsSome (S.left source.old)
        → Consumes (S.left source.old) (S.given source.old) (S.left source.new) (S.given source.new) (ReadAll result) }
    ensures kind { IfErr result IsCountRefusal }
    ensures cause { HasCause Status.ReadFault (S.faults source.old) (S.faults source.new) result }
{
    let opening = open(alloc, source)?;
    count_opened(alloc, opening, source)
}

// Puts the lines of the roots.
fn put_roots<T: Sink>(alloc: Global, roots: &Roots, sink: &mut T) -> Result<(), OutFault>
    ensures puts { FinishesOn (T.held sink.old) (root_lines roots.now) (T.held sink.new) result }
    ensures cause { HasCause OutFault.WriteFault (T.faults sink.old) (T.faults sink.new) result }
{
    let mut out = Out::new(alloc)?;
    roots.put_lines(&mut out, sink)?;
    out.finish(sink)
}

/// Reads a recording to its end, runs it, and writes the lines of the roots that occur in it.
pub(crate) fn roots<S: Source, T: Sink>(alloc: Global, source: &mut S, sink: &mut T) -> Status
    ensures answer { IsSome (S.left source.old) → (input : List ℕ) → Begins (S.given source.new) input
        → AreBytes (input_behind (S.given source.old) input)
        → Answers listing_roots (input_behind (S.given source.old) input)
        (MayBeWhole (S.left source.new) (S.given source.new) input) (input ≡ S.given source.new) result }
    ensures leaves { IsSome (S.left source.old) → (input : List ℕ) → Begins (S.given source.new) input
        → AreBytes (input_behind (S.given source.old) input)
        → Leaves listing_roots (input_behind (S.given source.old) input)
        (MayBeWhole (S.left source.new) (S.given source.new) input) (input ≡ S.given source.new) result
        (T.held sink.old) (T.held sink.new) }
    ensures consumes { IsSome (S.left source.old)
        → Consumes (S.left source.old) (S.given source.old) (S.left source.new) (S.given source.new)
        (Judges false result) }
    ensures kind { IsStreamStatus false result }
    ensures untouched { IsUntouched false result → sink.new ≡ sink.old }
    ensures read_cause { CausedBy Status.ReadFault (S.faults source.old) (S.faults source.new) result }
    ensures write_cause { CausedBy Status.WriteFault (T.faults sink.old) (T.faults sink.new) result }
{
    let roots = match read_roots(alloc, source) {
        Ok(roots) => roots,
        Err(status) => return status,
    };
    match put_roots(alloc, &roots, sink) {
        Ok(()) => Status::Done,
        Err(fault) => Status::from(fault),
    }
}
