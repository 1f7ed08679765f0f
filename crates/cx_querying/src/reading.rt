//! Reading a recording to its end, so that queries about it can be answered.

ghost use Rattle.std.specs.Prelude.{◌≡◌, List, ℕ, IfErr, IsSome, Ok};
ghost use Rattle.cx_io.specs.Cause.{HasCause};
ghost use Rattle.cx_codec.specs.Reads.{Begins, over, place_in};
ghost use Rattle.cx_log.specs.Reading.{start_of};
ghost use Rattle.cx_machine.specs.Machine.{IsMemory};
ghost use Rattle.cx_map.specs.Bytes.{AreBytes};
ghost use Rattle.cx_replay.specs.LogRecords.{IsBegun};
ghost use Rattle.cx_replay.specs.Records.{MayBeWhole};
ghost use Rattle.cx_words.specs.declared.question.Query.{Query};
ghost use Rattle.cx_commands.specs.Call.{input_behind};
ghost use Rattle.cx_commands.specs.Doing.{Consumes};
ghost use Rattle.cx_commands.specs.Inspect.{ReadsSeeker};
ghost use Rattle.cx_commands.specs.Opening.{begun_at};
ghost use Rattle.cx_commands.specs.Window.{IsReadRefusal, ReadAll};

use cx_commands::Status;
use cx_io::Source;
use cx_replay::Replay;
use cx_seek::Seeker;
use cx_telling::{Opening, open};
use std::alloc::Global;

// Reads the records of an opened recording, runs it, and keeps what seeking needs of it.
fn seek_opened<S: Source>(alloc: Global, opening: Opening, source: &mut S) -> Result<Seeker, Status>
    requires begun { IsBegun opening.reader }
    requires state { opening.machine.state ≡ opening.reader.header.start }
    requires memory { IsMemory opening.reader.header.pages opening.machine.memory }
    requires split { opening.machine.split ≡ opening.reader.header.split }
    ensures reads { IsSome (S.left source.old) → (queries : List Query) (input bytes : List ℕ)
        → Begins (S.given source.new) input → AreBytes bytes
        → begun_at (start_of bytes) ≡ Ok (
          record { header = opening.reader.header; memory = opening.machine.memory },
          place_in (over opening.reader.input (S.left source.old) (S.given source.old)) input,
        )
        → ReadsSeeker queries bytes (MayBeWhole (S.left source.new) (S.given source.new) input)
        (input ≡ S.given source.new) result }
    ensures consumes { IsSome (S.left source.old)
        → Consumes (S.left source.old) (S.given source.old) (S.left source.new) (S.given source.new) (ReadAll result) }
    ensures kind { IfErr result IsReadRefusal }
    ensures cause { HasCause Status.ReadFault (S.faults source.old) (S.faults source.new) result }
{
    let Opening { reader, machine } = opening;
    let header = *reader.header();
    let replay = Replay::of_log(alloc, reader, machine);
    let seeker = Seeker::open(alloc, replay, &header, source)?;
    Ok(seeker)
}

/// Reads a whole recording, runs it, and keeps what seeking needs of it.
pub(crate) fn read_seeker<S: Source>(alloc: Global, source: &mut S) -> Result<Seeker, Status>
    ensures reads { IsSome (S.left source.old) → (queries : List Query) (input : List ℕ)
        → Begins (S.given source.new) input → AreBytes (input_behind (S.given source.old) input)
        → ReadsSeeker queries (input_behind (S.given source.old) input)
        (MayBeWhole (S.left source.new) (S.given source.new) input) (input ≡ S.given source.new) result }
    ensures consumes { IsSome (S.left source.old)
        → Consumes (S.left source.old) (S.given source.old) (S.left source.new) (S.given source.new) (ReadAll result) }
    ensures kind { IfErr result IsReadRefusal }
    ensures cause { HasCause Status.ReadFault (S.faults source.old) (S.faults source.new) result }
{
    let opening = open(alloc, source)?;
    seek_opened(alloc, opening, source)
}
