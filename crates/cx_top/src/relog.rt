//! The command `relog`.

ghost use Rattle.std.specs.Prelude.{◌≡◌, [], List, ℕ, unwrap_or, true, false, IfErr, IsSome};
ghost use Rattle.cx_io.specs.Cause.{HasCause};
ghost use Rattle.cx_codec.specs.Reads.{Begins};
ghost use Rattle.cx_map.specs.Bytes.{AreBytes};
ghost use Rattle.cx_replay.specs.Records.{GaveMore, MayBeWhole};
ghost use Rattle.cx_commands.specs.Call.{input_behind};
ghost use Rattle.cx_commands.specs.Doing.{Answers, CausedBy, Consumes, Does, IsUntouched, Judges, Leaves, ended};
ghost use Rattle.cx_commands.specs.Relog.{relogging};
ghost use Rattle.cx_commands.specs.Streaming.{IsStreamRefusal, IsStreamStatus};

use cx_alone::Alone;
use cx_calls::Caller;
use cx_codec::Bytes;
use cx_commands::{Magic, Status};
use cx_io::{Sink, Source};
use cx_retelling::retell;
use cx_telling::read_magic;
use std::alloc::Global;

// Reads a process slice, and puts the slice by calls of what it goes through. Another magic is a bad field.
fn read_relog<S: Source, T: Sink>(alloc: Global, source: &mut S, sink: &mut T) -> Result<(), Status>
    ensures follows { IsSome (S.left source.old) → GaveMore (S.left source.old) (S.given source.old) (S.left source.new)
        (S.given source.new) }
    ensures does { IsSome (S.left source.old) → (input : List ℕ) → Begins (S.given source.new) input
        → AreBytes (input_behind (S.given source.old) input)
        → Does relogging (input_behind (S.given source.old) input)
        (MayBeWhole (S.left source.new) (S.given source.new) input) (input ≡ S.given source.new)
        (T.held sink.old) (T.held sink.new) result }
    ensures spent { IsSome (S.left source.old) → Judges true (ended result) → unwrap_or (S.left source.new) [] ≡ [] }
    ensures kind { IfErr result (IsStreamRefusal false) }
    ensures read_cause { HasCause Status.ReadFault (S.faults source.old) (S.faults source.new) result }
    ensures write_cause { HasCause Status.WriteFault (T.faults sink.old) (T.faults sink.new) result }
{
    let mut bytes = Bytes::new(alloc)?;
    let magic = read_magic(&mut bytes, source)?;
    match magic {
        Magic::Process => retell::<Alone, Caller, S, T>(alloc, bytes, source, sink),
        Magic::Recording => Err(Status::Format(0)),
        Magic::Calls => Err(Status::Format(0)),
    }
}

/// Reads a process slice, goes through it alone, and writes the slice by calls of its observations, as its steps are
/// settled.
pub(crate) fn relog<S: Source, T: Sink>(alloc: Global, source: &mut S, sink: &mut T) -> Status
    ensures answer { IsSome (S.left source.old) → (input : List ℕ) → Begins (S.given source.new) input
        → AreBytes (input_behind (S.given source.old) input)
        → Answers relogging (input_behind (S.given source.old) input)
        (MayBeWhole (S.left source.new) (S.given source.new) input) (input ≡ S.given source.new) result }
    ensures leaves { IsSome (S.left source.old) → (input : List ℕ) → Begins (S.given source.new) input
        → AreBytes (input_behind (S.given source.old) input)
        → Leaves relogging (input_behind (S.given source.old) input)
        (MayBeWhole (S.left source.new) (S.given source.new) input) (input ≡ S.given source.new) result
        (T.held sink.old) (T.held sink.new) }
    ensures consumes { IsSome (S.left source.old)
        → Consumes (S.left source.old) (S.given source.old) (S.left source.new) (S.given source.new)
        (Judges true result) }
    ensures kind { IsStreamStatus false result }
    ensures untouched { IsUntouched true result → sink.new ≡ sink.old }
    ensures read_cause { CausedBy Status.ReadFault (S.faults source.old) (S.faults source.new) result }
    ensures write_cause { CausedBy Status.WriteFault (T.faults sink.old) (T.faults sink.new) result }
{
    match read_relog(alloc, source, sink) {
        Ok(()) => Status::Done,
        Err(status) => status,
    }
}
