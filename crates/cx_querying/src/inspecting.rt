//! The command `inspect`.

ghost use Rattle.std.specs.Prelude.{◌≡◌, List, ℕ, false, IsSome, length, map};
ghost use Rattle.std.specs.String.{string_bytes};
ghost use Rattle.cx_codec.specs.Reads.{Begins};
ghost use Rattle.cx_map.specs.Bytes.{AreBytes};
ghost use Rattle.cx_replay.specs.Records.{MayBeWhole};
ghost use Rattle.cx_words.specs.Queries.{queries_behind};
ghost use Rattle.cx_commands.specs.Call.{input_behind};
ghost use Rattle.cx_commands.specs.Doing.{Answers, CausedBy, Consumes, IsUntouched, Judges, Leaves};
ghost use Rattle.cx_commands.specs.Inspect.{inspecting};
ghost use Rattle.cx_commands.specs.Window.{IsWindowStatus};

use crate::lines::put_answers;
use crate::queries::{all_there, read_queries};
use crate::reading::read_seeker;
use cx_commands::Status;
use cx_io::{Sink, Source};
use std::alloc::Global;

/// Reads a recording to its end, runs it, and writes a line for the answer to each of the queries that the words behind
/// the name of the command are, in order. Steps that an answer needs are taken again for it.
///
/// Nothing is written before the whole input was judged and all queries were seen to be there. `NotThere` comes exactly
/// where nothing is bad in the input, and the step or the place of a query isn't there. `ReadFault` and `WriteFault`
/// come only where the count of faults of the source or of the sink rose; `NoMemory` is free. The sink is as it was
/// after every answer but `Done`, `WriteFault` and `NoMemory`; after these two it holds a front of the lines behind what
/// it held, and after `NoMemory` maybe just that.
pub fn inspect<S: Source, T: Sink>(
    alloc: Global,
    words: &[String],
    count: usize,
    source: &mut S,
    sink: &mut T,
) -> Status
    requires { count ≡ length (queries_behind (map string_bytes words.now)) }
    ensures answer { IsSome (S.left source.old) → (input : List ℕ) → Begins (S.given source.new) input
        → AreBytes (input_behind (S.given source.old) input)
        → Answers (inspecting (queries_behind (map string_bytes words.now))) (input_behind (S.given source.old) input)
        (MayBeWhole (S.left source.new) (S.given source.new) input) (input ≡ S.given source.new) result }
    ensures leaves { IsSome (S.left source.old) → (input : List ℕ) → Begins (S.given source.new) input
        → AreBytes (input_behind (S.given source.old) input)
        → Leaves (inspecting (queries_behind (map string_bytes words.now))) (input_behind (S.given source.old) input)
        (MayBeWhole (S.left source.new) (S.given source.new) input) (input ≡ S.given source.new) result
        (T.held sink.old) (T.held sink.new) }
    ensures consumes { IsSome (S.left source.old)
        → Consumes (S.left source.old) (S.given source.old) (S.left source.new) (S.given source.new)
        (Judges false result) }
    ensures kind { IsWindowStatus result }
    ensures untouched { IsUntouched false result → sink.new ≡ sink.old }
    ensures read_cause { CausedBy Status.ReadFault (S.faults source.old) (S.faults source.new) result }
    ensures write_cause { CausedBy Status.WriteFault (T.faults sink.old) (T.faults sink.new) result }
{
    let queries = match read_queries(alloc, words, count) {
        Ok(queries) => queries,
        Err(_) => return Status::NoMemory,
    };
    let mut seeker = match read_seeker(alloc, source) {
        Ok(seeker) => seeker,
        Err(status) => return status,
    };
    if !all_there(&seeker, &queries) {
        return Status::NotThere;
    }
    match put_answers(alloc, &mut seeker, &queries, sink) {
        Ok(()) => Status::Done,
        Err(fault) => Status::from(fault),
    }
}
