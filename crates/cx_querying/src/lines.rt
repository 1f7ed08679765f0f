//! The lines of the answers to queries.

ghost use Rattle.std.specs.List.{list_all};
ghost use Rattle.std.specs.Prelude.{◌≡◌, ◌<◌, ◌++◌, ℕ, List, Option, true, IsTrue, OnOk};
ghost use Rattle.cx_answer.specs.AnswerOf.{answer_of, is_query_there};
ghost use Rattle.cx_answer.specs.Lines.{answer_line, answer_lines};
ghost use Rattle.cx_codec.specs.Blocks.{StandsFor};
ghost use Rattle.cx_io.specs.Cause.{HasCause};
ghost use Rattle.cx_log.specs.Recording.{Recording};
ghost use Rattle.cx_seek.specs.Seeking.{IsOf, IsSameCourse};
ghost use Rattle.cx_commands.specs.Streaming.{FinishesOn, TellsOn};

use cx_answer::{answer, answer_line};
use cx_codec::{Out, OutFault};
use cx_hart::Steps;
use cx_io::Sink;
use cx_seek::{SeekFault, Seeker};
use cx_words::Query;
use std::alloc::Global;
use std::marker::Brand;
use std::sync::ledger::{Blank, Ledger};

// Puts the line of the answer to a query that is there.
fn put_line<L: Ledger, T: Sink>(
    seeker: &mut Seeker,
    query: &Query,
    steps: &mut Steps<L>,
    out: &mut Out,
    sink: &mut T,
) -> Result<(), OutFault>
    requires live { IsTrue out.old.live }
    requires there { is_query_there seeker.old.course.base seeker.old.course.end seeker.old.course.pages query.now
        ≡ true }
    ensures puts { (R : Recording) (base : Option (List ℕ)) (put : List ℕ) → IsOf R seeker.old
        → StandsFor base put out.old.bytes (T.held sink.old)
        → TellsOn base (put ++ answer_line query.now (answer_of R query.now)) out.new.bytes (T.held sink.new)
        (IsOf R seeker.new) result }
    ensures same { IsSameCourse seeker.old seeker.new }
    ensures live { OnOk result (IsTrue out.new.live) }
    ensures cause { HasCause OutFault.WriteFault (T.faults sink.old) (T.faults sink.new) result }
{
    let given = match answer(seeker, query, steps) {
        Ok(given) => given,
        Err(SeekFault::NoMemory) => return Err(OutFault::NoMemory),
        Err(SeekFault::NotThere) => unreachable!(),
    };
    answer_line(out, query, &given, sink)
}

// Puts the lines of the answers to queries that are there, in order.
fn put_lines<L: Ledger, T: Sink>(
    seeker: &mut Seeker,
    queries: &[Query],
    steps: &mut Steps<L>,
    out: &mut Out,
    sink: &mut T,
) -> Result<(), OutFault>
    requires live { IsTrue out.old.live }
    requires there { list_all (is_query_there seeker.old.course.base seeker.old.course.end seeker.old.course.pages)
        queries.now ≡ true }
    ensures puts { (R : Recording) (base : Option (List ℕ)) (put : List ℕ) → IsOf R seeker.old
        → StandsFor base put out.old.bytes (T.held sink.old)
        → TellsOn base (put ++ answer_lines R queries.now) out.new.bytes (T.held sink.new) (IsOf R seeker.new) result }
    ensures live { OnOk result (IsTrue out.new.live) }
    ensures cause { HasCause OutFault.WriteFault (T.faults sink.old) (T.faults sink.new) result }
{
    for index in 0..queries.len() {
        put_line(seeker, &queries[index], steps, out, sink)?;
    }
    Ok(())
}

// Puts the lines, and counts the steps that are taken again for them.
fn put_counted<L: Ledger, T: Sink>(
    alloc: Global,
    seeker: &mut Seeker,
    queries: &[Query],
    sink: &mut T,
    blank: Blank,
) -> Result<(), OutFault>
    requires there { list_all (is_query_there seeker.old.course.base seeker.old.course.end seeker.old.course.pages)
        queries.now ≡ true }
    requires name { blank.name ≡ L.name }
    requires parts { blank.parts ≡ L.parts }
    requires some { 0 < blank.parts }
    ensures puts { (R : Recording) → IsOf R seeker.old
        → FinishesOn (T.held sink.old) (answer_lines R queries.now) (T.held sink.new) result }
    ensures cause { HasCause OutFault.WriteFault (T.faults sink.old) (T.faults sink.new) result }
{
    let mut steps: Steps<L> = Steps::none(blank);
    let mut out = Out::new(alloc)?;
    put_lines(seeker, queries, &mut steps, &mut out, sink)?;
    out.finish(sink)
}

/// Puts the lines of the answers to queries that are there, in order, and hands all to the sink. `WriteFault` comes
/// only where the sink's count of faults rose.
pub(crate) fn put_answers<T: Sink>(
    alloc: Global,
    seeker: &mut Seeker,
    queries: &[Query],
    sink: &mut T,
) -> Result<(), OutFault>
    requires there { list_all (is_query_there seeker.old.course.base seeker.old.course.end seeker.old.course.pages)
        queries.now ≡ true }
    ensures puts { (R : Recording) → IsOf R seeker.old
        → FinishesOn (T.held sink.old) (answer_lines R queries.now) (T.held sink.new) result }
    ensures cause { HasCause OutFault.WriteFault (T.faults sink.old) (T.faults sink.new) result }
{
    put_counted::<Brand, T>(alloc, seeker, queries, sink, Blank::new(1))
}
