//! The lines of answers.

ghost use Rattle.std.specs.Prelude.{◌≡◌, ◌+◌, ◌≤◌, ◌++◌, length, true, IsTrue};
ghost use Rattle.cx_codec.specs.Puts.{Puts, onto};
ghost use Rattle.cx_print.specs.declared.line.TheConstants.{LINE_CAPACITY};
ghost use Rattle.cx_answer.specs.Lines.{answer_line, byte_line, is_listed, touch_text, trap_line, trap_text};

use crate::reply::Answer;
use cx_codec::{Out, OutFault};
use cx_io::Sink;
use cx_print::{Line, put_ended, state_line, word_digits};
use cx_words::Query;

// Appends which step or transfer touched a byte.
fn put_touch(line: &mut Line, answer: &Answer)
    requires { length line.old + 26 ≤ LINE_CAPACITY }
    ensures text { line.new ≡ line.old ++ touch_text answer.now }
    ensures room { length line.new ≤ length line.old + 26 }
{
    match answer {
        Answer::State(_) => {}
        Answer::Step(step, _) => {
            line.push_bytes(b" step ");
            line.push_decimal(*step);
        }
        Answer::Dma(step) => {
            line.push_bytes(b" dma ");
            line.push_decimal(*step);
        }
        Answer::Nothing => line.push_bytes(b" none"),
    }
}

// Appends which step took a trap, and how it ended.
fn put_trap(line: &mut Line, answer: &Answer)
    requires { length line.old + 47 ≤ LINE_CAPACITY }
    ensures text { line.new ≡ line.old ++ trap_text answer.now }
    ensures room { length line.new ≤ length line.old + 47 }
{
    match answer {
        Answer::State(_) | Answer::Dma(_) => {}
        Answer::Step(step, ended) => {
            line.push_bytes(b" step ");
            line.push_decimal(*step);
            line.push_bytes(b" ");
            put_ended(line, *ended);
        }
        Answer::Nothing => line.push_bytes(b" none"),
    }
}

// The line of what touched a byte, behind the name of the query.
fn byte_text(name: &[u8; 7], place: u32, n: u64, answer: &Answer) -> Line
    ensures { result ≡ byte_line name.now n place answer.now }
{
    let mut line = Line::new();
    line.push_bytes(name);
    line.push_bytes(&word_digits(place));
    line.push_bytes(b" ");
    line.push_decimal(n);
    put_touch(&mut line, answer);
    line.push_bytes(b"\n");
    line
}

// The line of the trap before a step.
fn trap_text(n: u64, answer: &Answer) -> Line
    ensures { result ≡ trap_line n answer.now }
{
    let mut line = Line::new();
    line.push_bytes(b"trap ");
    line.push_decimal(n);
    put_trap(&mut line, answer);
    line.push_bytes(b"\n");
    line
}

/// Puts the line of an answer that its query may have. It is refused as bytes are.
#[tactic(auto, unfolding(crate::specs::Lines::answer_line))]
pub fn answer_line<T: Sink>(
    out: &mut Out,
    query: &Query,
    answer: &Answer,
    sink: &mut T,
) -> Result<(), OutFault>
    requires live { IsTrue out.old.live }
    requires listed { is_listed query.now answer.now ≡ true }
    ensures { Puts OutFault.WriteFault (answer_line query.now answer.now)
        (onto out.old (T.held sink.old) (T.faults sink.old))
        (onto out.new (T.held sink.new) (T.faults sink.new)) result }
{
    match query {
        Query::State(n) => match answer {
            Answer::State(state) => state_line(out, *n, state, sink),
            Answer::Step(_, _) | Answer::Dma(_) | Answer::Nothing => unreachable!(),
        },
        Query::Writer(place, n) => out.put_bytes(
            byte_text(b"writer ", *place, *n, answer).bytes(),
            sink,
        ),
        Query::Reader(place, n) => out.put_bytes(
            byte_text(b"reader ", *place, *n, answer).bytes(),
            sink,
        ),
        Query::Trap(n) => out.put_bytes(trap_text(*n, answer).bytes(), sink),
    }
}
