//! The lines of steps and states.

ghost use Rattle.std.specs.Prelude.{◌≡◌, ◌≤◌, length, IsTrue};
ghost use Rattle.cx_codec.specs.Puts.{Puts, onto};
ghost use Rattle.cx_print.specs.Lines.{state_line, step_line};
ghost use Rattle.cx_print.specs.declared.line.TheConstants.{LINE_CAPACITY};

use crate::line::{Line, put_access, put_ended, put_fetch, put_value, put_words};
use cx_codec::{Out, OutFault};
use cx_csr::State;
use cx_hart::StepRec;
use cx_io::Sink;

/// The line of a step.
#[tactic(auto, unfolding(crate::specs::Lines::step_line))]
pub(crate) fn step_text(step: u64, rec: &StepRec) -> Line
    ensures text { result ≡ step_line step rec.now }
    ensures room { length result ≤ LINE_CAPACITY }
{
    let mut line = Line::new();
    line.push_bytes(b"step ");
    line.push_decimal(step);
    line.push_bytes(b" ");
    put_ended(&mut line, rec.ended);
    line.push_bytes(b" state");
    put_words(&mut line, &rec.before.to_words());
    line.push_bytes(b" fetch ");
    put_fetch(&mut line, &rec.fetch);
    line.push_bytes(b" read ");
    put_access(&mut line, &rec.read, &rec.read_more);
    line.push_bytes(b" write ");
    put_access(&mut line, &rec.write, &rec.write_more);
    line.push_bytes(b" value ");
    put_value(&mut line, rec.value);
    line.push_bytes(b"\n");
    line
}

/// The line of a state.
#[tactic(auto, unfolding(crate::specs::Lines::state_line))]
pub(crate) fn state_text(step: u64, state: &State) -> Line
    ensures text { result ≡ state_line step state.now }
    ensures room { length result ≤ LINE_CAPACITY }
{
    let mut line = Line::new();
    line.push_bytes(b"state ");
    line.push_decimal(step);
    put_words(&mut line, &state.to_words());
    line.push_bytes(b"\n");
    line
}

/// Puts the line of a step: its number, how it ended, the state before it, and what it fetched, read, wrote and took
/// from the outside. It is refused as bytes are.
pub fn step_line<T: Sink>(
    out: &mut Out,
    step: u64,
    rec: &StepRec,
    sink: &mut T,
) -> Result<(), OutFault>
    requires { IsTrue out.old.live }
    ensures { Puts OutFault.WriteFault (step_line step rec.now)
        (onto out.old (T.held sink.old) (T.faults sink.old))
        (onto out.new (T.held sink.new) (T.faults sink.new)) result }
{
    out.put_bytes(step_text(step, rec).bytes(), sink)
}

/// Puts the line of the state before a step: the step's number and the 58 words. It is refused as bytes are.
pub fn state_line<T: Sink>(
    out: &mut Out,
    step: u64,
    state: &State,
    sink: &mut T,
) -> Result<(), OutFault>
    requires { IsTrue out.old.live }
    ensures { Puts OutFault.WriteFault (state_line step state.now)
        (onto out.old (T.held sink.old) (T.faults sink.old))
        (onto out.new (T.held sink.new) (T.faults sink.new)) result }
{
    out.put_bytes(state_text(step, state).bytes(), sink)
}
