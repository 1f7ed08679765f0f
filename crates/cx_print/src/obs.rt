//! The lines of observations and roots.

ghost use Rattle.std.specs.Prelude.{◌≡◌, ◌≤◌, length, IsTrue};
ghost use Rattle.cx_codec.specs.Puts.{Puts, onto};
ghost use Rattle.cx_print.specs.Lines.{obs_line, root_line};
ghost use Rattle.cx_print.specs.declared.line.TheConstants.{LINE_CAPACITY};

use crate::hex::word_digits;
use crate::line::{Line, put_program, put_seen, put_value};
use cx_codec::{Out, OutFault};
use cx_io::Sink;
use cx_observe::Obs;

/// The line of an observation.
#[tactic(auto, unfolding(crate::specs::Lines::obs_line))]
pub(crate) fn obs_text(index: u64, obs: &Obs) -> Line
    ensures text { result ≡ obs_line index obs.now }
    ensures room { length result ≤ LINE_CAPACITY }
{
    let mut line = Line::new();
    line.push_bytes(b"obs ");
    line.push_decimal(index);
    line.push_bytes(b" regs");
    put_program(&mut line, obs);
    line.push_bytes(b" word ");
    line.push_bytes(&word_digits(obs.word));
    line.push_bytes(b" read ");
    put_seen(&mut line, &obs.read);
    line.push_bytes(b" value ");
    put_value(&mut line, obs.value);
    line.push_bytes(b" write ");
    put_seen(&mut line, &obs.write);
    line.push_bytes(b"\n");
    line
}

/// The line of a root.
#[tactic(auto, unfolding(crate::specs::Lines::root_line))]
pub(crate) fn root_text(root: u32, steps: u64, first: u64) -> Line
    ensures text { result ≡ root_line root steps first }
    ensures room { length result ≤ LINE_CAPACITY }
{
    let mut line = Line::new();
    line.push_bytes(b"root ");
    line.push_bytes(&word_digits(root));
    line.push_bytes(b" steps ");
    line.push_decimal(steps);
    line.push_bytes(b" first ");
    line.push_decimal(first);
    line.push_bytes(b"\n");
    line
}

/// Puts the line of an observation: its index, pc and the registers before the step, the word of the instruction, and
/// what it read, was given and wrote. It is refused as bytes are.
pub fn obs_line<T: Sink>(out: &mut Out, index: u64, obs: &Obs, sink: &mut T) -> Result<(), OutFault>
    requires { IsTrue out.old.live }
    ensures { Puts OutFault.WriteFault (obs_line index obs.now)
        (onto out.old (T.held sink.old) (T.faults sink.old))
        (onto out.new (T.held sink.new) (T.faults sink.new)) result }
{
    out.put_bytes(obs_text(index, obs).bytes(), sink)
}

/// Puts the line of a root of page tables, as `satp` holds it: how many steps were chosen for it, and the number of the
/// first of them. It is refused as bytes are.
pub fn root_line<T: Sink>(
    out: &mut Out,
    root: u32,
    steps: u64,
    first: u64,
    sink: &mut T,
) -> Result<(), OutFault>
    requires { IsTrue out.old.live }
    ensures { Puts OutFault.WriteFault (root_line root steps first)
        (onto out.old (T.held sink.old) (T.faults sink.old))
        (onto out.new (T.held sink.new) (T.faults sink.new)) result }
{
    out.put_bytes(root_text(root, steps, first).bytes(), sink)
}
