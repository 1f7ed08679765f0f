//! Writing a text.

ghost use Rattle.cx_io.specs.Cause.{HasCause};
ghost use Rattle.cx_commands.specs.Doing.{CausedBy};
ghost use Rattle.cx_commands.specs.Make.{IsWritingStatus, Writes};
ghost use Rattle.cx_commands.specs.Streaming.{FinishesOn};

use cx_codec::{Out, OutFault};
use cx_commands::Status;
use cx_io::Sink;
use std::alloc::Global;

// Puts a text, and hands all of it to the sink.
fn put_text<T: Sink>(alloc: Global, text: &[u8], sink: &mut T) -> Result<(), OutFault>
    ensures puts { FinishesOn (T.held sink.old) text.now (T.held sink.new) result }
    ensures cause { HasCause OutFault.WriteFault (T.faults sink.old) (T.faults sink.new) result }
{
    let mut out = Out::new(alloc)?;
    out.put_bytes(text, sink)?;
    out.finish(sink)
}

/// Writes a text, and nothing else.
pub(crate) fn write<T: Sink>(alloc: Global, text: &[u8], sink: &mut T) -> Status
    ensures writes { Writes text.now (T.held sink.old) (T.held sink.new) result }
    ensures kind { IsWritingStatus result }
    ensures write_cause { CausedBy Status.WriteFault (T.faults sink.old) (T.faults sink.new) result }
{
    match put_text(alloc, text, sink) {
        Ok(()) => Status::Done,
        Err(fault) => Status::from(fault),
    }
}
