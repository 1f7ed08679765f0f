//! The command `make`.

ghost use Rattle.cx_commands.specs.Doing.{CausedBy};
ghost use Rattle.cx_commands.specs.Make.{IsWritingStatus, WritesByImage};

use crate::writing::write;
use cx_commands::Status;
use cx_gen::make_image;
use cx_io::Sink;
use std::alloc::Global;

/// Writes the image of a number. `WriteFault` comes only where the sink's count of faults rose, and `NoMemory` where
/// memory is refused: the sink then holds a front of the image behind what it held.
pub fn make<T: Sink>(alloc: Global, n: u32, sink: &mut T) -> Status
    ensures writes { WritesByImage n (λ image. image) (T.held sink.old) (T.held sink.new) result }
    ensures kind { IsWritingStatus result }
    ensures write_cause { CausedBy Status.WriteFault (T.faults sink.old) (T.faults sink.new) result }
{
    match make_image(alloc, n) {
        Ok(image) => write(alloc, &image, sink),
        Err(_) => Status::NoMemory,
    }
}
