//! The recorder.

ghost use Rattle.std.specs.Prelude.{◌≡◌, ◌<◌, ◌≤◌, ◌^◌, IfOk};
ghost use Rattle.cx_io.specs.Cause.{HasCause};
ghost use Rattle.cx_live.specs.Image.{IsImage};
ghost use Rattle.cx_record.specs.Promise.{Answers};

use crate::fault::RecordFault;
use crate::front::start;
use crate::play::play;
use cx_io::{Sink, World};
use cx_live::{Image, Live};
use std::alloc::Global;

/// Records the run of an image over the answers of a world: at most so many steps, and fewer only where the last one
/// stored to the power switch; answers how many. `Ok` says that the sink holds the text of the recording, which is
/// accepted and whose run is that run.
///
/// `WorldFault` comes only where the world's count of faults rose: the sink has received the whole blocks of what was
/// put of the run so far. `WriteFault` comes only where the sink's count of faults rose, and `NoMemory` is free: the
/// sink has received a front of the recording of every run of at most so many answers that begin with the world's.
pub fn record<W: World, T: Sink>(
    alloc: Global,
    image: Image,
    steps: u64,
    world: &mut W,
    sink: &mut T,
) -> Result<u64, RecordFault>
    requires rules { IsImage image }
    requires some { 0 < steps }
    requires most { steps ≤ 2 ^ 27 }
    ensures answers { Answers image steps (W.answers world.old) (W.answers world.new) (T.held sink.old)
        (T.held sink.new) result }
    ensures world { HasCause RecordFault.WorldFault (W.faults world.old) (W.faults world.new) result }
    ensures sink { HasCause RecordFault.WriteFault (T.faults sink.old) (T.faults sink.new) result }
{
    let mut writer = start(alloc, &image, sink)?;
    let mut live = Live::new(alloc, image)?;
    let end = play(&mut live, &mut writer, steps, world, sink)?;
    writer.end(end, sink)?;
    Ok(end)
}
