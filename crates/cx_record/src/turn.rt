//! One turn of the recorder.

ghost use Rattle.std.specs.Prelude.{◌≡◌, ℕ, ◌+◌, ◌<◌, ◌^◌, false, List, Option, IfOk};
ghost use Rattle.cx_io.specs.Cause.{HasCause};
ghost use Rattle.cx_io.specs.declared.outside.Outside.{Outside as outside};
ghost use Rattle.cx_live.specs.Image.{Image, IsImage};
ghost use Rattle.cx_record.specs.Promise.{IsPut, Stands, Turns};

use crate::fault::RecordFault;
use crate::putting::put_step;
use cx_hart::StepRec;
use cx_io::{Sink, World};
use cx_live::Live;
use cx_log::LogWriter;

/// Asks the world, takes the turn and puts the records of its step; answers whether it turned the machine off.
pub(crate) fn take_turn<W: World, T: Sink>(
    step: u64,
    live: &mut Live,
    rec: &mut StepRec,
    writer: &mut LogWriter,
    world: &mut W,
    sink: &mut T,
) -> Result<bool, RecordFault>
    requires on { live.old.live.devices.off ≡ false }
    requires stands { Stands step writer.old live.old.live }
    requires few { step < 2 ^ 27 }
    ensures turns { (image : Image) (given : Option (List outside)) (base : Option (List ℕ)) → IsImage image
        → image.split ≡ live.old.split
        → IsPut image step given (W.answers world.old) base (T.held sink.old) writer.old live.old.live
        → Turns image step given (W.answers world.new) base (T.held sink.new) writer.new live.new.live result }
    ensures off { IfOk result (λ off. off ≡ live.new.live.devices.off) }
    ensures stands { IfOk result (λ off. Stands (step + 1) writer.new live.new.live) }
    ensures split { live.new.split ≡ live.old.split }
    ensures world { HasCause RecordFault.WorldFault (W.faults world.old) (W.faults world.new) result }
    ensures sink { HasCause RecordFault.WriteFault (T.faults sink.old) (T.faults sink.new) result }
{
    let out = world.turn()?;
    let happened = live.turn_into(out, rec)?;
    put_step(step, &happened, live.dma_bytes(), writer, sink)?;
    Ok(happened.off)
}
