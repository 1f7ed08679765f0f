//! A run, turn by turn.

ghost use Rattle.std.specs.Prelude.{◌≡◌, ℕ, ◌<◌, ◌≤◌, ◌^◌, false, List, Option, IfOk};
ghost use Rattle.cx_io.specs.Cause.{HasCause};
ghost use Rattle.cx_io.specs.declared.outside.Outside.{Outside};
ghost use Rattle.cx_live.specs.Image.{Image, IsImage};
ghost use Rattle.cx_record.specs.Promise.{IsPut, Plays, Stands};

use crate::fault::RecordFault;
use crate::turn::take_turn;
use cx_hart::StepRec;
use cx_io::{Sink, World};
use cx_live::Live;
use cx_log::LogWriter;

/// Takes turns up to the last of the steps, or to the one that turns the machine off; answers how many.
#[inline(never)]
pub(crate) fn play<W: World, T: Sink>(
    live: &mut Live,
    writer: &mut LogWriter,
    steps: u64,
    world: &mut W,
    sink: &mut T,
) -> Result<u64, RecordFault>
    requires on { live.old.live.devices.off ≡ false }
    requires stands { Stands 0 writer.old live.old.live }
    requires some { 0 < steps }
    requires few { steps ≤ 2 ^ 27 }
    ensures plays { (image : Image) (given : Option (List Outside)) (base : Option (List ℕ)) → IsImage image
        → image.split ≡ live.old.split
        → IsPut image 0 given (W.answers world.old) base (T.held sink.old) writer.old live.old.live
        → Plays image steps given (W.answers world.new) base (T.held sink.new) writer.new live.new.live result }
    ensures stands { IfOk result (λ end. Stands end writer.new live.new.live) }
    ensures some { IfOk result (λ end. 0 < end) }
    ensures most { IfOk result (λ end. end ≤ steps) }
    ensures world { HasCause RecordFault.WorldFault (W.faults world.old) (W.faults world.new) result }
    ensures sink { HasCause RecordFault.WriteFault (T.faults sink.old) (T.faults sink.new) result }
{
    let mut rec = StepRec::BLANK;
    for step in 0..steps {
        if take_turn(step, live, &mut rec, writer, world, sink)? {
            return Ok(step + 1);
        }
    }
    Ok(steps)
}
