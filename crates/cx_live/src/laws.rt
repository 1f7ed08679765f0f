//! Laws of whole runs of the live machine, and of their recordings.

ghost use Rattle.std.specs.Prelude.{◌≡◌, ℕ, ◌+◌, ◌<◌, ◌≤◌, ◌^◌, Bool, true, false, List, [], ◌∷◌, ◌++◌, length, Some, IsSome};
ghost use Rattle.cx_io.specs.declared.outside.Outside.{Outside};
ghost use Rattle.cx_hart.specs.declared.record.Touch.{Touch};
ghost use Rattle.cx_live.specs.Image.{Image, IsImage};
ghost use Rattle.cx_live.specs.Live.{Live};
ghost use Rattle.cx_live.specs.Recorded.{GoesOn, IsCut, IsRecorded, Runs};
ghost use Rattle.cx_live.specs.Run.{LiveRun, at_first, live_at_reset, live_run, turns, with_one};
ghost use Rattle.cx_live.specs.Turn.{Turned, live_turn};
ghost use Rattle.cx_walk.specs.Devices.{device_at};
ghost use Rattle.cx_walk.specs.declared.device.DeviceWord.TheVariants.{Power};

/// A turn is always there, and so is the run of an image over any answers of the outside.
pub fn every_turn_is_there()
    ensures turn { (split : Bool) (o : Outside) (l : Live) → IsSome (live_turn split o l) }
    ensures run { (image : Image) (outs : List Outside) → IsSome (live_run image outs) }
{}

/// The recording of a live run is accepted, and its run is the live run, record by record.
pub fn a_live_run_is_recorded()
    ensures { (image : Image) (outs : List Outside) (run : LiveRun) → IsImage image → live_run image outs ≡ Some run
        → 0 < length run.dues → length outs ≤ 2 ^ 27 → IsRecorded image run }
{}

/// The turn that turns the machine off stored to the power switch. Behind it more answers change nothing.
pub fn a_store_turns_it_off()
    ensures store { (split : Bool) (o : Outside) (l : Live) (t : Turned) → live_turn split o l ≡ Some t
        → l.devices.off ≡ false → t.live.devices.off ≡ true
        → (w : Touch) × ((t.rec.write ≡ Some w) × (device_at w.pa ≡ Some Power)) }
    ensures stays { (split : Bool) (run : LiveRun) (outs : List Outside) → run.live.devices.off ≡ true
        → turns split (Some run) outs ≡ Some run }
{}

/// A run goes on turn by turn, up to the last of its steps or to the one that turns the machine off, and is recorded
/// then.
pub fn runs_to_end()
    ensures first { (image : Image) → GoesOn image [] (at_first (live_at_reset image)) }
    ensures more { (image : Image) (outs : List Outside) (run : LiveRun) (o : Outside) (t : Turned)
        → GoesOn image outs run → live_turn image.split o run.live ≡ Some t → t.live.devices.off ≡ false
        → GoesOn image (outs ++ o ∷ []) (with_one run t) }
    ensures end { (image : Image) (steps : ℕ) (outs : List Outside) (run : LiveRun) (o : Outside) (t : Turned)
        → GoesOn image outs run → live_turn image.split o run.live ≡ Some t → length outs < steps
        → (length outs + 1 < steps → t.live.devices.off ≡ true)
        → Runs image steps (outs ++ o ∷ []) (with_one run t) }
    ensures recorded { (image : Image) (steps : ℕ) (outs : List Outside) (run : LiveRun) → IsImage image
        → Runs image steps outs run → 0 < length outs → steps ≤ 2 ^ 27 → IsRecorded image run }
{}

/// What was put of a run that may go on begins the text of a recording that is accepted.
pub fn cut_begins()
    ensures { (image : Image) (outs : List Outside) (run : LiveRun) → IsImage image → GoesOn image outs run
        → length outs < 2 ^ 27 → IsCut image run }
{}
