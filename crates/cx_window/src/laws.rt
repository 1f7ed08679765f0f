//! What was cut off, run again.

ghost use Rattle.std.specs.Prelude.{ℕ};
ghost use Rattle.cx_log.specs.Reading.{Opened};
ghost use Rattle.cx_log.specs.Scan.{Scan};
ghost use Rattle.cx_window.specs.Cut.{CutsOff, RunsAgain};
ghost use Rattle.cx_window.specs.Slice.{Sliced};

/// The steps of a slice run again as those of the recording that it was cut from: with the same records, up to the same
/// machine. Nothing is bad in what was kept of them.
pub fn a_slice_runs_again()
    ensures { (o : Opened) (whole : Scan) (a b : ℕ) (slice : Sliced) → CutsOff o whole a b slice
        → RunsAgain o whole a b slice }
{}
