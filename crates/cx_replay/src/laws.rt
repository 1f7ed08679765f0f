//! What the answers of a replay say of its input: the first bad place, and the steps that are settled.

ghost use Rattle.std.specs.Prelude.{◌≡◌, ℕ, ◌+◌, List, length, Ok, Some};
ghost use Rattle.cx_codec.specs.Place.{Place};
ghost use Rattle.cx_hart.specs.HartStep.{hart_step};
ghost use Rattle.cx_hart.specs.Whole.{Whole};
ghost use Rattle.cx_hart.specs.declared.record.StepRec.{StepRec};
ghost use Rattle.cx_log.specs.Reading.{Opened, opened_at, start_of};
ghost use Rattle.cx_log.specs.Scan.{Scan, decoded, scan_behind};
ghost use Rattle.cx_replay.specs.Replaying.{GaveAll, Progress, Stands};
ghost use Rattle.cx_run.specs.FirstBad.{Broken, bad_behind, carried, first_bad, settled};

use crate::records::Records;

/// The first bad place behind the header and pages of an input is the first bad place of the input, and the steps that
/// are carried out before it are those that the input settles.
pub fn inputs_are_judged_behind_their_pages()
    ensures bad { (bytes : List ℕ) (o : Opened) (p : Place) → opened_at (start_of bytes) ≡ Ok (o, p)
        → first_bad hart_step bytes ≡ bad_behind hart_step o (scan_behind o p) }
    ensures settled { (bytes : List ℕ) (o : Opened) (p : Place) → opened_at (start_of bytes) ≡ Ok (o, p)
        → settled hart_step bytes ≡ Some (o.header.base + carried hart_step (decoded o (scan_behind o p))) }
{}

/// Where a replay gave all settled steps, or met one that can't be carried out, the steps that it gave are those that
/// are carried out before the first bad place.
pub fn what_was_given_is_settled<R: Records>()
    ensures all { (records : R) (gave input : List ℕ) (end : ℕ) (o : Opened) (whole : Scan) (given : List StepRec)
        (m : Whole) (p : Progress)
        → Stands o whole given m p (R.seen records).bytes (R.has records gave input end) → GaveAll o whole given
        → carried hart_step (decoded o whole) ≡ length given }
    ensures broken { (o : Opened) (whole : Scan) (given : List StepRec)
        → bad_behind hart_step o whole ≡ Some (Broken (o.header.base + length given))
        → carried hart_step (decoded o whole) ≡ length given }
{}
