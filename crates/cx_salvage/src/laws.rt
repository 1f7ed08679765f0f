//! Laws of what is saved.

ghost use Rattle.std.specs.Prelude.{◌≡◌, ◌↔◌, ◌+◌, ◌-◌, ◌<◌, ◌≤◌, ℕ, Bool, false, true, List, [], take, Ok, Err};
ghost use Rattle.std.specs.Prelude.{None, Some};
ghost use Rattle.std.specs.Prelude.{IsSome, IsSomeAnd};
ghost use Rattle.cx_codec.specs.Place.{Place};
ghost use Rattle.cx_codec.specs.Reads.{Begins};
ghost use Rattle.cx_log.specs.Order.{InOrder, at_start};
ghost use Rattle.cx_log.specs.Reading.{Opened, opened_at, start_of};
ghost use Rattle.cx_log.specs.Recording.{Recording};
ghost use Rattle.cx_log.specs.Scan.{Scan, decoded, scan_behind};
ghost use Rattle.cx_log.specs.Text.{recording_text};
ghost use Rattle.cx_machine.specs.Step.{Step};
ghost use Rattle.cx_map.specs.Bytes.{AreBytes};
ghost use Rattle.cx_run.specs.FirstBad.{Refusal, bad_behind, carried, first_bad};
ghost use Rattle.cx_run.specs.Run.{Accepts, Run, run_of};
ghost use Rattle.cx_run.specs.StepEvents.{has_mark};
ghost use Rattle.cx_run.specs.Window.{IsWindow};
ghost use Rattle.cx_salvage.specs.Salvage.{cut_at, kept, salvage_of, saved, text_to};

/// Of an input without a bad place all of it is saved.
pub fn good_inputs_are_saved_whole<Rec>()
    ensures { (steps : Bool → Step Rec) (bytes : List ℕ) → AreBytes bytes → first_bad steps bytes ≡ None
        → salvage_of steps bytes ≡ Some bytes }
{}

/// What is cut off a recording at a step runs as the recording does up to there: with the same machine, and with the
/// first of its records. A step of a recording is up to where its settled steps are carried out exactly where what is
/// cut off there runs to its end; that hangs on no later record.
pub fn cuts_run_alike<Rec>()
    ensures runs { (step : Step Rec) (R : Recording) (m n : ℕ) → R.base + n ≤ m
        → run_of step (cut_at m R) n ≡ run_of step R n }
    ensures front { (step : Step Rec) (R : Recording) (m : ℕ) (after : Run Rec) → R.base ≤ m → m ≤ R.end
        → run_of step R (R.end - R.base) ≡ Some after
        → IsSomeAnd (run_of step (cut_at m R) (m - R.base)) (λ run. run.records ≡ take (m - R.base) after.records) }
    ensures known { (steps : Bool → Step Rec) (R : Recording) (m : ℕ) → R.base ≤ m → m ≤ R.end
        → (m ≤ R.base + carried steps R) ↔ IsSome (run_of (steps R.split) (cut_at m R) (m - R.base)) }
{}

/// The windows of a recording that is cut off at a step are those of the recording, up to there.
pub fn windows_of_a_cut<Rec>()
    ensures out { (step : Step Rec) (reads : Rec → List ℕ) (R W : Recording) (a b m : ℕ) → m ≤ R.end
        → IsWindow step reads (cut_at m R) a b W → IsWindow step reads R a b W }
    ensures into { (step : Step Rec) (reads : Rec → List ℕ) (R W : Recording) (a b m : ℕ) → b ≤ m
        → IsWindow step reads R a b W → IsWindow step reads (cut_at m R) a b W }
{}

/// Of an input with a bad place behind its pages the recording up to a mark is saved, where the steps below the mark
/// are carried out, and no mark follows up to where the settled steps are. Where no such mark stands, nothing is saved.
pub fn inputs_are_saved_to_their_last_good_mark<Rec>()
    ensures mark { (steps : Bool → Step Rec) (o : Opened) (s : Scan) (bad : Refusal) (m last : ℕ)
        → InOrder o.header.pages (at_start o.header.base o.header.start) s.events last
        → bad_behind steps o s ≡ Some bad → has_mark m s.events ≡ true
        → m ≤ o.header.base + carried steps (decoded o s)
        → ((n : ℕ) → m < n → n ≤ o.header.base + carried steps (decoded o s) → has_mark n s.events ≡ false)
        → saved steps o s ≡ Some (recording_text (cut_at m (decoded o s))) }
    ensures nothing { (steps : Bool → Step Rec) (o : Opened) (s : Scan) (bad : Refusal) (last : ℕ)
        → InOrder o.header.pages (at_start o.header.base o.header.start) s.events last
        → bad_behind steps o s ≡ Some bad
        → ((n : ℕ) → o.header.base ≤ n → n ≤ o.header.base + carried steps (decoded o s)
        → has_mark n s.events ≡ false)
        → saved steps o s ≡ None }
{}

/// What is saved of an input is said of the records behind its header and pages; of an input in which these are bad,
/// nothing is saved.
pub fn inputs_are_saved_behind_their_pages<Rec>()
    ensures good { (steps : Bool → Step Rec) (bytes : List ℕ) (o : Opened) (p : Place)
        → opened_at (start_of bytes) ≡ Ok (o, p) → salvage_of steps bytes ≡ saved steps o (scan_behind o p) }
    ensures bad { (steps : Bool → Step Rec) (bytes : List ℕ) (offset : ℕ)
        → opened_at (start_of bytes) ≡ Err offset → salvage_of steps bytes ≡ None }
{}

/// What is saved of an input is the text of an accepted recording.
pub fn what_is_saved_is_accepted<Rec>()
    ensures { (steps : Bool → Step Rec) (bytes text : List ℕ) → AreBytes bytes → salvage_of steps bytes ≡ Some text
        → (R : Recording) × Accepts (steps R.split) R × (text ≡ recording_text R) }
{}

/// What stands fast of an input is the text up to its last good mark. It begins with the text up to any other good mark,
/// and where none stands, nothing is fast.
pub fn what_stands_fast_grows_with_good_marks<Rec>()
    ensures begins { (steps : Bool → Step Rec) (o : Opened) (s : Scan) (m last : ℕ)
        → InOrder o.header.pages (at_start o.header.base o.header.start) s.events last → has_mark m s.events ≡ true
        → m ≤ o.header.base + carried steps (decoded o s) → Begins (text_to o s m) (kept steps o s) }
    ensures mark { (steps : Bool → Step Rec) (o : Opened) (s : Scan) (m last : ℕ)
        → InOrder o.header.pages (at_start o.header.base o.header.start) s.events last → has_mark m s.events ≡ true
        → m ≤ o.header.base + carried steps (decoded o s)
        → ((n : ℕ) → m < n → n ≤ o.header.base + carried steps (decoded o s) → has_mark n s.events ≡ false)
        → kept steps o s ≡ text_to o s m }
    ensures nothing { (steps : Bool → Step Rec) (o : Opened) (s : Scan) (last : ℕ)
        → InOrder o.header.pages (at_start o.header.base o.header.start) s.events last
        → ((n : ℕ) → o.header.base ≤ n → n ≤ o.header.base + carried steps (decoded o s)
        → has_mark n s.events ≡ false)
        → kept steps o s ≡ [] }
{}
