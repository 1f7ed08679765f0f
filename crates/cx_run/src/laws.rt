//! Laws of runs and of windows, over any step function.

ghost use Rattle.std.specs.Prelude.{◌≡◌, ◌↔◌, ℕ, suc, ◌+◌, ◌-◌, ◌*◌, ◌<◌, ◌≤◌, Bool, ◌||◌, false, List, [], ◌∷◌, ◌++◌};
ghost use Rattle.std.specs.Prelude.{length, take, drop, replicate, Option, None, Some, IsSome, IsSomeAnd};
ghost use Rattle.std.specs.Prelude.{if◌then◌else◌};
ghost use Rattle.cx_csr.specs.declared.state.State.{State};
ghost use Rattle.cx_log.specs.Recording.{Recorded, Recording};
ghost use Rattle.cx_map.specs.declared.TheConstants.{PAGE_SIZE};
ghost use Rattle.cx_ram.specs.PhysicalMemory.{page_of, is_zero};
ghost use Rattle.cx_machine.specs.Machine.{IsMemory};
ghost use Rattle.cx_codec.specs.Place.{Place};
ghost use Rattle.cx_log.specs.Reading.{Opened};
ghost use Rattle.cx_log.specs.Scan.{Scan, decoded, scan};
ghost use Rattle.cx_log.specs.Text.{page_text, page_count, pages_text, records_text, recording_text};
ghost use Rattle.cx_map.specs.Bytes.{AreBytes};
ghost use Rattle.cx_log.specs.Order.{InOrder, KeepsRules, at_start};
ghost use Rattle.cx_log.specs.declared.order.Behind.{Behind};
ghost use Rattle.cx_run.specs.Due.{due_at};
ghost use Rattle.cx_machine.specs.Step.{Step, IsFramed, KeepsMachine, SetsLines};
ghost use Rattle.cx_run.specs.Events.{BeginAlike, NoneBelow};
ghost use Rattle.cx_run.specs.FirstBad.{Broken, bad_behind, first_bad, settled};
ghost use Rattle.std.specs.Prelude.{◌&&◌, ◌==◌, not};
ghost use Rattle.cx_run.specs.StepEvents.{at_step, has_mark, step_events};
ghost use Rattle.cx_run.specs.Run.{Run, run_of, built_steps, Accepts};
ghost use Rattle.cx_run.specs.Window.{any_in_page, is_read, events_between, kept_pages, recorded_from, IsWindow};
ghost use Rattle.cx_run.specs.Alone.{RunsAlone};

/// Where the run of so many steps is there, the runs of fewer are, and it begins with their records. It has a record
/// for each of its steps.
pub fn runs_begin_with_shorter_runs<Rec>()
    ensures shorter { (step : Step Rec) (R : Recording) (m n : ℕ) → m ≤ n → IsSome (run_of step R n)
        → IsSome (run_of step R m) }
    ensures front { (step : Step Rec) (R : Recording) (m n : ℕ) (after : Run Rec) → m ≤ n → run_of step R n ≡ Some after
        → IsSomeAnd (run_of step R m) (λ before. before.records ≡ take m after.records) }
    ensures count { (step : Step Rec) (R : Recording) (n : ℕ) (run : Run Rec) → run_of step R n ≡ Some run
        → length run.records ≡ n }
{}

/// A run goes up to the first step that can't be carried out, and there is no run beyond that.
pub fn run_stops_at_its_first_gap<Rec>()
    ensures there { (step : Step Rec) (R : Recording) (n : ℕ) → IsSome (run_of step R (built_steps step R n)) }
    ensures most { (step : Step Rec) (R : Recording) (n : ℕ) → built_steps step R n ≤ n }
    ensures whole { (step : Step Rec) (R : Recording) (n : ℕ) → (built_steps step R n ≡ n) ↔ IsSome (run_of step R n) }
    ensures beyond { (step : Step Rec) (R : Recording) (n : ℕ) → built_steps step R n < n
        → run_of step R (suc (built_steps step R n)) ≡ None }
    ensures gap { (step : Step Rec) (R : Recording) (n : ℕ) (run : Run Rec) → built_steps step R n < n
        → run_of step R (built_steps step R n) ≡ Some run
        → step run.machine (due_at R.events (R.base + built_steps step R n)) ≡ None }
{}

/// A run depends on no later event. Recordings that begin alike have one run so far, so events of later steps may stand
/// behind those that are known, and a step that can't be carried out stays the first, whatever follows.
pub fn runs_know_no_later_event<Rec>()
    ensures alike { (step : Step Rec) (R S : Recording) (n : ℕ) → BeginAlike R S n → run_of step S n ≡ run_of step R n }
    ensures later { (step : Step Rec) (R : Recording) (more : List Recorded) (n : ℕ) → NoneBelow (R.base + n) more
        → run_of step (record R { events = R.events ++ more }) n ≡ run_of step R n }
    ensures breaks { (step : Step Rec) (R : Recording) (more : List Recorded) (m n : ℕ) → NoneBelow (R.base + m) more
        → built_steps step R m < m → m ≤ n → built_steps step (record R { events = R.events ++ more }) n ≡ built_steps
        step R m }
    ensures order { (pages : ℕ) (behind : Behind) (events : List Recorded) (end : ℕ) → InOrder pages behind events end
        → NoneBelow behind.step events }
{}

/// An input has no bad place exactly where it is the text of an accepted recording, and of one alone; its records
/// settle all of its steps.
pub fn inputs_without_bad_place<Rec>()
    ensures none { (steps : Bool → Step Rec) (R : Recording) → Accepts (steps R.split) R
        → first_bad steps (recording_text R) ≡ None }
    ensures accepted { (steps : Bool → Step Rec) (bytes : List ℕ) → AreBytes bytes → first_bad steps bytes ≡ None
        → (R : Recording) × Accepts (steps R.split) R × (bytes ≡ recording_text R) }
    ensures one { (steps : Bool → Step Rec) (R S : Recording) → Accepts (steps R.split) R → Accepts (steps S.split) S
        → recording_text R ≡ recording_text S → R ≡ S }
    ensures settled { (steps : Bool → Step Rec) (R : Recording) → Accepts (steps R.split) R
        → settled steps (recording_text R) ≡ Some R.end }
{}

/// What is scanned stands at the step of the records so far or above it. A step that can't be carried out, of those
/// that these records settle, is the first bad place, whatever follows.
pub fn first_break_is_known<Rec>()
    ensures rises { (pages : ℕ) (behind : Behind) (p : Place) → AreBytes p.ahead
        → NoneBelow behind.step (scan pages behind p).events × (behind.step ≤ (scan pages behind p).upto) }
    ensures first { (steps : Bool → Step Rec) (o : Opened) (front : List Recorded) (rest : Scan) (m : ℕ)
        → NoneBelow (o.header.base + m) rest.events → o.header.base + m ≤ rest.upto
        → built_steps (steps o.header.split) (decoded o (record rest { events = front })) m < m
        → bad_behind steps o (record rest { events = front ++ rest.events })
        ≡ Some (Broken (o.header.base
        + built_steps (steps o.header.split) (decoded o (record rest { events = front })) m)) }
{}

/// The events of a step are its mark, if it has one, and what is due to it, in the order in which they stand. The
/// events of a window grow by those of each of its steps; a mark at the window's first step isn't one of them.
pub fn events_of_a_step_are_due()
    ensures step { (marks : Bool) (pages n : ℕ) (behind : Behind) (events : List Recorded) (end : ℕ)
        → InOrder pages behind events end
        → at_step marks n events ≡ step_events n (marks && has_mark n events) (due_at events n) }
    ensures more { (pages a n : ℕ) (behind : Behind) (events : List Recorded) (end : ℕ)
        → InOrder pages behind events end → a ≤ n
        → events_between a (suc n) events
        ≡ events_between a n events ++ step_events n (not (n == a) && has_mark n events) (due_at events n) }
{}

/// No page is read before a window's first step. One step more reads the pages of the bytes that its record names.
pub fn pages_are_marked_step_by_step<Rec>()
    ensures none { (reads : Rec → List ℕ) (m page : ℕ) (records : List Rec) → length records ≤ m
        → is_read reads (drop m records) page ≡ false }
    ensures more { (reads : Rec → List ℕ) (m page : ℕ) (records : List Rec) (rec : Rec) → m ≤ length records
        → is_read reads (drop m (records ++ rec ∷ [])) page ≡ (is_read reads (drop m records) page || any_in_page
        (reads rec) page) }
{}

/// Of a memory on the pages that are kept, each page is that of the memory where it is kept, else zeros.
pub fn kept_pages_are_those_of_the_memory()
    ensures page { (keep : ℕ → Bool) (memory : List ℕ) (n k : ℕ) → n * PAGE_SIZE ≤ length memory → k < n
        → page_of (kept_pages keep memory n) k ≡ (if keep k then page_of memory k else replicate PAGE_SIZE 0) }
    ensures size { (keep : ℕ → Bool) (memory : List ℕ) (n : ℕ) → n * PAGE_SIZE ≤ length memory
        → length (kept_pages keep memory n) ≡ n * PAGE_SIZE }
    ensures memory { (keep : ℕ → Bool) (memory : List ℕ) (pages : ℕ) → IsMemory pages memory
        → IsMemory pages (kept_pages keep memory pages) }
{}

/// The text of the kept pages is written by going over the memory's pages: one that is kept has its own text, if it
/// isn't all zero, and any other has none.
pub fn kept_pages_are_written_one_by_one()
    ensures page { (keep : ℕ → Bool) (memory : List ℕ) (n k : ℕ) → n * PAGE_SIZE ≤ length memory → k < n
        → page_text (kept_pages keep memory n) k ≡ (if keep k then page_text memory k else []) }
    ensures pages { (keep : ℕ → Bool) (memory : List ℕ) (n k : ℕ) → n * PAGE_SIZE ≤ length memory → k < n
        → pages_text (kept_pages keep memory n) (k + 1) ≡ pages_text (kept_pages keep memory n) k
        ++ (if keep k then page_text memory k else []) }
    ensures count { (keep : ℕ → Bool) (memory : List ℕ) (n k : ℕ) → n * PAGE_SIZE ≤ length memory → k < n
        → page_count (kept_pages keep memory n) (k + 1) ≡ page_count (kept_pages keep memory n) k
        + (if keep k then (if is_zero (page_of memory k) then 0 else 1) else 0) }
{}

/// A recording whose steps are all carried out has a window from any of its steps up to a later one or its end, and one
/// alone.
pub fn window_is_there_once<Rec>()
    ensures there { (step : Step Rec) (reads : Rec → List ℕ) (R : Recording) (a b : ℕ)
        → IsSome (run_of step R (R.end - R.base)) → R.base ≤ a → a < b → b ≤ R.end
        → (W : Recording) × IsWindow step reads R a b W }
    ensures once { (step : Step Rec) (reads : Rec → List ℕ) (R W V : Recording) (a b : ℕ)
        → IsWindow step reads R a b W → IsWindow step reads R a b V → W ≡ V }
{}

/// From the machine before a step on, the steps of a recording run again: they are the recording's own, with the same
/// records.
pub fn a_window_runs_again<Rec>()
    ensures { (step : Step Rec) (R : Recording) (a b : ℕ) (before after : Run Rec) → R.base ≤ a → a ≤ b
        → run_of step R (a - R.base) ≡ Some before → run_of step R (b - R.base) ≡ Some after
        → run_of step (recorded_from R a b before.machine) (b - a)
        ≡ Some (record { machine = after.machine; records = drop (a - R.base) after.records }) }
{}

/// Where steps have the frame property, a window replays alone: its steps are those of the recording
/// that it was cut from, with the same records, and behind each of them the machines agree on the pages that are read.
pub fn window_runs_alone<Rec>()
    ensures steps { (step : Step Rec) (reads : Rec → List ℕ) (R W : Recording) (a b k : ℕ)
        → IsFramed step reads → KeepsRules R → (w : IsWindow step reads R a b W) → k ≤ b - a
        → RunsAlone step (is_read reads (drop (a - R.base) w.after.records)) R a W k }
    ensures whole { (step : Step Rec) (reads : Rec → List ℕ) (R W : Recording) (a b n : ℕ) (run : Run Rec)
        → IsFramed step reads → KeepsRules R → IsWindow step reads R a b W
        → b - R.base ≤ n → run_of step R n ≡ Some run
        → IsSomeAnd (run_of step W (W.end - W.base)) (λ here. here.records ≡ take (b - a)
        (drop (a - R.base) run.records)) }
{}

/// A window of a recording that keeps the rules of the format keeps them too and is accepted, where steps keep the
/// rules of the machine. Where events may stand in the window, steps also have to take the lines that are due to them.
pub fn window_is_accepted<Rec>()
    ensures without_events { (step : Step Rec) (reads : Rec → List ℕ) (R W : Recording) (a b : ℕ)
        → IsFramed step reads → KeepsMachine step → KeepsRules R → R.events ≡ []
        → IsWindow step reads R a b W → Accepts step W }
    ensures with_events { (step : Step Rec) (reads : Rec → List ℕ) (R W : Recording) (a b : ℕ)
        → IsFramed step reads → KeepsMachine step → SetsLines step → KeepsRules R
        → IsWindow step reads R a b W → Accepts step W }
{}

/// The records of a window are never longer than those of the recording that it was cut from.
pub fn windows_are_shorter()
    ensures { (pages a b base end : ℕ) (start : State) (events : List Recorded)
        → InOrder pages (at_start base start) events end
        → base ≤ a → a < b → b ≤ end
        → length (records_text a (events_between a b events) b) ≤ length (records_text base events end) }
{}

/// A window of a window is a window of the recording itself.
pub fn window_of_window<Rec>()
    ensures { (step : Step Rec) (reads : Rec → List ℕ) (R W V : Recording) (a b c d : ℕ) → IsFramed step reads
        → KeepsRules R
        → IsWindow step reads R a b W → IsWindow step reads W c d V → IsWindow step reads R c d V }
{}
