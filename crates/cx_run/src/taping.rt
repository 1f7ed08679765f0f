//! Laws of a run that is driven by what is due to each of its steps, and of its recording.

ghost use Rattle.std.specs.Prelude.{◌≡◌, ◌≢◌, ℕ, suc, ◌+◌, ◌*◌, ◌<◌, ◌≤◌, ◌^◌, Bool, true, false, List, [], ◌∷◌, ◌++◌};
ghost use Rattle.std.specs.Prelude.{length, take, Some};
ghost use Rattle.cx_csr.specs.declared.lines.Lines as lines;
ghost use Rattle.cx_csr.specs.declared.state.State.{State};
ghost use Rattle.cx_codec.specs.Reads.{Begins};
ghost use Rattle.cx_log.specs.Order.{InOrder, IsVersion, MayEnd, MayFollow, at_start, behind_it};
ghost use Rattle.cx_log.specs.declared.limits.TheConstants.{MOST_TEXT, STEP_LIMIT};
ghost use Rattle.cx_log.specs.declared.order.Behind.{Behind};
ghost use Rattle.cx_log.specs.Recording.{Dma, Lines, Mark, Recorded, Value};
ghost use Rattle.cx_log.specs.Text.{end_text, recording_text, records_text};
ghost use Rattle.cx_machine.specs.Due.{AreLines, Due};
ghost use Rattle.cx_machine.specs.Machine.{IsMachine, MachineState};
ghost use Rattle.cx_machine.specs.Step.{Step};
ghost use Rattle.cx_machine.specs.Transfers.{IsTransfer, Transfer};
ghost use Rattle.cx_map.specs.Map.{IsPageCount, size_of_pages};
ghost use Rattle.cx_run.specs.Driven.{CanTape, FewTransfers, at_first, driven, events_from, is_marked, taped};
ghost use Rattle.cx_run.specs.Due.{due_at};
ghost use Rattle.cx_run.specs.Events.{NoneBelow};
ghost use Rattle.cx_run.specs.Run.{Accepts, Run, run_of};
ghost use Rattle.cx_run.specs.SoFar.{behind_all, events_text, text_so_far};
ghost use Rattle.cx_run.specs.StepEvents.{step_events};
ghost use Rattle.cx_run.specs.Taping.{Ready, Within};

/// What the events of a run that is taped hand to each step is what was due to it: so the run of its recording is the
/// run that was driven.
pub fn a_taped_run_runs_again<Rec>()
    ensures here { (n : ℕ) (due : Due) (dues : List Due) → due_at (events_from n (due ∷ dues)) n ≡ due }
    ensures below { (n : ℕ) (dues : List Due) → NoneBelow n (events_from n dues) }
    ensures run { (step : Step Rec) (version : ℕ) (split : Bool) (pages : ℕ) (start : MachineState) (dues : List Due)
        (n : ℕ) → n ≤ length dues
        → run_of step (taped version split pages start dues) n ≡ driven step (Some (at_first start)) (take n dues) }
{}

/// The records of a step may be put one by one: its mark, its transfers, its lines, its value. Behind them those of the
/// next step may be put, or End.
pub fn records_of_a_step_follow()
    ensures first { (start : State) → Ready 0 (at_start 0 start) }
    ensures mark { (pages n : ℕ) (behind : Behind) → Ready n behind → is_marked n ≡ true → n < STEP_LIMIT
        → MayFollow pages behind (record { step = n; event = Mark })
        × Within n 1 (behind_it behind (record { step = n; event = Mark })) }
    ensures no_mark { (n : ℕ) (behind : Behind) → Ready n behind → is_marked n ≡ false → Within n 1 behind }
    ensures transfer { (pages n : ℕ) (behind : Behind) (t : Transfer) → Within n 1 behind → n < STEP_LIMIT
        → IsTransfer (size_of_pages pages) t
        → MayFollow pages behind (record { step = n; event = Dma t })
        × Within n 1 (behind_it behind (record { step = n; event = Dma t })) }
    ensures wider { (n least most : ℕ) (behind : Behind) → least ≤ most → Within n least behind → Within n most behind }
    ensures lines { (pages n : ℕ) (behind : Behind) (set : lines.Lines) → Within n 2 behind → n < STEP_LIMIT
        → AreLines set → set ≢ behind.lines
        → MayFollow pages behind (record { step = n; event = Lines set })
        × Within n 3 (behind_it behind (record { step = n; event = Lines set })) }
    ensures value { (pages n v : ℕ) (behind : Behind) → Within n 3 behind → n < STEP_LIMIT → v < 2 ^ 32
        → MayFollow pages behind (record { step = n; event = Value v })
        × Within n 4 (behind_it behind (record { step = n; event = Value v })) }
    ensures step { (n : ℕ) (behind : Behind) → Within n 4 behind → Ready (suc n) behind }
    ensures end { (n : ℕ) (behind : Behind) → Ready n behind → behind.step < n → n ≤ STEP_LIMIT → MayEnd behind n }
{}

/// A run that is driven by what fits its machine has a recording that is accepted, if its records take no more bytes
/// than the format allows; they don't where no step has more than one transfer and there are at most 2^27 steps.
pub fn a_taped_run_is_accepted<Rec>()
    ensures order { (pages n : ℕ) (behind : Behind) (dues : List Due) → n + length dues ≤ STEP_LIMIT → Ready n behind
        → behind.step < n + length dues → CanTape pages behind.lines dues
        → InOrder pages behind (events_from n dues) (n + length dues) }
    ensures accepted { (step : Step Rec) (version : ℕ) (split : Bool) (pages : ℕ) (start : MachineState)
        (dues : List Due) (run : Run Rec) → IsVersion version split → IsPageCount pages → IsMachine pages start
        → 0 < length dues → length dues ≤ STEP_LIMIT
        → length (records_text 0 (events_from 0 dues) (length dues)) ≤ MOST_TEXT
        → CanTape pages start.state.lines dues → driven step (Some (at_first start)) dues ≡ Some run
        → Accepts step (taped version split pages start dues) }
    ensures size { (pages : ℕ) (standing : lines.Lines) (dues : List Due) → CanTape pages standing dues
        → FewTransfers dues → length dues ≤ 2 ^ 27
        → length (records_text 0 (events_from 0 dues) (length dues)) ≤ 4130 * length dues + 5 }
{}

/// The text so far grows by the text of each step's records, and begins the text of the recording of any run that goes
/// on from there. End's text makes it that of the whole recording.
pub fn the_text_so_far_begins_the_whole()
    ensures begins { (version : ℕ) (split : Bool) (pages : ℕ) (start : MachineState) (dues more : List Due)
        → Begins (text_so_far version split pages start dues)
        (recording_text (taped version split pages start (dues ++ more))) }
    ensures more { (version : ℕ) (split : Bool) (pages : ℕ) (start : MachineState) (dues : List Due) (due : Due)
        → text_so_far version split pages start (dues ++ due ∷ [])
        ≡ text_so_far version split pages start dues
        ++ events_text (behind_all (at_start 0 start.state) (events_from 0 dues))
        (step_events (length dues) (is_marked (length dues)) due) }
    ensures whole { (version : ℕ) (split : Bool) (pages : ℕ) (start : MachineState) (dues : List Due)
        → recording_text (taped version split pages start dues)
        ≡ text_so_far version split pages start dues
        ++ end_text (behind_all (at_start 0 start.state) (events_from 0 dues)).step (length dues) }
    ensures events { (dues : List Due) (due : Due)
        → events_from 0 (dues ++ due ∷ [])
        ≡ events_from 0 dues ++ step_events (length dues) (is_marked (length dues)) due }
{}
