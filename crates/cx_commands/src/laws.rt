//! Laws of what commands do.

ghost use Rattle.std.specs.Prelude.{◌≡◌, ◌≢◌, ◌⊎◌, ◌-◌, ◌<◌, ◌≤◌, ◌++◌, ℕ, List, drop, length, take};
ghost use Rattle.std.specs.Prelude.{Option, None, Some};
ghost use Rattle.cx_callfmt.specs.Text.{call_magic};
ghost use Rattle.cx_calls.specs.Begun.{calls_text};
ghost use Rattle.cx_io.specs.declared.outside.Outside.{Outside};
ghost use Rattle.cx_log.specs.Recording.{Recording};
ghost use Rattle.cx_log.specs.Text.{recording_text};
ghost use Rattle.cx_map.specs.Bytes.{AreBytes};
ghost use Rattle.cx_observe.specs.declared.obs.Obs.{Obs};
ghost use Rattle.cx_replay.specs.Records.{MayBeWhole};
ghost use Rattle.cx_slicefmt.specs.Text.{slice_magic};
ghost use Rattle.cx_commands.specs.Calls.{calling};
ghost use Rattle.cx_commands.specs.Doing.{Answers, Doing, Leaves};
ghost use Rattle.cx_commands.specs.Observed.{observation_lines, observations_in, observed_of};
ghost use Rattle.cx_commands.specs.Process.{slice_of, slicing};
ghost use Rattle.cx_commands.specs.Record.{IsLiveRecording, RunsToEnd, recording};
ghost use Rattle.cx_commands.specs.Relog.{relogging};
ghost use Rattle.cx_commands.specs.Replay.{replaying};
ghost use Rattle.cx_commands.specs.Slicing.{CanBeSliced};
ghost use Rattle.cx_commands.specs.Trace.{tracing};
ghost use Rattle.cx_commands.specs.TraceRoot.{tracing_root};
ghost use Rattle.cx_commands.specs.TraceWindow.{IsPartOf, tracing_window};
ghost use Rattle.cx_commands.specs.Upgrade.{IsUpgraded, upgrading};
ghost use Rattle.cx_commands.specs.Window.{DoneAs, WindowOf, WritesAlike, windowed};

use crate::status::Status;

/// An input that isn't refused, and that no fault of source, sink or world kept from being read and written, is done,
/// or memory was refused.
pub fn good_inputs_are_done()
    ensures { (d : Doing) (left : Option (List ℕ)) (given input bytes : List ℕ) (answer : Status)
        → MayBeWhole left given input → d.refusal bytes ≡ None
        → answer ≢ Status.ReadFault → answer ≢ Status.WriteFault → answer ≢ Status.WorldFault
        → Answers d bytes (MayBeWhole left given input) (input ≡ given) answer
        → (answer ≡ Status.Done) ⊎ (answer ≡ Status.NoMemory) }
{}

/// What `trace window` writes of an input that it doesn't refuse stands in what `trace all` writes of the input.
pub fn traced_windows_are_parts()
    ensures { (a b : ℕ) (bytes : List ℕ) → AreBytes bytes → (tracing_window a b).refusal bytes ≡ None
        → IsPartOf ((tracing_window a b).full bytes) (tracing.full bytes) }
{}

/// What `upgrade` writes of an input that it doesn't refuse is the text of the input's recording in version 2, which is
/// accepted and has the same run. An input of version 2 is written as it is.
pub fn upgrades_run_alike()
    ensures { (bytes : List ℕ) → AreBytes bytes → upgrading.refusal bytes ≡ None
        → (R : Recording) × IsUpgraded bytes R }
{}

/// What `window` writes of an input that it doesn't refuse is the text of one recording: it is the window of the
/// input's recording, it is accepted, and its run is that of the input from the window's first step to its last.
pub fn windows_are_written()
    ensures { (a b : ℕ) (bytes : List ℕ) → AreBytes bytes → (windowed a b).refusal bytes ≡ None
        → (W : Recording) × (WindowOf a b bytes W × ((windowed a b).full bytes ≡ recording_text W)) }
{}

/// What `window a b` writes of an input, read by `window c d` of steps within: it isn't refused, and what is written of
/// it is what `window c d` writes of the input itself. So the second of two calls appends that, unless a fault or want
/// of memory came.
pub fn windows_of_windows_are_windows()
    ensures alike { (a b c d : ℕ) (bytes text : List ℕ) → AreBytes bytes → AreBytes text
        → (windowed a b).refusal bytes ≡ None → text ≡ (windowed a b).full bytes → a ≤ c → c < d → d ≤ b
        → WritesAlike (windowed c d) text bytes }
    ensures calls { (a b c d : ℕ) (bytes text given input : List ℕ) (left held now : Option (List ℕ)) (answer : Status)
        → AreBytes bytes → AreBytes text → (windowed a b).refusal bytes ≡ None → text ≡ (windowed a b).full bytes
        → a ≤ c → c < d → d ≤ b → MayBeWhole left given input
        → Answers (windowed c d) text (MayBeWhole left given input) (input ≡ given) answer
        → Leaves (windowed c d) text (MayBeWhole left given input) (input ≡ given) answer held now
        → DoneAs (windowed c d) bytes held now answer }
{}

/// What `record` writes of an image whose run over these answers ends with them is the text of one recording: it is
/// accepted, its run is that run, and `record` takes exactly as many steps as there are answers.
pub fn recordings_are_live_runs()
    ensures { (steps : ℕ) (bytes : List ℕ) (answers : List Outside) → RunsToEnd steps bytes answers
        → IsLiveRecording steps bytes answers ((recording answers).full bytes) }
{}

/// What `process` writes of an input that it doesn't refuse goes alone through the program's run: `replay` doesn't
/// refuse it, and writes what `trace root` writes of the input. So a call of `replay` on it appends that, unless a
/// fault or want of memory came.
pub fn slices_are_replayed()
    ensures good { (root : ℕ) (bytes : List ℕ) → AreBytes bytes → (slicing root).refusal bytes ≡ None
        → replaying.refusal ((slicing root).full bytes) ≡ None }
    ensures lines { (root : ℕ) (bytes : List ℕ) → AreBytes bytes → (slicing root).refusal bytes ≡ None
        → replaying.full ((slicing root).full bytes) ≡ (tracing_root root).full bytes }
    ensures calls { (root : ℕ) (bytes text given input : List ℕ) (left held now : Option (List ℕ)) (answer : Status)
        → AreBytes bytes → (slicing root).refusal bytes ≡ None → text ≡ (slicing root).full bytes
        → MayBeWhole left given input
        → Answers replaying text (MayBeWhole left given input) (input ≡ given) answer
        → Leaves replaying text (MayBeWhole left given input) (input ≡ given) answer held now
        → DoneAs (tracing_root root) bytes held now answer }
{}

/// What `process` writes of an input that it doesn't refuse is the slice of what the input's steps show of the root,
/// and of nothing else: inputs that show the same have one slice, whatever else they hold, and whichever the roots are.
pub fn slices_show_one_program()
    ensures slice { (root : ℕ) (bytes : List ℕ) → (slicing root).refusal bytes ≡ None
        → (slicing root).full bytes ≡ slice_of (observed_of root bytes) }
    ensures alike { (root other_root : ℕ) (bytes other : List ℕ) → (slicing root).refusal bytes ≡ None
        → (slicing other_root).refusal other ≡ None → observed_of root bytes ≡ observed_of other_root other
        → (slicing root).full bytes ≡ (slicing other_root).full other }
{}

/// Of what begins as a slice `replay` refuses exactly what isn't one: what it doesn't refuse is the slice of a list of
/// observations that can be sliced; the slice of each such list isn't refused, the lines of the list are written of it,
/// and it is of no other list.
pub fn process_slices_are_of_one_run()
    ensures slice { (bytes : List ℕ) → AreBytes bytes → replaying.refusal (slice_magic ++ bytes) ≡ None
        → (os : List Obs) × (CanBeSliced os × (slice_magic ++ bytes ≡ slice_of os)) }
    ensures good { (os : List Obs) → CanBeSliced os → replaying.refusal (slice_of os) ≡ None }
    ensures lines { (os : List Obs) → CanBeSliced os → replaying.full (slice_of os) ≡ observation_lines 0 os }
    ensures one { (os ps : List Obs) → CanBeSliced os → CanBeSliced ps → slice_of os ≡ slice_of ps → os ≡ ps }
{}

/// What `window` writes of an input that it doesn't refuse shows of a root what the input's steps show of it from the
/// window's first step to its last, and nothing else.
pub fn windows_show_their_steps()
    ensures { (a b : ℕ) (bytes : List ℕ) → AreBytes bytes → (windowed a b).refusal bytes ≡ None
        → (W : Recording) × ((w : WindowOf a b bytes W) × ((root : ℕ) → observed_of root ((windowed a b).full bytes)
        ≡ observations_in root (take (b - a) (drop (a - w.of.base) w.run.records)))) }
{}

/// No slice that `replay` doesn't refuse is a front of another: one that is cut off is bad at its end.
pub fn no_slice_is_cut()
    ensures { (bytes front more : List ℕ) → AreBytes bytes → replaying.refusal (slice_magic ++ bytes) ≡ None
        → front ++ more ≡ slice_magic ++ bytes → 1 ≤ length more
        → replaying.refusal front ≡ Some (Status.Format (length front)) }
{}

/// What `calls` writes of an input that it doesn't refuse goes alone through the program's run: `replay` doesn't refuse
/// it, and writes what `trace root` writes of the input. So a call of `replay` on it appends that, unless a fault or
/// want of memory came.
pub fn call_slices_are_replayed()
    ensures good { (root : ℕ) (bytes : List ℕ) → AreBytes bytes → (calling root).refusal bytes ≡ None
        → replaying.refusal ((calling root).full bytes) ≡ None }
    ensures lines { (root : ℕ) (bytes : List ℕ) → AreBytes bytes → (calling root).refusal bytes ≡ None
        → replaying.full ((calling root).full bytes) ≡ (tracing_root root).full bytes }
    ensures calls { (root : ℕ) (bytes text given input : List ℕ) (left held now : Option (List ℕ)) (answer : Status)
        → AreBytes bytes → (calling root).refusal bytes ≡ None → text ≡ (calling root).full bytes
        → MayBeWhole left given input
        → Answers replaying text (MayBeWhole left given input) (input ≡ given) answer
        → Leaves replaying text (MayBeWhole left given input) (input ≡ given) answer held now
        → DoneAs (tracing_root root) bytes held now answer }
{}

/// What `calls` writes of an input that it doesn't refuse is the call slice of what the input's steps show of the root,
/// and of nothing else: inputs that show the same have one call slice, whatever else they hold.
pub fn call_slices_show_one_program()
    ensures slice { (root : ℕ) (bytes : List ℕ) → (calling root).refusal bytes ≡ None
        → (calling root).full bytes ≡ calls_text (observed_of root bytes) }
    ensures alike { (root other_root : ℕ) (bytes other : List ℕ) → (calling root).refusal bytes ≡ None
        → (calling other_root).refusal other ≡ None → observed_of root bytes ≡ observed_of other_root other
        → (calling root).full bytes ≡ (calling other_root).full other }
{}

/// Of what begins as a call slice `replay` refuses exactly what isn't one: what it doesn't refuse is the call slice of a
/// list of observations that can be sliced; the call slice of each such list isn't refused, the lines of the list are
/// written of it, and it is of no other list.
pub fn call_slices_are_of_one_run()
    ensures slice { (bytes : List ℕ) → AreBytes bytes → replaying.refusal (call_magic ++ bytes) ≡ None
        → (os : List Obs) × (CanBeSliced os × (call_magic ++ bytes ≡ calls_text os)) }
    ensures good { (os : List Obs) → CanBeSliced os → replaying.refusal (calls_text os) ≡ None }
    ensures lines { (os : List Obs) → CanBeSliced os → replaying.full (calls_text os) ≡ observation_lines 0 os }
    ensures one { (os ps : List Obs) → CanBeSliced os → CanBeSliced ps → calls_text os ≡ calls_text ps → os ≡ ps }
{}

/// No call slice that `replay` doesn't refuse is a front of another: one that is cut off is bad at its end.
pub fn no_call_slice_is_cut()
    ensures { (bytes front more : List ℕ) → AreBytes bytes → replaying.refusal (call_magic ++ bytes) ≡ None
        → front ++ more ≡ call_magic ++ bytes → 1 ≤ length more
        → replaying.refusal front ≡ Some (Status.Format (length front)) }
{}

/// `relog` takes process slices alone: of what begins as one it refuses what `replay` refuses, and of what it doesn't
/// refuse it writes the call slice of what `replay` goes through.
pub fn relog_takes_process_slices()
    ensures refused { (bytes : List ℕ)
        → relogging.refusal (slice_magic ++ bytes) ≡ replaying.refusal (slice_magic ++ bytes) }
    ensures magic { (bytes : List ℕ) → AreBytes bytes → relogging.refusal bytes ≡ None
        → (rest : List ℕ) × (bytes ≡ slice_magic ++ rest) }
    ensures good { (os : List Obs) → CanBeSliced os → relogging.refusal (slice_of os) ≡ None }
    ensures text { (os : List Obs) → CanBeSliced os → relogging.full (slice_of os) ≡ calls_text os }
{}

/// What `process` writes of an input that it doesn't refuse isn't refused by `relog`, which writes of it what `calls`
/// writes of the input. So a call of `relog` on it appends that, unless a fault or want of memory came.
pub fn slices_are_relogged()
    ensures good { (root : ℕ) (bytes : List ℕ) → AreBytes bytes → (slicing root).refusal bytes ≡ None
        → relogging.refusal ((slicing root).full bytes) ≡ None }
    ensures text { (root : ℕ) (bytes : List ℕ) → AreBytes bytes → (slicing root).refusal bytes ≡ None
        → relogging.full ((slicing root).full bytes) ≡ (calling root).full bytes }
    ensures calls { (root : ℕ) (bytes text given input : List ℕ) (left held now : Option (List ℕ)) (answer : Status)
        → AreBytes bytes → (slicing root).refusal bytes ≡ None → text ≡ (slicing root).full bytes
        → MayBeWhole left given input
        → Answers relogging text (MayBeWhole left given input) (input ≡ given) answer
        → Leaves relogging text (MayBeWhole left given input) (input ≡ given) answer held now
        → DoneAs (calling root) bytes held now answer }
{}
