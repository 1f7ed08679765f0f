//! What the replay of a call slice rests on.

ghost use Rattle.std.specs.Prelude.{◌≡◌, ◌↔◌, List, ℕ, length, None, Ok, true};
ghost use Rattle.cx_calls.specs.Calling.{called};
ghost use Rattle.cx_callfmt.specs.Scan.{CallScan};
ghost use Rattle.cx_observe.specs.User.{user};
ghost use Rattle.cx_observe.specs.declared.obs.Obs.{Obs};
ghost use Rattle.cx_placing.specs.CallsAlone.{calls_alone};
ghost use Rattle.cx_placing.specs.Placing.{Placed};
ghost use Rattle.cx_placing.specs.Records.{records_from};
ghost use Rattle.cx_call_alone.specs.Placed.{AreWide, placed_between};
ghost use Rattle.cx_call_alone.specs.Running.{GaveAllCalled};
ghost use Rattle.cx_call_alone.specs.Settled.{calls_bad, slice_scanned};

/// The steps of a call slice are what its records tell.
pub fn records_tell_their_steps()
    ensures { (count k : ℕ) (ps : List (Placed ℕ)) → AreWide count ps
        → placed_between count k (length ps) (records_from k ps) ≡ ps }
{}

/// A replay that gave all of a call slice gave the run of it: the slice goes alone exactly where it has no bad place.
pub fn call_slices_are_judged_by_their_steps()
    ensures { (whole : CallScan) (os : List Obs) → GaveAllCalled user called whole os
        → (whole.bad ≡ None → whole.ended ≡ true) → (calls_bad user called whole ≡ None)
        ↔ ((whole.bad ≡ None) × (calls_alone user called (slice_scanned 32 whole) ≡ Ok os)) }
{}
