//! Laws of slicing by calls.

ghost use Rattle.std.specs.Prelude.{◌≡◌, List, [], ◌∷◌, ◌++◌};
ghost use Rattle.cx_callfmt.specs.Text.{call_magic};
ghost use Rattle.cx_calls.specs.Begun.{calls_added, calls_begun, calls_ending, calls_text};
ghost use Rattle.cx_observe.specs.declared.obs.Obs.{Obs};

/// Before the first observation the magic stands. What one observation adds stands behind what stood of those before
/// it, and the end behind all of it.
pub fn call_slices_grow_by_what_is_added()
    ensures start { calls_begun [] ≡ call_magic }
    ensures body { (os : List Obs) (o : Obs) → calls_begun (os ++ o ∷ []) ≡ calls_begun os ++ calls_added os o }
    ensures end { (os : List Obs) → calls_text os ≡ calls_begun os ++ calls_ending os }
{}
