//! What the answers of a replay of a slice rest on.

ghost use Rattle.std.specs.Prelude.{◌≡◌, ◌↔◌, List, ℕ, ◌++◌, Option, None, Some, Ok};
ghost use Rattle.cx_observe.specs.User.{user};
ghost use Rattle.cx_observe.specs.declared.obs.Obs.{Obs};
ghost use Rattle.cx_replay.specs.Records.{GaveMore};
ghost use Rattle.cx_slices.specs.Groups.{alone_of};
ghost use Rattle.cx_slices.specs.Settled.{SliceScan, slice_bad};
ghost use Rattle.cx_alone.specs.Ahead.{MayBeInput};
ghost use Rattle.cx_alone.specs.Replaying.{GaveAll};

/// An input that may be once a source gave more could be all along, and what the source gave is one too.
pub fn an_input_may_be_all_along()
    ensures before { (left left_now : Option (List ℕ)) (given given_now input : List ℕ)
        → GaveMore left given left_now given_now → MayBeInput left_now given_now input → MayBeInput left given input }
    ensures given { (left : Option (List ℕ)) (given : List ℕ) → MayBeInput left given given }
    ensures real { (left : List ℕ) (given : List ℕ) → MayBeInput (Some left) given (given ++ left) }
{}

/// A replay that gave all of a slice gave the run of it: the slice goes alone exactly where it has no bad place.
pub fn slices_are_judged_by_their_steps()
    ensures { (whole : SliceScan ℕ) (os : List Obs) → GaveAll whole os
        → (slice_bad user whole ≡ None) ↔ ((whole.bad ≡ None) × (alone_of user whole.groups whole.upto ≡ Ok os)) }
{}
