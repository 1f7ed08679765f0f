//! Laws of slicing.

ghost use Rattle.std.specs.Prelude.{◌≡◌, List, [], ◌∷◌, ◌++◌, length};
ghost use Rattle.cx_observe.specs.User.{user};
ghost use Rattle.cx_observe.specs.declared.obs.Obs.{Obs};
ghost use Rattle.cx_process.specs.Slicing.{added_text};
ghost use Rattle.cx_slicefmt.specs.Text.{least_behind, slice_body, slice_end_text, slice_magic, slice_text};
ghost use Rattle.cx_slices.specs.Groups.{groups_of};

/// Before the first observation the magic stands. What one observation adds stands behind the text of the slice of
/// those before it, and the end behind all of it.
pub fn slices_grow_by_what_is_added()
    ensures start { slice_body (groups_of user []) ≡ slice_magic }
    ensures body { (os : List Obs) (o : Obs)
        → slice_body (groups_of user (os ++ o ∷ [])) ≡ slice_body (groups_of user os) ++ added_text os o }
    ensures end { (os : List Obs) → slice_text (groups_of user os) (length os)
        ≡ slice_body (groups_of user os) ++ slice_end_text (least_behind 0 (groups_of user os)) (length os) }
{}
