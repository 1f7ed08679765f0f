//! Laws of slices, over any run that is watched.

ghost use Rattle.std.specs.Prelude.{◌≡◌, ◌↔◌, ℕ, suc, ◌+◌, ◌<◌, ◌≤◌, Bool, true, List, [], ◌∷◌, ◌++◌, length, None, Some, Ok};
ghost use Rattle.std.specs.Prelude.{option_to_list};
ghost use Rattle.std.specs.List.{AllByRecursion};
ghost use Rattle.cx_slices.specs.Alone.{run_alone, step_alone};
ghost use Rattle.cx_slices.specs.Bytes.{Byte, BytesRise, byte_found};
ghost use Rattle.cx_slices.specs.Groups.{AreGroups, Group, GroupsBelow, GroupsRise, alone_of, groups_from, groups_of};
ghost use Rattle.cx_slices.specs.Items.{AreItems, Items, ItemsFit, Known, ObservationFits, items_at, known_at, start};
ghost use Rattle.cx_slices.specs.Observed.{IsFaithful, IsPossible, IsTotal, Watch};
ghost use Rattle.cx_slices.specs.Runs.{FollowsOn, IsPossibleRun};
ghost use Rattle.cx_slices.specs.Settled.{SliceScan, settled_run, slice_bad};
ghost use Rattle.cx_slices.specs.Stretches.{AreStretches, Stretch, bytes_of_stretches, stretches_of};

/// Lists that rise and have the same byte at each address are one.
pub fn bytes_are_one_list()
    ensures { (m n : ℕ) (xs ys : List Byte) → BytesRise m xs → BytesRise n ys
        → ((a : ℕ) → byte_found xs a ≡ byte_found ys a) → xs ≡ ys }
{}

/// A step alone goes with the items of its observation, and with no others.
pub fn a_step_has_its_items<O, G>()
    ensures goes { (m : Watch O G) (w : Known) (o : O) → IsFaithful m → length w.words ≡ m.count → FollowsOn m w o
        → step_alone m w (items_at m w o) ≡ Some o }
    ensures follows { (m : Watch O G) (w : Known) (i : Items G) (o : O) → IsFaithful m → length w.words ≡ m.count
        → AreItems m.count i → step_alone m w i ≡ Some o → FollowsOn m w o }
    ensures only { (m : Watch O G) (w : Known) (i : Items G) (o : O) → IsFaithful m → length w.words ≡ m.count
        → AreItems m.count i → step_alone m w i ≡ Some o → i ≡ items_at m w o }
{}

/// The slice of a run is one, and goes through that run alone.
pub fn a_slice_goes_alone<O, G>()
    ensures slice { (m : Watch O G) (os : List O) → IsFaithful m → IsPossibleRun m (start m) os
        → AreGroups m.count 0 (length os) (groups_of m os) }
    ensures goes { (m : Watch O G) (os : List O) → IsFaithful m → IsPossibleRun m (start m) os
        → alone_of m (groups_of m os) (length os) ≡ Ok os }
{}

/// A slice that goes alone goes through a run, and is that run's slice: no other leads to it.
pub fn a_slice_is_of_one_run<O, G>()
    ensures run { (m : Watch O G) (groups : List (Group G)) (count : ℕ) (os : List O) → IsFaithful m
        → AreGroups m.count 0 count groups → alone_of m groups count ≡ Ok os → IsPossibleRun m (start m) os }
    ensures groups { (m : Watch O G) (groups : List (Group G)) (count : ℕ) (os : List O) → IsFaithful m
        → AreGroups m.count 0 count groups → alone_of m groups count ≡ Ok os → groups ≡ groups_of m os }
    ensures count { (m : Watch O G) (groups : List (Group G)) (count : ℕ) (os : List O) → IsFaithful m
        → AreGroups m.count 0 count groups → alone_of m groups count ≡ Ok os → count ≡ length os }
{}

/// Where nothing is taken as not there, a run is any list of possible observations. Those of a run are always possible.
pub fn possible_observations_are_a_run<O, G>()
    ensures run { (m : Watch O G) (w : Known) (os : List O) → IsTotal m → AllByRecursion (IsPossible m) os
        → IsPossibleRun m w os }
    ensures possible { (m : Watch O G) (w : Known) (os : List O) → IsPossibleRun m w os
        → AllByRecursion (IsPossible m) os }
{}

/// One observation more adds its group to a slice, where it has items, and changes nothing before it; and a run goes on
/// by an observation that follows on.
pub fn a_slice_grows_by_one_group<O, G>()
    ensures group { (m : Watch O G) (os : List O) (o : O) → groups_of m (os ++ o ∷ [])
        ≡ groups_of m os ++ groups_from (length os) (items_at m (known_at m (start m) os) o ∷ []) }
    ensures more { (m : Watch O G) (w : Known) (os : List O) (o : O) → IsPossibleRun m w os
        → FollowsOn m (known_at m w os) o → IsPossibleRun m w (os ++ o ∷ []) }
    ensures less { (m : Watch O G) (w : Known) (os : List O) (o : O) → IsPossibleRun m w (os ++ o ∷ [])
        → IsPossibleRun m w os × FollowsOn m (known_at m w os) o }
{}

/// A run alone goes on by one step, and where it has stopped it stays so.
pub fn a_run_alone_goes_step_by_step<O, G>()
    ensures more { (m : Watch O G) (w : Known) (is : List (Items G)) (i : Items G)
        → length (run_alone m w is) ≡ length is → run_alone m w (is ++ i ∷ [])
        ≡ run_alone m w is ++ option_to_list (step_alone m (known_at m w (run_alone m w is)) i) }
    ensures stopped { (m : Watch O G) (w : Known) (is js : List (Items G)) → length (run_alone m w is) < length is
        → run_alone m w (is ++ js) ≡ run_alone m w is }
{}

/// The groups of a slice are in order, and each is of one of its observations, whatever these are.
pub fn a_slice_is_in_order<O, G>()
    ensures rises { (m : Watch O G) (os : List O) → GroupsRise 0 (groups_of m os) }
    ensures below { (m : Watch O G) (os : List O) → GroupsBelow (length os) (groups_of m os) }
{}

/// An input is a slice that goes alone exactly where it has no bad place. No more observations are settled than steps.
pub fn a_good_slice_goes_alone<O, G>()
    ensures good { (m : Watch O G) (s : SliceScan G) → (slice_bad m s ≡ None)
        ↔ ((s.bad ≡ None) × (alone_of m s.groups s.upto ≡ Ok (settled_run m s.upto s.groups))) }
    ensures most { (m : Watch O G) (upto : ℕ) (groups : List (Group G)) → length (settled_run m upto groups) ≤ upto }
{}

/// The slice of observations that fit has groups that fit.
pub fn groups_fit_where_observations_do<O, G>()
    ensures { (m : Watch O G) (fits : G → Bool) (os : List O) → AllByRecursion (ObservationFits m fits) os
        → AllByRecursion (λ g. ItemsFit fits g.items) (groups_of m os) }
{}

/// Bytes that rise and stretches with gaps between them are one, each way. There are no more stretches than bytes, and
/// none is longer than all bytes.
pub fn bytes_and_stretches_are_one()
    ensures bytes { (es : List Byte) → bytes_of_stretches (stretches_of es) ≡ es }
    ensures are { (least : ℕ) (es : List Byte) → BytesRise least es → AreStretches least (stretches_of es) }
    ensures stretches { (least : ℕ) (ss : List Stretch) → AreStretches least ss
        → stretches_of (bytes_of_stretches ss) ≡ ss }
    ensures rise { (least : ℕ) (ss : List Stretch) → AreStretches least ss → BytesRise least (bytes_of_stretches ss) }
    ensures few { (es : List Byte) → length (stretches_of es) ≤ length es }
    ensures short { (es : List Byte) → AllByRecursion (λ s. length s.bytes ≤ length es) (stretches_of es) }
{}
