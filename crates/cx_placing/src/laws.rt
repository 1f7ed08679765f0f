//! Laws of slices by calls, over any run that is watched.

ghost use Rattle.std.specs.Prelude.{◌≡◌, ℕ, ◌<◌, ◌≤◌, Bool, false, Option, List, [], ◌∷◌, ◌++◌, length, Ok};
ghost use Rattle.std.specs.Prelude.{option_to_list};
ghost use Rattle.std.specs.List.{AllByRecursion};
ghost use Rattle.cx_slices.specs.Items.{known_at, start};
ghost use Rattle.cx_slices.specs.Observed.{IsFaithful, IsPossible, IsTotal, Watch};
ghost use Rattle.cx_placing.specs.Alike.{GoAlike};
ghost use Rattle.cx_placing.specs.Called.{CallStanding, handed, standing_behind, step_called};
ghost use Rattle.cx_placing.specs.CallsAlone.{IsCallSlice, all_or_broken_from, calls_alone, ends_settled, is_settled};
ghost use Rattle.cx_placing.specs.CallsAlone.{ran_called, run_called, standing_at};
ghost use Rattle.cx_placing.specs.Gathering.{AreApart, all_gathered, call_put, gathered_by, gathered_of, missed_now, put_now};
ghost use Rattle.cx_placing.specs.Placing.{CallSlice, Placed, calls_of, head_of, placed_from};
ghost use Rattle.cx_placing.specs.Records.{whole_front};
ghost use Rattle.cx_placing.specs.Touched.{untouched};

/// The slice of a run by its calls goes alone through that run, and can be handed to it. A step that is a call has a
/// number.
pub fn a_call_slice_goes_alone<O, G>()
    ensures goes { (m : Watch O G) (called : O → Option ℕ) (os : List O) → IsFaithful m → IsTotal m
        → AllByRecursion (IsPossible m) os → calls_alone m called (calls_of m called os) ≡ Ok os }
    ensures slice { (m : Watch O G) (called : O → Option ℕ) (os : List O) → IsFaithful m
        → AllByRecursion (IsPossible m) os → IsCallSlice m.count (calls_of m called os) }
{}

/// A slice by calls that goes alone goes through a run, and is that run's slice: no other leads to it.
pub fn a_call_slice_is_of_one_run<O, G>()
    ensures possible { (m : Watch O G) (called : O → Option ℕ) (slice : CallSlice G) (os : List O) → IsFaithful m
        → IsTotal m → IsCallSlice m.count slice → calls_alone m called slice ≡ Ok os
        → AllByRecursion (IsPossible m) os }
    ensures slice { (m : Watch O G) (called : O → Option ℕ) (slice : CallSlice G) (os : List O) → IsFaithful m
        → IsTotal m → IsCallSlice m.count slice → calls_alone m called slice ≡ Ok os → slice ≡ calls_of m called os }
{}

/// At each step the items that are placed by calls leave the words, and the bytes that the step sees, that its own
/// items leave.
pub fn placed_items_leave_the_same<O, G>()
    ensures { (m : Watch O G) (called : O → Option ℕ) (os : List O) → IsFaithful m
        → GoAlike m (handed (head_of m called (start m) os) (start m)) (start m) (calls_of m called os).steps os }
{}

/// A run alone from a slice by calls goes on by one step, and where it has stopped it stays so.
pub fn a_called_run_goes_step_by_step<O, G>()
    ensures more { (m : Watch O G) (called : O → Option ℕ) (s : CallStanding) (ps : List (Placed G)) (p : Placed G)
        → length (ran_called m called s ps) ≡ length ps → ran_called m called s (ps ++ p ∷ [])
        ≡ ran_called m called s ps
        ++ option_to_list (step_called m called (standing_at m s ps (ran_called m called s ps)) p) }
    ensures stopped { (m : Watch O G) (called : O → Option ℕ) (s : CallStanding) (ps qs : List (Placed G))
        → length (ran_called m called s ps) < length ps
        → ran_called m called s (ps ++ qs) ≡ ran_called m called s ps }
    ensures most { (m : Watch O G) (called : O → Option ℕ) (s : CallStanding) (ps : List (Placed G))
        → length (ran_called m called s ps) ≤ length ps }
    ensures stands { (m : Watch O G) (s : CallStanding) (ps : List (Placed G)) (os : List O) (p : Placed G) (o : O)
        → length os ≡ length ps
        → standing_at m s (ps ++ p ∷ []) (os ++ o ∷ []) ≡ standing_behind m (standing_at m s ps os) o p.call }
{}

/// A run is all of its steps where each of them goes and nothing is owed at the end, else it breaks where it stops.
pub fn a_called_run_ends_settled<O, G>()
    ensures run { (m : Watch O G) (called : O → Option ℕ) (k : ℕ) (s : CallStanding) (ps : List (Placed G))
        → run_called m called k s ps
        ≡ all_or_broken_from k (ends_settled m called s ps) (ran_called m called s ps) }
    ensures whole { (m : Watch O G) (called : O → Option ℕ) (s : CallStanding) (ps : List (Placed G))
        → length (ran_called m called s ps) ≡ length ps
        → ends_settled m called s ps ≡ is_settled (standing_at m s ps (ran_called m called s ps)) }
    ensures stopped { (m : Watch O G) (called : O → Option ℕ) (s : CallStanding) (ps : List (Placed G))
        → length (ran_called m called s ps) < length ps → ends_settled m called s ps ≡ false }
{}

/// What is gathered, with what was put, is the whole slice by calls; and what was put is what stands before its last
/// call. One observation more leaves that as it is, where it is no call.
pub fn a_call_slice_is_gathered<O>()
    ensures whole { (m : Watch O ℕ) (called : O → Option ℕ) (os : List O)
        → whole_front (calls_of m called os) ≡ all_gathered (gathered_of m called os) }
    ensures put { (m : Watch O ℕ) (called : O → Option ℕ) (os : List O)
        → (gathered_of m called os).put ≡ call_put m called os }
    ensures grows { (m : Watch O ℕ) (called : O → Option ℕ) (os : List O) (o : O)
        → call_put m called (os ++ o ∷ []) ≡ put_now m (gathered_of m called os) o (called o) }
{}

/// What is gathered goes on by one observation. It knows what is known behind them, and how many they are.
pub fn gathering_goes_step_by_step<O>()
    ensures more { (m : Watch O ℕ) (called : O → Option ℕ) (os : List O) (o : O)
        → gathered_of m called (os ++ o ∷ []) ≡ gathered_by m (gathered_of m called os) o (called o) }
    ensures known { (m : Watch O ℕ) (called : O → Option ℕ) (os : List O)
        → (gathered_of m called os).known ≡ known_at m (start m) os }
    ensures count { (m : Watch O ℕ) (called : O → Option ℕ) (os : List O)
        → (gathered_of m called os).count ≡ length os }
{}

/// The bytes that are gathered are at addresses of their own, also with those of one step more.
pub fn gathered_bytes_are_apart<O>()
    ensures missed { (m : Watch O ℕ) (called : O → Option ℕ) (os : List O) → IsFaithful m
        → AreApart (gathered_of m called os).missed }
    ensures now { (m : Watch O ℕ) (called : O → Option ℕ) (os : List O) (o : O) → IsFaithful m
        → AreApart (missed_now m (gathered_of m called os) o) }
{}
