//! Laws of observations.

ghost use Rattle.std.specs.Prelude.{◌≡◌, ◌↔◌, ℕ, ◌≤◌, Bool, List, ◌∷◌, length, Some, Ok};
ghost use Rattle.std.specs.List.{AllByRecursion};
ghost use Rattle.cx_hart.specs.HartStep.{hart_step};
ghost use Rattle.cx_hart.specs.declared.record.Ended.TheVariants.{Retired};
ghost use Rattle.cx_hart.specs.declared.record.StepRec.{StepRec};
ghost use Rattle.cx_machine.specs.Due.{Due, IsDue};
ghost use Rattle.cx_machine.specs.Machine.{IsMachine, MachineState};
ghost use Rattle.cx_machine.specs.Step.{Stepped};
ghost use Rattle.cx_slices.specs.Groups.{AreGroups, Group, alone_of, groups_from, groups_of};
ghost use Rattle.cx_slices.specs.Items.{ItemsFit, Known, after, items_at, items_of, start};
ghost use Rattle.cx_slices.specs.Observed.{IsFaithful, IsPossible, IsTotal};
ghost use Rattle.cx_observe.specs.Effects.{next_words, program_words};
ghost use Rattle.cx_observe.specs.Observation.{observation_of};
ghost use Rattle.cx_observe.specs.Possible.{Possible, is_word};
ghost use Rattle.cx_observe.specs.User.{user};
ghost use Rattle.cx_observe.specs.declared.obs.Obs.{Obs};

/// Observations tell all that a step of a program takes, and take nothing as not there. They are possible where the
/// step makes them of what they tell.
pub fn observations_are_faithful()
    ensures faithful { IsFaithful user }
    ensures total { IsTotal user }
    ensures possible { (o : Obs) → Possible o ↔ IsPossible user o }
{}

/// The law of user steps. What a step in user mode shows is possible; and where it retired, pc and the registers behind
/// it are the effect of what it showed, and of nothing else.
pub fn a_user_step_is_its_effect()
    ensures possible { (split : Bool) (m : MachineState) (due : Due) (then : Stepped StepRec) (pages root : ℕ) (o : Obs)
        → hart_step split m due ≡ Some then → IsMachine pages m → IsDue pages due
        → observation_of then.rec root ≡ Some o → Possible o }
    ensures effect { (split : Bool) (m : MachineState) (due : Due) (then : Stepped StepRec) (pages root : ℕ) (o : Obs)
        → hart_step split m due ≡ Some then → IsMachine pages m → IsDue pages due
        → observation_of then.rec root ≡ Some o → then.rec.ended ≡ Retired
        → program_words then.machine.state.pc then.machine.state.x ≡ next_words o }
{}

/// A program goes alone from its slice. What goes alone is possible, and its slice is the one that leads to it.
pub fn slices_and_programs_are_one()
    ensures goes { (os : List Obs) → AllByRecursion Possible os
        → alone_of user (groups_of user os) (length os) ≡ Ok os }
    ensures possible { (groups : List (Group ℕ)) (count : ℕ) (os : List Obs) → AreGroups 32 0 count groups
        → alone_of user groups count ≡ Ok os → AllByRecursion Possible os }
    ensures only { (groups : List (Group ℕ)) (count : ℕ) (os : List Obs) → AreGroups 32 0 count groups
        → alone_of user groups count ≡ Ok os → groups ≡ groups_of user os }
    ensures count { (groups : List (Group ℕ)) (count : ℕ) (os : List Obs) → AreGroups 32 0 count groups
        → alone_of user groups count ≡ Ok os → count ≡ length os }
{}

/// The slice of a possible run can be spelled: its first group is that of index 0, its numbers are words and bytes, and
/// no group has more than eight bytes.
pub fn slices_can_be_spelled()
    ensures first { (o : Obs) (os : List Obs) → groups_of user (o ∷ os)
        ≡ record { index = 0; items = items_at user (start user) o }
        ∷ groups_from 1 (items_of user (after user (start user) o) os) }
    ensures fit { (os : List Obs) → AllByRecursion Possible os
        → AllByRecursion (λ g. ItemsFit is_word g.items) (groups_of user os) }
    ensures few { (w : Known) (o : Obs) → Possible o → length (items_at user w o).bytes ≤ 8 }
{}
