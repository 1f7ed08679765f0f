//! Slices of a run that is watched: what has to be handed to it, step by step, so that it goes alone.
//!
//! Definitions and laws alone. They hold over any run whose observations tell what its steps take and leave; a program
//! in user mode is one. The first law that is worth reading is that a slice goes alone, the second that it is the only
//! one that leads to its run.
#![tactic(auto)]

mod laws;

pub use laws::{
    a_good_slice_goes_alone, a_run_alone_goes_step_by_step, a_slice_goes_alone,
    a_slice_grows_by_one_group, a_slice_is_in_order, a_slice_is_of_one_run, a_step_has_its_items,
    bytes_and_stretches_are_one, bytes_are_one_list, groups_fit_where_observations_do,
    possible_observations_are_a_run,
};
