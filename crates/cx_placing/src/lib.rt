//! Slices of a run by its calls: where each item is handed over, and how a run goes alone from it.
//!
//! A program needs only what its calls of the environment give it, but for what comes from outside at other steps. So
//! what it reads is handed over at the last call, or at the start, behind which nothing has accessed the address.
//! Definitions and laws alone; they hold over any run that is watched.
#![tactic(auto)]

mod laws;

pub use laws::{
    a_call_slice_goes_alone, a_call_slice_is_gathered, a_call_slice_is_of_one_run,
    a_called_run_ends_settled, a_called_run_goes_step_by_step, gathered_bytes_are_apart,
    gathering_goes_step_by_step, placed_items_leave_the_same,
};
