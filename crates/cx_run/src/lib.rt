//! The run of a recording, and its windows: definitions, and the laws that hold of them.
//!
//! A step function takes a machine and what is due to it, and gives the machine after the step with a record of it, or
//! nothing where the step can't be carried out so. All of this holds over any step function; where a law asks something
//! of it, as that it reads nothing but what its records name, the law says so.
#![tactic(auto)]

mod laws;
mod taping;

pub use laws::{
    a_window_runs_again, events_of_a_step_are_due, first_break_is_known, inputs_without_bad_place,
    kept_pages_are_those_of_the_memory, kept_pages_are_written_one_by_one,
    pages_are_marked_step_by_step, run_stops_at_its_first_gap, runs_begin_with_shorter_runs,
    runs_know_no_later_event, window_is_accepted, window_is_there_once, window_of_window,
    window_runs_alone, windows_are_shorter,
};
pub use taping::{
    a_taped_run_is_accepted, a_taped_run_runs_again, records_of_a_step_follow,
    the_text_so_far_begins_the_whole,
};
