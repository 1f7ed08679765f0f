//! What each command does, by definition, and the laws of it.
//!
//! A command is a `Doing`: the answer where its input is refused, what it writes where it isn't, and what of that stands
//! in the sink where the input ends badly or is cut off. The definitions stand in `specs/`, a file for each command, and
//! `Call` has what one call of the program is by its words. Here are the statuses that a call answers, what an input is
//! by its first bytes, and the laws: that a window of a window is a window, that a slice replays, and the like.
#![tactic(auto)]

mod laws;
mod magic;
mod status;

pub use laws::{
    call_slices_are_of_one_run, call_slices_are_replayed, call_slices_show_one_program,
    good_inputs_are_done, no_call_slice_is_cut, no_slice_is_cut, process_slices_are_of_one_run,
    recordings_are_live_runs, relog_takes_process_slices, slices_are_relogged, slices_are_replayed,
    slices_show_one_program, traced_windows_are_parts, upgrades_run_alike, windows_are_written,
    windows_of_windows_are_windows, windows_show_their_steps,
};
pub use magic::Magic;
pub use status::Status;
