//! What of a cut or damaged recording is a recording still: definitions, and the laws that hold of them.
//!
//! A mark is good where each step below its own is settled and carried out. An input with a bad place is saved up to
//! its last good mark, any other whole. All of this is said over any step function.
#![tactic(auto)]

mod laws;

pub use laws::{
    cuts_run_alike, good_inputs_are_saved_whole, inputs_are_saved_behind_their_pages,
    inputs_are_saved_to_their_last_good_mark, what_is_saved_is_accepted,
    what_stands_fast_grows_with_good_marks, windows_of_a_cut,
};
