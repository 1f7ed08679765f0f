//! The replay of a process slice alone: its text in, the observations of its steps out.
//!
//! It has bytes and registers of its own, which hold what the slice handed to the steps and what the steps left, and
//! carries out one instruction a call. It never sees a recording.
#![tactic(auto)]

mod ahead;
mod alone;
mod fault;
mod handing;
mod laws;
mod step;

pub use alone::Alone;
pub use fault::{Stop, replay_fault};
pub use handing::{all_change, all_there, changed, is_there, none_stands};
pub use laws::{an_input_may_be_all_along, slices_are_judged_by_their_steps};
pub use step::sees;
