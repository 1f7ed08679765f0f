//! The replay of a call slice alone: its text in, the observations of its steps out.
#![tactic(auto)]

mod ahead;
mod alone;
mod called;
mod items;
mod laws;
mod marking;
mod reading;
mod step;
mod taking;

pub use alone::CallAlone;
pub use laws::{call_slices_are_judged_by_their_steps, records_tell_their_steps};
