//! The slicer of a program by its calls: observations in, the text of their slice out.
#![tactic(auto)]

mod caller;
mod feeding;
mod gatherer;
mod items;
mod laws;
mod letting;
mod sorting;
mod touching;

pub use caller::Caller;
pub use laws::call_slices_grow_by_what_is_added;
