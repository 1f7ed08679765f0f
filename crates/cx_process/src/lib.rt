//! The slicer of a process: observations in, the text of their slice out.
#![tactic(auto)]

mod items;
mod laws;
mod slicer;

pub use laws::slices_grow_by_what_is_added;
pub use slicer::{Slicer, new_decoder};
