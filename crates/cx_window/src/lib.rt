//! Cutting a window from the run of a recording.
//!
//! The run goes on step by step. Before the window's first step the machine is kept, and from there on the pages that
//! the steps read are marked. What is kept is a slice, which is written as a recording of its own, or run again.
#![tactic(auto)]

mod cutting;
mod laws;
mod marks;
mod slice;
mod slicer;
mod span;

pub use cutting::cut;
pub use laws::a_slice_runs_again;
pub use slice::Slice;
pub use span::Span;
