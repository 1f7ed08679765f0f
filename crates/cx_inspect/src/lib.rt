//! What a recording is asked for.
//!
//! `Roots` keeps the roots of page tables that occur in a run, in the order in which they were first seen, with the
//! number of the steps that were chosen for each and the first of them. `root_line` puts the line of one, and
//! `Roots::put_lines` those of all.
#![tactic(auto)]

mod lines;
mod roots;

pub use cx_print::root_line;
pub use roots::{Roots, Tally};
