//! The answers to queries about a recording.
//!
//! `inspect` reads a recording to its end, and puts a line for the answer to each query, in order.
#![tactic(auto)]

mod inspecting;
mod lines;
mod queries;
mod reading;

pub use inspecting::inspect;
