//! Commands that read a recording and tell its steps as they are settled.
//!
//! `open` reads what stands before the records. `stream` runs a command over a recording: a `Teller` is told each step,
//! and puts a text that grows with each. `tell_all` and `tell_run` are its loop, for whoever has opened the recording.
#![tactic(auto)]

mod opening;
mod streaming;
mod telling;

pub use opening::{Opening, open, open_behind, read_magic};
pub use streaming::{run_opened, stream};
pub use telling::{Teller, tell_all, tell_run};
