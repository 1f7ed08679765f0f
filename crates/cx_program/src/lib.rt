//! A program in user mode as code sees it: what an observation tells and leaves, and what is known of a program at a
//! step.
#![tactic(auto)]

mod answers;
mod bytes;
mod reading;
mod room;
mod sorting;
mod standing;
mod stepping;
mod words;

pub use bytes::{Bytes, bytes_seen, bytes_written, front};
pub use standing::{Standing, has_byte};
pub use stepping::step;
pub use words::words_told;
