//! Reaching any step of a recording.
//!
//! A seeker reads a recording once, and keeps checkpoints of its run and what was due to its steps. From a checkpoint
//! it takes the steps up to any other again.
#![tactic(auto)]

mod checkpoint;
mod course;
mod fault;
mod handed;
mod keeping;
mod laws;
mod notes;
mod opening;
mod player;
mod seeker;
mod step;

pub use fault::SeekFault;
pub use laws::{checkpoints_are_few, distance_is_doubled_at_64};
pub use seeker::Seeker;
