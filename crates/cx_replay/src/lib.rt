//! Replaying a recording step by step, as its records are read.
#![tactic(auto)]

mod advance;
mod due;
mod fault;
mod gather;
mod kept;
mod kept_records;
mod laws;
mod log_records;
mod progress;
mod records;
mod replay;
mod step;
mod told;

pub use due::DueRecords;
pub use fault::ReplayFault;
pub use kept::KeptEvents;
pub use kept_records::KeptReader;
pub use laws::{inputs_are_judged_behind_their_pages, what_was_given_is_settled};
pub use progress::Progress;
pub use records::Records;
pub use replay::Replay;
