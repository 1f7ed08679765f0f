//! A slice that is gone through alone, and its observations told.
//!
//! `SliceReplay` is the replay of a slice of either kind: `Alone` that of a process slice, and `CallAlone` that of a
//! call slice. `retell` goes through one behind its magic, and has an `ObservationTeller` of cx_tellers tell what it
//! gives.
#![tactic(auto)]

mod call_slice;
mod process_slice;
mod retelling;
mod slice_replay;

pub use retelling::retell;
pub use slice_replay::SliceReplay;
