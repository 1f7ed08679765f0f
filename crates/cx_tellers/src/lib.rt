//! What commands tell of the steps of a recording.
//!
//! `Lines` prints them. `OfRoot` tells what they show of one process, by an `ObservationTeller`: `ObservationLines`
//! prints the observations, a `Slicer` puts their slice, and a `Caller` their slice by calls. `Counting` counts the steps of each root, and `Upgrade`
//! puts the recording in the newer version.
#![tactic(auto)]

mod calling;
mod counting;
mod front;
mod lines;
mod observation_lines;
mod observing;
mod of_root;
mod slicing;
mod upgrade;

pub use counting::Counting;
pub use lines::Lines;
pub use observation_lines::ObservationLines;
pub use observing::ObservationTeller;
pub use of_root::OfRoot;
pub use upgrade::Upgrade;
