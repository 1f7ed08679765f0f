//! The recorder: it takes the live machine of an image turn by turn, and writes the recording of its run.
//!
//! What it writes is the text of a recording that is accepted, and whose run is the live run over the world's answers.
#![tactic(auto)]

mod fault;
mod front;
mod play;
mod putting;
mod recorder;
mod turn;

pub use fault::RecordFault;
pub use recorder::record;
