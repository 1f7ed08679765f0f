//! The events of the steps of a recording, kept from one mark to the next.
//!
//! What stands between two marks of a recording is known to be good only where the second one is reached. So the
//! events are kept until then.
#![tactic(auto)]

mod fault;
mod gathered;
mod gathering;

pub use fault::KeepingFault;
pub use gathered::Gathered;
pub use gathering::gather;
