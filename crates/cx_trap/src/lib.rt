//! Traps of one hart: which interrupt is to be taken, entry into a trap, and return from one (RISC-V Privileged
//! Architecture 1.12).
//!
//! Each call is a function of the state alone. What changes a state keeps its rules, and only entry touches the
//! reservation, which it drops.
#![tactic(auto)]

mod causes;
mod entry;
mod exit;
mod interrupts;
mod laws;

pub use causes::is_trap_cause;
pub use entry::enter;
pub use exit::{can_mret, can_sret, mret, sret};
pub use interrupts::pending;
pub use laws::{pending_is_a_cause, returns_keep, traps_keep};
