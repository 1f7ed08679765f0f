//! Observations: what the steps of a program in user mode show of it.
#![tactic(auto)]

mod laws;
mod obs;
mod observing;
mod possibility;

pub use laws::{
    a_user_step_is_its_effect, observations_are_faithful, slices_and_programs_are_one,
    slices_can_be_spelled,
};
pub use obs::{Obs, Seen};
pub use observing::observe;
pub use possibility::possible;

/// The word of ECALL (Unprivileged ISA, 2.8).
pub const ECALL: u32 = 0x73;
