//! The whole step of the machine: one hart with its RAM (RISC-V Unprivileged ISA 20191213, Privileged Architecture
//! 1.12).
//!
//! A step takes an interrupt, or fetches a word and carries it out, or takes a trap; it is a function of the state,
//! the memory, what the outside hands to the step, and whether misaligned loads and stores are carried out. `Machine`
//! takes steps in place, and each is told by a record. The laws say that a step reads nothing but what its record
//! names, and that it keeps the rules of the state.
#![tactic(auto)]

mod access;
mod after;
mod answer;
mod carry;
mod conclude;
mod control;
mod effect;
mod fetch;
mod findings;
mod here;
mod laws;
mod legal;
mod machine;
mod moment;
mod reach;
mod record;
mod steps;
mod system;
mod tell;
mod tells;
mod touch;
mod turn;
mod view;

pub use answer::{Asked, Due, StepAnswer, Went};
pub use cx_ram::NoMemory;
pub use findings::{Control, Part, Reading, Retired, Stop, Target};
pub use laws::{
    a_record_is_well_formed, a_step_is_framed, a_step_keeps_the_machine, a_step_sets_the_lines,
    a_step_takes_its_value, transfers_come_first,
};
pub use machine::Machine;
pub use moment::Moment;
pub use record::{Ended, StepRec, Touch};
pub use steps::Steps;
