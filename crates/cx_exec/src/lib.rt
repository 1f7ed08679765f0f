//! What each instruction does, as functions of the instruction and of values: the registers, pc, and what was got.
//!
//! `ask` says what an instruction needs from memory or from the control registers. With the answer, `carry_out` gives
//! the value for a register, the next pc and the value stored, and `finish` the same with all registers. Nothing here
//! knows a machine, and nothing takes memory.
#![tactic(auto)]

mod arithmetic;
mod asks;
mod control;
mod effect;
mod execute;
mod got;
mod load;
mod needs;
mod user;
mod values;

pub use asks::{Access, Ask, Need};
pub use control::{control_operand, control_value, reads_control, writes_control};
pub use effect::{Done, Effect, Misaligned};
pub use execute::{carry_out, finish, put};
pub use got::Got;
pub use load::loaded_value;
pub use needs::ask;
pub use user::{user_retires, user_word};
pub use values::register;
