//! What Crosscut prints, as bytes.
//!
//! `ShortText` is a text in a buffer of its own, for a line that has to be made without taking memory. Contracts see it
//! as the list of its bytes. `step_line` and `state_line` put the lines of steps and states, `obs_line` and `root_line`
//! those of observations and roots, and `ins_text` shows an instruction.
#![tactic(auto)]

mod decimal;
mod hex;
mod ins;
mod laws;
mod line;
mod names;
mod obs;
mod operand_text;
mod operands;
mod step;
mod text;

pub use hex::word_digits;
pub use ins::ins_text;
pub use laws::{
    a_root_line_is_short, a_state_line_is_short, a_step_line_is_short, an_observation_line_is_short,
};
pub use line::{LINE_CAPACITY, Line, put_ended};
pub use obs::{obs_line, root_line};
pub use step::{state_line, step_line};
pub use text::{ShortText, TEXT_CAPACITY, Text};
