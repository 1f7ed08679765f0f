//! The state of one hart, and its control and status registers (RISC-V Privileged Architecture 1.12).
//!
//! A `State` is a plain record: the registers, the mode, the control registers, the reservation and the lines. It is
//! kept as 58 words, in one order, and each word has a rule, so that a state that keeps the rules reads back from its
//! words, and no other words are taken.
#![tactic(auto)]

mod access;
mod bits;
pub mod causes;
pub mod fields;
pub mod interrupts;
mod laws;
mod lines;
pub mod modes;
pub mod numbers;
mod register;
mod rules;
mod state;
pub mod status;
mod words;

pub use access::{Csr, Illegal, base_to_modify, is_illegal, read, write};
pub use bits::{high_half, is_bit_set, joined, low_half, previous_of_machine, replace_bits};
pub use interrupts::LINE_INTERRUPTS;
pub use laws::{
    fitting_words_are_a_state, illegal_reads, illegal_writes, more_pages_keep, reads_are_words,
    state_stands_behind_its_words, tests_are_rules, words_determine_the_state, words_fit,
    words_read_back, writes_keep,
};
pub use lines::Lines;
pub use register::Register;
pub use rules::Rule;
pub use state::{CsrFile, State};
