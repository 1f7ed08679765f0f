//! The instruction table of the hart: RV32I 2.1 with M 2.0, A 2.1, Zicsr and Zifencei (Unprivileged ISA 20191213),
//! and the instructions that return from traps, wait and order translations (Privileged Architecture 1.12).
//!
//! The table is a definition: a mask, the bits under it and a format of operands for each row. `decode` finds the row
//! of a word and its operands, and `encode` spells a well-formed instruction as the one word that decodes to it.
//! `Decoder` keeps the words that it came across, so that it answers sooner.
#![tactic(auto)]

mod decoder;
mod encoder;
mod format;
mod formed;
mod group;
mod ins;
mod kept;
mod laws;
mod op;
mod operands;
mod rows;

pub use decoder::decode;
pub use encoder::encode;
pub use format::Format;
pub use formed::well_formed;
pub use group::Group;
pub use ins::Ins;
pub use kept::{Decoder, Known};
pub use laws::{decode_of_encode, encode_of_decode, rows_are_apart};
pub use op::Op;
