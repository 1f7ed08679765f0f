//! The block device: a disk in memory, and the five words by which a program moves its sectors to RAM and back.
//!
//! A store to the word of commands begins one. It is done at a later turn of the machine, where the outside lets it be:
//! `complete` says then what is to be moved, and the caller, who has the RAM, moves it. A busy device takes no store.
#![tactic(auto)]

mod block;
mod disk;
pub mod states;

pub use block::{Block, Transfer};
pub use disk::{MOST_SECTORS, SECTOR_SIZE};
