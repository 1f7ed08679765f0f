//! The live machine: the hart with its RAM, its devices and its block device, which takes one turn after the other.
//!
//! A turn does nothing but choose what is due to a step of the hart: the outside says how far the clock goes on, and
//! whether a byte may come to the console and a command of the block device be completed; the devices say which lines
//! are up, and answer the step. So a replay, to which the same is due, takes the same steps.
#![tactic(auto)]

mod fault;
mod image;
mod laws;
mod limits;
mod live;
mod ram_bytes;
mod reading;
mod reset;
mod spelling;
mod turn;

pub use cx_hart::NoMemory;
pub use fault::ImageFault;
pub use image::Image;
pub use laws::{
    a_live_run_is_recorded, a_store_turns_it_off, cut_begins, every_turn_is_there, runs_to_end,
};
pub use limits::MOST_CONSOLE;
pub use live::{Live, Turn};
pub use spelling::images_read_back;
pub use turn::Happened;
