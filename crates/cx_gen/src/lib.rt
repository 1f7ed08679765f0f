//! An image from a number: a machine whose kernel runs processes that use all that the machine has.
//!
//! The kernel and the program of its processes are lists of lines, from which an assembler makes words.
#![tactic(auto)]

mod assembler;
mod content;
mod kernel;
mod laws;
mod layout;
mod line;
mod make;
mod memory;
mod name;
mod program;
mod records;
mod register;
mod tables;
mod text;
mod user;
mod words;

pub use laws::made_images_read_back;
pub use make::make_image;
