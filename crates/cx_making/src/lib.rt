//! The commands of the image of a number, which read nothing.
//!
//! `make` writes the image.
#![tactic(auto)]

mod image;
mod writing;

pub use image::make;
