//! A pool of raw frames: the memory of the machine and its saved copies, which share the frames that none wrote to.
//!
//! Contracts see a current memory and saved ones, each a list of pages. A frame is copied when a page that shares it is
//! first written to, so a saved memory costs a table of numbers. Frames never move; only `new`, `reserve` and `save`
//! take memory.
#![tactic(auto)]

mod counts;
mod frame;
mod frames;
mod pool;
mod table;

pub use pool::{NoMemory, Pool, Snap};
