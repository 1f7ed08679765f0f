//! The devices but for the block device: the timer, the console, the interrupt controller and the power switch.
//!
//! They are a table of numbers. What each word of them gives to a load and takes from a store is one line of the
//! definition. The block device is seen here by its state alone, which the interrupt controller shows.
#![tactic(auto)]

mod devices;

pub use devices::Devices;
