//! The outside of Crosscut: where bytes come from, where they go, and what the devices do between two steps.
//!
//! The three traits say what a source, a sink and a world promise, by ghost members: the bytes that are left or
//! held, the answers that were given, and a count of faults. An error of the outside comes only where that count
//! rose in the same call. Implementations over memory tell all of it; those over the process's streams and its clock tell
//! nothing.
#![tactic(auto)]

mod clock_world;
mod memory_sink;
mod memory_source;
mod outside;
mod plan;
mod script_world;
mod seed_world;
mod standard;

pub use clock_world::ClockWorld;
pub use memory_sink::MemSink;
pub use memory_source::MemSource;
pub use outside::{Failed, NoMemory, Outside, Sink, SinkRefusal, Source, World};
pub use script_world::ScriptWorld;
pub use seed_world::SeedWorld;
pub use standard::{StdSink, StdSource};
