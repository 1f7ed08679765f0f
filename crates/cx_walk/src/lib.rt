//! Translation of addresses by Sv32 (RISC-V Privileged Architecture 1.12, section 4.3), over any view of memory.
//!
//! `translate` gives the whole walk of an access: the entries of the page table that it read, the physical address,
//! and what stands there, be it RAM, a word of the devices or the cause of a fault. `walk_quickly` gives the walk of
//! what most accesses are, sooner. `Words` is a view of memory; `DeviceWord` lists the words of the devices. The laws
//! say that a walk depends on no word but those that it lists.
#![tactic(auto)]

mod device;
mod entry;
mod kind;
mod laws;
mod mode;
mod quickly;
mod walk;
mod words;

pub use device::DeviceWord;
pub use kind::Kind;
pub use laws::{
    a_walk_reads_only_its_places, an_answer_stands_at_the_address, an_outcome_is_of_its_access,
    device_words_are_apart, places_are_in_memory,
};
pub use mode::is_bare;
pub use quickly::{QuickWalk, walk_quickly};
pub use walk::{Place, Walk, translate};
pub use words::Words;
