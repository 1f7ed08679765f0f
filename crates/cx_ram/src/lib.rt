//! The physical memory of the machine: its RAM, as bytes.
//!
//! Contracts see one flat list of bytes. Loads and stores of 1 to 4 bytes are little-endian and stay inside a page;
//! bytes of a device go in at any place; whole pages come and go for those who read and write recordings. RAM can be
//! saved: a saved memory shares the frames of its pages until they are written to.
#![tactic(auto)]

mod laws;
mod little_endian;
mod ram;

pub use cx_pages::{NoMemory, Snap};
pub use laws::{
    load_after_store, load_after_write, load_fits, load_reads_its_bytes,
    memories_are_written_alike, page_after_write, page_is_its_bytes, store_changes_its_bytes,
    write_changes_its_bytes,
};
pub use little_endian::{are_bytes, is_all_zero};
pub use ram::Ram;
