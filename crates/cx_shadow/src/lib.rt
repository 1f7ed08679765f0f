//! The bytes that a process is known to have: a map from virtual addresses to bytes.
//!
//! It is kept as pages of 4,096 bytes with a mark for each byte, in a table of tables of pages, so that a byte is found
//! in constant time and nothing is copied when the map grows. Room for a page is made first, and may be refused;
//! putting a byte into a page that has room can't fail. The map that a shadow stands for is `byte_of`, and whether
//! there is room at an address is `is_held`.
#![tactic(auto)]

mod bytes;
mod page;
mod shadow;

pub use shadow::Shadow;
