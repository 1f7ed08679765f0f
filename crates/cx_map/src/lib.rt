//! The memory map: where RAM begins, how large a page is, how many pages there may be, and when bytes lie in RAM.
//!
//! Every crate that speaks of a place, a page or a byte takes it from here, code and definitions alike.
#![tactic(auto)]

ghost use Rattle.std.specs.Prelude.{IsTrue, ◌↔◌, ◌<◌, ◌^◌, ◌≤◌};
ghost use Rattle.cx_map.specs.Map.{IsInRam};

/// The place of the first byte of RAM.
pub const RAM_START: u32 = 0x8000_0000;

/// How many bytes a page has (Privileged 1.12, section 4.3.1).
pub const PAGE_SIZE: usize = 4096;

/// How many pages RAM has at most: 1 GiB.
pub const MOST_PAGES: u32 = 262_144;

/// Whether the `len` bytes from `place` on all lie in RAM of `size` bytes.
#[inline]
pub fn is_in_ram(size: usize, place: u32, len: u32) -> bool
    requires { size < 2 ^ 62 }
    ensures { IsTrue result ↔ IsInRam size place len }
{
    let start = RAM_START as usize;
    place >= RAM_START && place as usize + len as usize <= start + size
}
