//! Views of memory.

ghost use Rattle.std.specs.Prelude.{◌≡◌, ℕ, ◌+◌, ◌^◌, ◌≤◌, Option, OnSome};
ghost use Rattle.cx_walk.specs.Bytes.{word_in};

use cx_map::MOST_PAGES;

/// A view of memory: how many pages RAM has, and a finite map from places below 2^32 to bytes. The map may hold less
/// than RAM, as where little of it is known.
pub trait Words {
    /// How many pages RAM has.
    ghost pages: { Self → ℕ };

    /// The byte at a place, where the map has one.
    ghost bytes: { Self → ℕ → Option ℕ };

    /// How many pages RAM has, at most `MOST_PAGES`.
    fn pages(&self) -> u32
        ensures count { result ≡ pages self.now }
        ensures most { result ≤ MOST_PAGES };

    /// The little-endian word of the four bytes at a place; None exactly where the map doesn't have all four.
    fn word(&self, pa: u64) -> Option<u32>
        ensures word { result ≡ word_in (bytes self.now) pa }
        ensures below { OnSome result (pa + 4 ≤ 2 ^ 32) };
}
