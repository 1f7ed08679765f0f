//! RAM as the view of memory that walks go over.

ghost use Rattle.std.specs.Prelude.{◌≡◌, ◌+◌, ◌%◌, ◌^◌, ◌≤◌, ◌⊎◌, OnSome, length};
ghost use Rattle.cx_map.specs.Map.{IsInRam, ram_index};
ghost use Rattle.cx_ram.specs.LittleEndian.{loaded};
ghost use Rattle.cx_walk.specs.Bytes.{ram_bytes, word_in};
ghost use Rattle.cx_hart.specs.Fetch.{walk_in};

use crate::here::Here;
use cx_map::{PAGE_SIZE, RAM_START};
use cx_ram::Ram;
use cx_walk::{Kind, Walk, Words, translate};

/// The words of RAM, and no others.
#[derive(Clone, Copy)]
pub(crate) struct View<'a> {
    pub ram: &'a Ram,
}

impl<'a> Words for View<'a> {
    ghost use Rattle.std.specs.Prelude.{◌≡◌, ℕ, ◌+◌, ◌^◌, ◌≤◌, Option, OnSome};
    ghost use Rattle.cx_walk.specs.Bytes.{ram_bytes, word_in};
    ghost use Rattle.cx_machine.specs.Machine.{pages_of};

    ghost pages = { λ v. pages_of v.ram.now.memory };

    ghost bytes = { λ v. ram_bytes v.ram.now.memory };

    fn pages(&self) -> u32 {
        self.ram.pages()
    }

    // An aligned place below the end of RAM has its whole word there, since RAM is whole pages: one comparison tells.
    #[inline(always)]
    #[tactic(auto, using(crate::proofs::RamWords::word_inside))]
    fn word(&self, pa: u64) -> Option<u32> {
        let start = u64::from(RAM_START);
        let size = u64::from(self.ram.pages()) * PAGE_SIZE as u64;
        if pa % 4 == 0 && start <= pa && pa - start < size {
            return Some(self.ram.load(pa as u32, 4));
        }
        any_word(self.ram, pa)
    }
}

/// The word at a place that may be any.
#[cold]
#[inline(never)]
#[tactic(auto, using(crate::proofs::RamWords::word_beyond))]
fn any_word(ram: &Ram, pa: u64) -> Option<u32>
    ensures word { result ≡ word_in (ram_bytes ram.now.memory) pa }
    ensures below { OnSome result (pa + 4 ≤ 2 ^ 32) }
{
    let end = u64::from(RAM_START) + u64::from(ram.pages()) * PAGE_SIZE as u64;
    if pa > end - 4 {
        return None;
    }
    word_of(ram, pa as u32)
}

/// The word at a place, where all of it lies in RAM.
#[inline]
#[tactic(auto, using(crate::proofs::RamWords::word_inside, crate::proofs::RamWords::word_outside))]
pub(crate) fn word_of(ram: &Ram, pa: u32) -> Option<u32>
    ensures word { result ≡ word_in (ram_bytes ram.now.memory) pa }
    ensures below { OnSome result (pa + 4 ≤ 2 ^ 32) }
{
    if !ram.contains(pa, 4) {
        return None;
    }
    if pa % 4 == 0 {
        return Some(ram.load(pa, 4));
    }
    Some(split_word(ram, pa))
}

/// A word of RAM that may lie in two pages.
#[cold]
#[tactic(auto, using(crate::proofs::RamWords::word_of_bytes))]
fn split_word(ram: &Ram, pa: u32) -> u32
    requires ram { IsInRam (length ram.now.memory) pa 4 }
    requires below { pa + 4 ≤ 2 ^ 32 }
    ensures { result ≡ loaded ram.now.memory (ram_index pa) 4 }
{
    u32::from_le_bytes([
        ram.load(pa, 1) as u8,
        ram.load(pa + 1, 1) as u8,
        ram.load(pa + 2, 1) as u8,
        ram.load(pa + 3, 1) as u8,
    ])
}

/// Translates the address of an access to RAM.
#[inline]
#[tactic(auto, unfolding(crate::specs::Fetch::walk_in))]
pub(crate) fn walk(here: &Here, kind: Kind, va: u32, len: u8) -> Walk
    requires length { (len ≡ 1) ⊎ (len ≡ 2) ⊎ (len ≡ 4) }
    requires aligned { va % len ≡ 0 }
    ensures { result ≡ walk_in here.now kind va len }
{
    translate(&View { ram: here.ram }, here.state, kind, va, len)
}
