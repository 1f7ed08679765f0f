//! RAM over a pool of frames: its loads and stores, its pages, and the memories that are saved from it.

ghost use Rattle.std.specs.Prelude.{◌≡◌, ◌≢◌, ◌↔◌, ℕ, ◌+◌, ◌*◌, ◌^◌, ◌<◌, ◌≤◌, [], length, replicate, Some, None};
ghost use Rattle.std.specs.Prelude.{IfErr, IfOk, IfSome, IsTrue};
ghost use Rattle.cx_map.specs.Bytes.{AreBytes};
ghost use Rattle.cx_map.specs.Map.{IsInRam, IsPageCount, ram_index, size_of_pages};
ghost use Rattle.cx_pages.specs.Memories.{GivesBack, SameOthers, stamp_count};
ghost use Rattle.cx_ram.specs.LittleEndian.{loaded, stored, written};
ghost use Rattle.cx_ram.specs.PhysicalMemory.{AreSavedBytes, IsAccessLength, IsInOnePage, IsLive, IsPage, IsShared};
ghost use Rattle.cx_ram.specs.PhysicalMemory.{HasOwnPage, frames_of, is_zero, now_of, page_at, page_of, saved_at};

use crate::little_endian::{is_all_zero, load};
use cx_map::{MOST_PAGES, PAGE_SIZE, RAM_START, is_in_ram};
use cx_pages::{NoMemory, Pool, Snap};
use std::alloc::Global;
use std::marker::Model;

/// The whole RAM of the machine, 1 to 262,144 pages, and memories that were saved from it.
#[derive(Drop)]
pub struct Ram {
    pool: Pool,
    size: usize,
}

impl Model for Ram {
    ghost use Rattle.std.specs.Prelude.{◌≡◌};
    ghost use Rattle.cx_map.specs.Map.{size_of_pages};
    ghost use Rattle.cx_pages.specs.Memories.{page_count};
    ghost use Rattle.cx_ram.specs.PhysicalMemory.{PhysicalMemory};
    ghost use Rattle.cx_ram.specs.Flat.{physical};

    ghost Value = { PhysicalMemory };

    ghost view = { λ r. physical r.pool };

    ghost invariant = { λ r. r.size ≡ size_of_pages (page_count r.pool.current) };
}

impl Ram {
    /// RAM of `pages` pages, all zero, with nothing saved and no frame used or spare.
    pub fn new(alloc: Global, pages: u32) -> Result<Ram, NoMemory>
        requires { IsPageCount pages }
        ensures zeros { IfOk result (λ r. r.memory ≡ replicate (size_of_pages pages) 0) }
        ensures size { IfOk result (λ r. length r.memory ≡ size_of_pages pages) }
        ensures stamps { IfOk result (λ r. r.stamps ≡ replicate pages 0) }
        ensures saved { IfOk result (λ r. r.saved ≡ []) }
        ensures counts { IfOk result (λ r. (r.used ≡ 0) × (r.spare ≡ 0)) }
    {
        let pool = Pool::new(alloc, pages)?;
        Ok(Ram {
            pool,
            size: pages as usize * PAGE_SIZE,
        })
    }

    /// The number of pages. What RAM holds are bytes, and so is what was saved from it.
    #[inline(always)]
    pub fn pages(&self) -> u32
        ensures whole { length self.now.memory ≡ size_of_pages result }
        ensures bytes { AreBytes self.now.memory }
        ensures count { IsPageCount result }
        ensures stamps { length self.now.stamps ≡ result }
        ensures saved { AreSavedBytes self.now }
    {
        self.pool.pages()
    }

    /// Whether the `len` bytes from place `pa` on all lie in RAM.
    #[inline(always)]
    pub fn contains(&self, pa: u32, len: u32) -> bool
        ensures inside { IsTrue result ↔ IsInRam (length self.now.memory) pa len }
        ensures most { IsTrue result → pa + len ≤ RAM_START + size_of_pages MOST_PAGES }
    {
        self.pool.pages();
        is_in_ram(self.size, pa, len)
    }

    /// The value of the 1 to 4 bytes from place `pa` on, which lie in one page of RAM.
    #[inline(always)]
    pub fn load(&self, pa: u32, len: u8) -> u32
        requires ram { IsInRam (length self.now.memory) pa len }
        requires page { IsInOnePage pa len }
        requires length { IsAccessLength len }
        ensures value { result ≡ loaded self.now.memory (ram_index pa) len }
        ensures fits { result < 2 ^ (8 * len) }
    {
        self.pool.pages();
        let page = (pa - RAM_START) / PAGE_SIZE as u32;
        load(self.pool.page_bytes(page), pa as usize % PAGE_SIZE, len)
    }

    /// Writes bytes from place `pa` on, which lie in one page of RAM.
    #[inline(always)]
    fn write(&mut self, pa: u32, bytes: &[u8])
        requires ram { IsInRam (length self.old.memory) pa (length bytes.now) }
        requires some { 1 ≤ length bytes.now }
        requires page { IsInOnePage pa (length bytes.now) }
        requires room { 1 ≤ self.old.spare }
        ensures memory { self.new.memory ≡ written self.old.memory (ram_index pa) bytes.now }
        ensures own { HasOwnPage (page_at pa) self.old self.new }
        ensures size { length self.new.memory ≡ length self.old.memory }
        ensures saved { self.new.saved ≡ self.old.saved }
        ensures spare { self.old.spare ≤ self.new.spare + 1 }
    {
        self.pool.pages();
        let page = (pa - RAM_START) / PAGE_SIZE as u32;
        self.pool.write(page, pa % PAGE_SIZE as u32, bytes);
    }

    /// Writes the low 1 to 4 bytes of a value from place `pa` on, which lie in one page of RAM.
    pub fn store(&mut self, pa: u32, len: u8, value: u32)
        requires ram { IsInRam (length self.old.memory) pa len }
        requires page { IsInOnePage pa len }
        requires length { IsAccessLength len }
        requires room { 1 ≤ self.old.spare }
        ensures memory { self.new.memory ≡ stored self.old.memory (ram_index pa) len value }
        ensures own { HasOwnPage (page_at pa) self.old self.new }
        ensures size { length self.new.memory ≡ length self.old.memory }
        ensures saved { self.new.saved ≡ self.old.saved }
        ensures spare { self.old.spare ≤ self.new.spare + 1 }
    {
        let bytes = value.to_le_bytes();
        match len {
            1 => self.write(pa, &bytes[..1]),
            2 => self.write(pa, &bytes[..2]),
            3 => self.write(pa, &bytes[..3]),
            _ => self.write(pa, &bytes),
        }
    }

    /// Writes 1 to 4,096 bytes from place `pa` on, all of them in RAM.
    pub fn dma(&mut self, pa: u32, bytes: &[u8])
        requires ram { IsInRam (length self.old.memory) pa (length bytes.now) }
        requires some { 1 ≤ length bytes.now }
        requires most { length bytes.now ≤ PAGE_SIZE }
        requires room { 2 ≤ self.old.spare }
        ensures memory { self.new.memory ≡ written self.old.memory (ram_index pa) bytes.now }
        ensures own { (k : ℕ) → k < length bytes.now → ¬ IsShared self.new (page_at (pa + k)) }
        ensures others { (page : ℕ) → ((k : ℕ) → k < length bytes.now → page ≢ page_at (pa + k))
            → IsShared self.new page ↔ IsShared self.old page }
        ensures size { length self.new.memory ≡ length self.old.memory }
        ensures saved { self.new.saved ≡ self.old.saved }
        ensures spare { self.old.spare ≤ self.new.spare + 2 }
    {
        let here = PAGE_SIZE - pa as usize % PAGE_SIZE;
        if bytes.len() <= here {
            self.write(pa, bytes);
        } else {
            self.pages();
            self.write(pa, &bytes[..here]);
            self.write(pa + here as u32, &bytes[here..]);
        }
    }

    /// Whether all bytes of a page are zero.
    pub fn is_zero(&self, page: u32) -> bool
        requires { IsPage self.now.memory page }
        ensures { result ≡ is_zero (page_of self.now.memory page) }
    {
        is_all_zero(self.page_bytes(page))
    }

    /// The bytes of a page, where they stand.
    pub fn page_bytes(&self, page: u32) -> &[u8; PAGE_SIZE]
        requires { IsPage self.now.memory page }
        ensures { result.now ≡ page_of self.now.memory page }
    {
        self.pool.pages();
        self.pool.page_bytes(page)
    }

    /// Copies the bytes of a page.
    pub fn page(&self, page: u32, into: &mut [u8; PAGE_SIZE])
        requires { IsPage self.now.memory page }
        ensures { into.new ≡ page_of self.now.memory page }
    {
        *into = *self.page_bytes(page);
    }

    /// Writes a whole page.
    pub fn set_page(&mut self, page: u32, bytes: &[u8; PAGE_SIZE])
        requires page { IsPage self.old.memory page }
        requires room { 1 ≤ self.old.spare }
        ensures memory { self.new.memory ≡ written self.old.memory (page * PAGE_SIZE) bytes.now }
        ensures own { HasOwnPage page self.old self.new }
        ensures size { length self.new.memory ≡ length self.old.memory }
        ensures saved { self.new.saved ≡ self.old.saved }
        ensures spare { self.old.spare ≤ self.new.spare + 1 }
    {
        self.pages();
        self.write(RAM_START + page * PAGE_SIZE as u32, bytes);
    }

    /// Makes sure that `n` pages can get a frame of their own without taking memory, and changes nothing else.
    #[inline(always)]
    pub fn reserve(&mut self, n: u32) -> Result<(), NoMemory>
        ensures room { IfOk result (λ done. n ≤ self.new.spare) }
        ensures kept { self.old.spare ≤ self.new.spare }
        ensures same { self.new ≡ record self.old { spare = self.new.spare } }
        ensures refused { IfErr result (λ refused. self.new ≡ self.old) }
    {
        self.pool.reserve(n)
    }

    /// Saves RAM as it is under a number that none is saved under. Each page is shared then. `NoMemory` comes where
    /// memory is refused, or where 2^40 memories are saved.
    pub fn save(&mut self) -> Result<Snap, NoMemory>
        ensures number { IfOk result (λ snap. saved_at self.old snap ≡ None) }
        ensures saved { IfOk result (λ snap. saved_at self.new snap ≡ Some (now_of self.old)) }
        ensures others { IfOk result (λ snap. SameOthers snap self.old.saved self.new.saved) }
        ensures shared { IfOk result (λ snap. (page : ℕ) → IsShared self.new page) }
        ensures same { self.new ≡ record self.old { saved = self.new.saved } }
        ensures refused { IfErr result (λ refused. self.new ≡ self.old) }
    {
        self.pool.save()
    }

    /// Whether a memory is saved under a number.
    pub fn is_live(&self, snap: &Snap) -> bool
        ensures { IsTrue result ↔ IsLive self.now snap.now }
    {
        self.pool.is_live(snap)
    }

    /// The bytes of a saved page, where they stand.
    pub fn saved_page_bytes(&self, snap: &Snap, page: u32) -> &[u8; PAGE_SIZE]
        requires live { IsLive self.now snap.now }
        requires page { IsPage self.now.memory page }
        ensures { IfSome (saved_at self.now snap.now) (λ s. result.now ≡ page_of s.memory page) }
    {
        self.pool.pages();
        self.pool.saved_page_bytes(snap, page)
    }

    /// Copies the bytes of a saved page.
    pub fn saved_page(&self, snap: &Snap, page: u32, into: &mut [u8; PAGE_SIZE])
        requires live { IsLive self.now snap.now }
        requires page { IsPage self.now.memory page }
        ensures { IfSome (saved_at self.now snap.now) (λ s. into.new ≡ page_of s.memory page) }
    {
        *into = *self.saved_page_bytes(snap, page);
    }

    /// Makes RAM what was saved, and which stays so. Each page is shared then.
    pub fn restore(&mut self, snap: &Snap)
        requires { IsLive self.old snap.now }
        ensures memory { saved_at self.old snap.now ≡ Some (now_of self.new) }
        ensures saved { self.new.saved ≡ self.old.saved }
        ensures size { length self.new.memory ≡ length self.old.memory }
        ensures shared { (page : ℕ) → IsShared self.new page }
        ensures counts { GivesBack self.old.used self.old.spare self.new.used self.new.spare }
    {
        self.pool.pages();
        self.pool.restore(snap);
    }

    /// Ends what was saved under a number, which may be given again.
    pub fn forget(&mut self, snap: Snap)
        requires { IsLive self.old snap }
        ensures memory { now_of self.new ≡ now_of self.old }
        ensures gone { saved_at self.new snap ≡ None }
        ensures others { SameOthers snap self.old.saved self.new.saved }
        ensures own { (page : ℕ) → ¬ IsShared self.old page → ¬ IsShared self.new page }
        ensures counts { GivesBack self.old.used self.old.spare self.new.used self.new.spare }
    {
        self.pool.forget(snap);
    }

    /// How many frames RAM and the saved memories have: one for each stamp other than 0.
    pub fn used(&self) -> u32
        ensures count { result ≡ self.now.used }
        ensures stamps { self.now.used ≡ stamp_count (frames_of self.now) }
    {
        self.pool.used()
    }

    /// How many pages can get a frame of their own without taking memory.
    pub fn spare(&self) -> u32
        ensures { result ≡ self.now.spare }
    {
        self.pool.spare()
    }
}
