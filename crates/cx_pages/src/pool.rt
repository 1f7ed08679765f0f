//! The pool: tables of frame numbers over the frames.

ghost use Rattle.std.specs.Prelude.{◌≡◌, ◌≢◌, ◌⊎◌, ◌↔◌, ℕ, ◌+◌, ◌-◌, ◌<◌, ◌≤◌, [], length, slice_index, slice_set};
ghost use Rattle.std.specs.Prelude.{Some, None, IfErr, IfOk, IfSome, IsTrue};
ghost use Rattle.std.specs.List.{splice};
ghost use Rattle.cx_map.specs.Map.{IsPageCount};
ghost use Rattle.cx_pages.specs.Memories.{AreSavedWhole, AreWhole, GivesBack, HasOwn, IsLive, IsShared, SameOthers};
ghost use Rattle.cx_pages.specs.Memories.{SharedBeside, page_count, page_of, saved_at, stamp_count, zeros};

use crate::counts::Counts;
use crate::frames::Frames;
use crate::table::Table;
use cx_map::PAGE_SIZE;
use std::alloc::{AllocError, Global};
use std::marker::Model;

/// How many memories can be saved at a time.
pub(crate) const MOST_SAVED: usize = 1 << 40;

/// How many frames there can be, that of zeros among them.
const MOST_FRAMES: usize = (1 << 32) - 1;

/// Memory was refused.
#[derive(Clone, Copy, Debug, PartialEq, Eq)]
pub struct NoMemory;

impl From<AllocError> for NoMemory {
    fn from(_refused: AllocError) -> NoMemory {
        NoMemory
    }
}

/// The number of a saved memory.
#[derive(Drop, Debug)]
pub struct Snap {
    number: usize,
}

impl Model for Snap {
    ghost use Rattle.std.specs.Prelude.{ℕ};

    ghost Value = { ℕ };

    ghost view = { λ s. s.number };
}

/// A memory of 1 to 262,144 pages of 4,096 bytes, and memories that were saved from it.
#[derive(Drop)]
pub struct Pool {
    alloc: Global,
    frames: Frames,
    counts: Counts,
    current: Table,
    tables: Vec<Table>,
}

impl Model for Pool {
    ghost use Rattle.cx_pages.specs.Memories.{Memories};

    ghost Value = { Memories };

    ghost use Rattle.cx_pages.specs.Tables.{IsPool, memories_of};

    ghost view = { λ p. memories_of p.frames p.counts p.current p.tables.items };

    ghost invariant = { λ p. IsPool p.frames p.counts p.current p.tables.items };
}

impl Pool {
    /// A memory of `pages` pages of zeros, with nothing saved and nothing spare.
    pub fn new(alloc: Global, pages: u32) -> Result<Pool, NoMemory>
        requires { IsPageCount pages }
        ensures current { IfOk result (λ p. p.current ≡ zeros pages) }
        ensures saved { IfOk result (λ p. p.saved ≡ []) }
        ensures counts { IfOk result (λ p. (p.used ≡ 0) × (p.spare ≡ 0)) }
    {
        let frames = Frames::new(alloc)?;
        let counts = Counts::new(alloc, u64::from(pages) + 2)?;
        let current = Table::new(alloc, pages)?;
        Ok(Pool {
            alloc,
            frames,
            counts,
            current,
            tables: Vec::new(alloc),
        })
    }

    /// Makes sure that `n` frames are spare, and changes nothing else. `NoMemory` also comes where there would be 2^32
    /// frames.
    #[inline(always)]
    pub fn reserve(&mut self, n: u32) -> Result<(), NoMemory>
        ensures room { IfOk result (λ done. n ≤ self.new.spare) }
        ensures kept { self.old.spare ≤ self.new.spare }
        ensures same { self.new ≡ record self.old { spare = self.new.spare } }
        ensures refused { IfErr result (λ refused. self.new ≡ self.old) }
    {
        if n as usize <= self.counts.spare() {
            return Ok(());
        }
        self.grow(n)
    }

    /// Makes sure that `n` frames are spare, where fewer are.
    #[cold]
    fn grow(&mut self, n: u32) -> Result<(), NoMemory>
        requires { self.old.spare < n }
        ensures room { IfOk result (λ done. n ≤ self.new.spare) }
        ensures kept { self.old.spare ≤ self.new.spare }
        ensures same { self.new ≡ record self.old { spare = self.new.spare } }
        ensures refused { IfErr result (λ refused. self.new ≡ self.old) }
    {
        let more = n as usize - self.counts.spare();
        let count = self.counts.len() + more;
        if MOST_FRAMES < count {
            return Err(NoMemory);
        }
        self.frames.grow(count)?;
        self.counts.grow(more)?;
        Ok(())
    }

    /// The number of pages, each of which has 4,096 bytes.
    #[inline(always)]
    pub fn pages(&self) -> u32
        ensures pages { result ≡ page_count self.now.current }
        ensures stamps { length self.now.current.stamps ≡ result }
        ensures count { IsPageCount result }
        ensures whole { AreWhole self.now.current }
        ensures saved { AreSavedWhole self.now }
    {
        self.frames.tell_whole();
        self.current.frames().len() as u32
    }

    /// The byte of a page at an offset.
    #[inline(always)]
    pub fn get(&self, page: u32, offset: u32) -> u8
        requires page { page < page_count self.now.current }
        requires offset { offset < PAGE_SIZE }
        ensures { result ≡ slice_index (page_of self.now.current page) offset }
    {
        self.page_bytes(page)[offset as usize]
    }

    /// The bytes of a page, where they stand.
    #[inline(always)]
    pub fn page_bytes(&self, page: u32) -> &[u8; PAGE_SIZE]
        requires { page < page_count self.now.current }
        ensures { result.now ≡ page_of self.now.current page }
    {
        let frame = self.current.frames()[page as usize];
        self.frames.frame(frame)
    }

    /// Whether a page has no frame of its own, so that a write to it takes one.
    #[inline(always)]
    pub fn shared(&self, page: u32) -> bool
        requires { page < page_count self.now.current }
        ensures { IsTrue result ↔ IsShared self.now page }
    {
        let frame = self.current.frames()[page as usize];
        self.counts.count(frame) != 1
    }

    /// Writes a byte to the current memory. It takes a spare frame where the page is shared.
    #[inline(always)]
    pub fn set(&mut self, page: u32, offset: u32, byte: u8)
        requires page { page < page_count self.old.current }
        requires offset { offset < PAGE_SIZE }
        requires room { (1 ≤ self.old.spare) ⊎ (¬ IsShared self.old page) }
        ensures pages { self.new.current.pages ≡ slice_set self.old.current.pages page
            (slice_set (page_of self.old.current page) offset byte) }
        ensures own { HasOwn page self.old self.new }
        ensures others { SharedBeside page self.old self.new }
        ensures spare { self.old.spare ≤ self.new.spare + 1 }
    {
        // It tells that a page has 4,096 bytes.
        self.pages();
        self.write(page, offset, &[byte]);
    }

    /// Writes bytes to a page of the current memory. It takes a spare frame where the page is shared.
    #[inline(always)]
    pub fn write(&mut self, page: u32, offset: u32, bytes: &[u8])
        requires page { page < page_count self.old.current }
        requires bytes { offset + length bytes.now ≤ PAGE_SIZE }
        requires room { (1 ≤ self.old.spare) ⊎ (¬ IsShared self.old page) }
        ensures pages { self.new.current.pages ≡ slice_set self.old.current.pages page
            (splice (page_of self.old.current page) offset (offset + length bytes.now) bytes.now) }
        ensures own { HasOwn page self.old self.new }
        ensures others { SharedBeside page self.old self.new }
        ensures spare { self.old.spare ≤ self.new.spare + 1 }
    {
        if self.shared(page) {
            self.take_frame(page);
        }
        self.write_own(page, offset as usize, bytes);
    }

    /// Writes bytes to a page that isn't shared.
    #[inline(always)]
    fn write_own(&mut self, page: u32, offset: usize, bytes: &[u8])
        requires page { page < page_count self.old.current }
        requires bytes { offset + length bytes.now ≤ PAGE_SIZE }
        requires own { ¬ IsShared self.old page }
        ensures pages { self.new.current.pages ≡ slice_set self.old.current.pages page
            (splice (page_of self.old.current page) offset (offset + length bytes.now) bytes.now) }
        ensures stamps { self.new.current.stamps ≡ self.old.current.stamps }
        ensures saved { self.new.saved ≡ self.old.saved }
        ensures counts { (self.new.used ≡ self.old.used) × (self.new.spare ≡ self.old.spare) }
    {
        let frame = self.current.frames()[page as usize];
        self.frames.write(frame, offset, bytes);
    }

    /// Gives a page that is shared a frame of its own, with the same bytes.
    #[cold]
    fn take_frame(&mut self, page: u32)
        requires page { page < page_count self.old.current }
        requires shared { IsShared self.old page }
        requires room { 1 ≤ self.old.spare }
        ensures pages { self.new.current.pages ≡ self.old.current.pages }
        ensures own { HasOwn page self.old self.new }
    {
        let from = self.current.frames()[page as usize];
        let frame = self.counts.take();
        self.frames.copy(from, frame);
        self.counts.release(from);
        self.current.set(page, frame);
    }

    /// Saves the current memory under a number that none is saved under. Each page is shared then. `NoMemory` also
    /// comes where 2^40 memories are saved.
    pub fn save(&mut self) -> Result<Snap, NoMemory>
        ensures number { IfOk result (λ snap. saved_at self.old snap ≡ None) }
        ensures saved { IfOk result (λ snap. saved_at self.new snap ≡ Some self.old.current) }
        ensures others { IfOk result (λ snap. SameOthers snap self.old.saved self.new.saved) }
        ensures shared { IfOk result (λ snap. (page : ℕ) → IsShared self.new page) }
        ensures same { self.new ≡ record self.old { saved = self.new.saved } }
        ensures refused { IfErr result (λ refused. self.new ≡ self.old) }
    {
        let table = self.current.copy(self.alloc)?;
        let number = self.free_number()?;
        self.tables[number] = table;
        self.counts.add_all(self.current.frames());
        Ok(Snap { number })
    }

    /// A number under which nothing is saved.
    fn free_number(&mut self) -> Result<usize, NoMemory>
        ensures there { IfOk result (λ number. number < length self.new.saved) }
        ensures free { IfOk result (λ number. saved_at self.new number ≡ None) }
        ensures others { (number : ℕ) → saved_at self.new number ≡ saved_at self.old number }
        ensures same { self.new ≡ record self.old { saved = self.new.saved } }
        ensures refused { IfErr result (λ refused. self.new ≡ self.old) }
    {
        if let Some(number) = self.tables.iter().position(|table| table.is_empty()) {
            return Ok(number);
        }
        let number = self.tables.len();
        if number == MOST_SAVED {
            return Err(NoMemory);
        }
        match self.tables.push(Table::empty(self.alloc)) {
            Ok(()) => Ok(number),
            Err(_) => Err(NoMemory),
        }
    }

    /// Whether a memory is saved under a number.
    pub fn is_live(&self, snap: &Snap) -> bool
        ensures { IsTrue result ↔ IsLive self.now snap.now }
    {
        if self.tables.len() <= snap.number {
            return false;
        }
        let table = &self.tables[snap.number];
        !table.is_empty()
    }

    /// The byte of a saved page at an offset.
    pub fn saved_get(&self, snap: &Snap, page: u32, offset: u32) -> u8
        requires live { IsLive self.now snap.now }
        requires page { page < page_count self.now.current }
        requires offset { offset < PAGE_SIZE }
        ensures { IfSome (saved_at self.now snap.now) (λ m. result ≡ slice_index (page_of m page) offset) }
    {
        self.saved_page_bytes(snap, page)[offset as usize]
    }

    /// The bytes of a saved page, where they stand.
    pub fn saved_page_bytes(&self, snap: &Snap, page: u32) -> &[u8; PAGE_SIZE]
        requires live { IsLive self.now snap.now }
        requires page { page < page_count self.now.current }
        ensures { IfSome (saved_at self.now snap.now) (λ m. result.now ≡ page_of m page) }
    {
        let table = &self.tables[snap.number];
        let frame = table.frames()[page as usize];
        self.frames.frame(frame)
    }

    /// Makes the current memory that which was saved, and which stays. Each page is shared then.
    pub fn restore(&mut self, snap: &Snap)
        requires { IsLive self.old snap.now }
        ensures current { saved_at self.old snap.now ≡ Some self.new.current }
        ensures saved { self.new.saved ≡ self.old.saved }
        ensures shared { (page : ℕ) → IsShared self.new page }
        ensures counts { GivesBack self.old.used self.old.spare self.new.used self.new.spare }
    {
        let table = &self.tables[snap.number];
        self.counts.add_all(table.frames());
        self.counts.release_all(self.current.frames());
        self.current.copy_from(table.frames());
    }

    /// Ends what was saved under a number, which may be given again.
    pub fn forget(&mut self, snap: Snap)
        requires { IsLive self.old snap }
        ensures current { self.new.current ≡ self.old.current }
        ensures gone { saved_at self.new snap ≡ None }
        ensures others { SameOthers snap self.old.saved self.new.saved }
        ensures own { (page : ℕ) → ¬ IsShared self.old page → ¬ IsShared self.new page }
        ensures counts { GivesBack self.old.used self.old.spare self.new.used self.new.spare }
    {
        let table = &mut self.tables[snap.number];
        self.counts.release_all(table.frames());
        *table = Table::empty(self.alloc);
    }

    /// How many frames memories have, beside that of zeros: one for each stamp other than 0.
    pub fn used(&self) -> u32
        ensures count { result ≡ self.now.used }
        ensures stamps { self.now.used ≡ stamp_count self.now }
    {
        self.counts.tell_used();
        (self.counts.len() - self.counts.spare() - 1) as u32
    }

    /// How many more frames there are without taking memory.
    pub fn spare(&self) -> u32
        ensures { result ≡ self.now.spare }
    {
        self.counts.spare() as u32
    }
}
