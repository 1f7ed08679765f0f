//! A shadow, and the two levels of its table.

ghost use Rattle.std.specs.Prelude.{◌≡◌, ◌≢◌, ◌<◌, ◌≤◌, ◌/◌, ◌%◌, ◌+◌, ℕ, length, None, Some, true, IfErr, IfOk};
ghost use Rattle.std.specs.Option.{option_copied};
ghost use Rattle.cx_shadow.specs.Cells.{are_at, byte_of, is_held, page_numbered, page_in};

use crate::page::Page;
use cx_io::NoMemory;
use cx_map::PAGE_SIZE;
use std::alloc::Global;

/// How many pages stand together in one table of the lower level: those of 4 MiB of addresses.
const REGION_PAGES: usize = 1024;

/// The places for the pages of 4 MiB.
type Region = Vec<Option<Box<Page>>>;

/// A map from virtual addresses to bytes. It takes 4,608 bytes for each page that has room, and at most 8 KiB for each
/// 4 MiB of addresses in which such a page lies.
#[derive(Drop)]
pub struct Shadow {
    alloc: Global,
    regions: Vec<Region>,
}

// The page of this number, where there is room for it.
#[inline(always)]
fn found(regions: &[Region], number: usize) -> Option<&Page>
    ensures { option_copied result ≡ page_numbered regions.now number }
{
    match regions
        .get(number / REGION_PAGES)?
        .get(number % REGION_PAGES)?
    {
        Some(page) => Some(&**page),
        None => None,
    }
}

// Makes so many regions, none of which has a page but those that were there.
fn reach(regions: &mut Vec<Region>, alloc: Global, count: usize) -> Result<(), NoMemory>
    ensures same { (n : ℕ) → page_numbered regions.new.items n ≡ page_numbered regions.old.items n }
    ensures count { IfOk result (λ _. count ≤ length regions.new.items) }
{
    while regions.len() < count {
        match regions.push(Vec::new(alloc)) {
            Ok(()) => {}
            Err(_) => return Err(NoMemory),
        }
    }
    Ok(())
}

// Makes so many places for pages in a region, empty but for those that were there.
fn fill(region: &mut Region, count: usize) -> Result<(), NoMemory>
    ensures same { (i : ℕ) → page_in region.new i ≡ page_in region.old i }
    ensures count { IfOk result (λ _. count ≤ length region.new.items) }
{
    while region.len() < count {
        match region.push(None) {
            Ok(()) => {}
            Err(_) => return Err(NoMemory),
        }
    }
    Ok(())
}

impl Shadow {
    /// A map without a byte, which takes no memory.
    pub fn new(alloc: Global) -> Shadow
        ensures none { (va : ℕ) → byte_of result va ≡ None }
    {
        Shadow {
            alloc,
            regions: Vec::new(alloc),
        }
    }

    /// The byte at an address, where one was put there.
    #[inline(always)]
    pub fn get(&self, va: u32) -> Option<u8>
        ensures { result ≡ byte_of self.now va }
    {
        let va = va as usize;
        found(&self.regions, va / PAGE_SIZE)?.get(va % PAGE_SIZE)
    }

    /// Whether these bytes were put, one behind another from an address on, on its page.
    #[inline(always)]
    pub fn has(&self, va: u32, bytes: &[u8]) -> bool
        requires { va % PAGE_SIZE + length bytes.now ≤ PAGE_SIZE }
        ensures { result ≡ are_at (byte_of self.now) va bytes.now }
    {
        let va = va as usize;
        match found(&self.regions, va / PAGE_SIZE) {
            None => bytes.is_empty(),
            Some(page) => page.has(va % PAGE_SIZE, bytes),
        }
    }

    /// Whether there is room for a byte at an address.
    #[inline(always)]
    pub fn holds(&self, va: u32) -> bool
        ensures { result ≡ is_held self.now va }
    {
        found(&self.regions, va as usize / PAGE_SIZE).is_some()
    }

    /// Makes room for the page of an address, and for no other. No byte changes, whatever the answer. `NoMemory` is
    /// free, and leaves the room as it was.
    pub fn hold(&mut self, va: u32) -> Result<(), NoMemory>
        ensures held { IfOk result (λ _. (a : ℕ) → a / PAGE_SIZE ≡ va / PAGE_SIZE → is_held self.new a ≡ true) }
        ensures bytes { (a : ℕ) → byte_of self.new a ≡ byte_of self.old a }
        ensures keeps { (a : ℕ) → is_held self.old a ≡ true → is_held self.new a ≡ true }
        ensures others { (a : ℕ) → a / PAGE_SIZE ≢ va / PAGE_SIZE → is_held self.new a ≡ is_held self.old a }
        ensures refused { IfErr result (λ _. (a : ℕ) → is_held self.new a ≡ is_held self.old a) }
    {
        if self.holds(va) {
            return Ok(());
        }
        let number = va as usize / PAGE_SIZE;
        reach(&mut self.regions, self.alloc, number / REGION_PAGES + 1)?;
        let region = &mut self.regions[number / REGION_PAGES];
        fill(region, number % REGION_PAGES + 1)?;
        region[number % REGION_PAGES] = Some(Page::blank(self.alloc)?);
        Ok(())
    }

    /// Puts a byte at an address for which there is room.
    #[inline(always)]
    pub fn put(&mut self, va: u32, byte: u8)
        requires { is_held self.old va ≡ true }
        ensures here { byte_of self.new va ≡ Some byte }
        ensures others { (a : ℕ) → a ≢ va → byte_of self.new a ≡ byte_of self.old a }
        ensures holds { (a : ℕ) → is_held self.new a ≡ is_held self.old a }
    {
        let va = va as usize;
        let number = va / PAGE_SIZE;
        let region = &mut self.regions[number / REGION_PAGES];
        if let Some(page) = &mut region[number % REGION_PAGES] {
            page.put(va % PAGE_SIZE, byte);
        }
    }
}
