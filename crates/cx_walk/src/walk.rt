//! The walk of a page table.

ghost use Rattle.std.specs.Prelude.{◌≡◌, ◌%◌, ◌⊎◌, ◌≤◌, [], ◌∷◌, IfOk, Some};
ghost use Rattle.cx_csr.specs.Rules.{is_in_ram};
ghost use Rattle.cx_map.specs.Map.{size_of_pages};
ghost use Rattle.cx_walk.specs.Bytes.{word_in};
ghost use Rattle.cx_walk.specs.Walks.{IsFound, address_of, address_through, is_for_devices, place_at, trail_of};
ghost use Rattle.cx_walk.specs.Walks.{walk_of, walk_to};

use crate::device::DeviceWord;
use crate::entry::{Entry, Size};
use crate::kind::Kind;
use crate::mode::is_bare;
use crate::words::Words;
use cx_csr::State;
use cx_map::{MOST_PAGES, PAGE_SIZE, RAM_START};

/// What stands at a physical address.
#[derive(Clone, Copy, Debug, PartialEq, Eq)]
pub enum Place {
    /// RAM, at this place.
    Ram(u32),
    /// The word of the devices at this place.
    Device(u32),
}

/// What an access to memory comes to.
#[derive(Clone, Copy, Debug, PartialEq, Eq)]
pub struct Walk {
    /// How many entries of the page table were read.
    pub count: u8,
    /// Their places in order; those past the count are 0.
    pub places: [u32; 2],
    /// The physical address, or the virtual one where nothing is translated; None where the walk faulted before.
    pub address: Option<u64>,
    /// What stands there, or the cause of the exception.
    pub answer: Result<Place, u32>,
}

/// The entries that a walk read, and the address or the cause that they gave.
#[derive(Clone, Copy)]
struct Trail {
    count: u8,
    places: [u32; 2],
    outcome: Result<u64, u32>,
}

impl Trail {
    #[inline]
    fn through_none(outcome: Result<u64, u32>) -> Trail
        ensures { result ≡ record { count = 0; places = 0 ∷ 0 ∷ []; outcome = outcome } }
    {
        Trail {
            count: 0,
            places: [0, 0],
            outcome,
        }
    }

    fn through_one(first: u32, outcome: Result<u64, u32>) -> Trail
        ensures { result ≡ record { count = 1; places = first ∷ 0 ∷ []; outcome = outcome } }
    {
        Trail {
            count: 1,
            places: [first, 0],
            outcome,
        }
    }

    fn through_two(first: u32, second: u32, outcome: Result<u64, u32>) -> Trail
        ensures { result ≡ record { count = 2; places = first ∷ second ∷ []; outcome = outcome } }
    {
        Trail {
            count: 2,
            places: [first, second],
            outcome,
        }
    }

    /// The walk that this trail makes, and what stands at its address.
    #[inline]
    fn end(self, pages: u32, kind: Kind, len: u8) -> Walk
        requires { pages ≤ MOST_PAGES }
        ensures { result ≡ walk_to pages kind len self }
    {
        Walk {
            count: self.count,
            places: self.places,
            address: self.outcome.ok(),
            answer: match self.outcome {
                Ok(address) => place_at(pages, kind, len, address),
                Err(cause) => Err(cause),
            },
        }
    }
}

/// Translates the virtual address of an access of `len` bytes, which divides it, and tells what stands at the physical
/// one. The cause is a page fault where an entry of the table is invalid, is no leaf where it has to be, or doesn't let
/// the access through; it is an access fault where an entry isn't in memory, or where the bytes of the access are
/// neither in RAM nor a word of the devices that it reaches.
#[tactic(auto, unfolding(crate::specs::Walks::walk_of))]
#[inline]
pub fn translate<V: Words>(view: &V, state: &State, kind: Kind, va: u32, len: u8) -> Walk
    requires length { (len ≡ 1) ⊎ (len ≡ 2) ⊎ (len ≡ 4) }
    requires aligned { va % len ≡ 0 }
    ensures walk { result ≡ walk_of (word_in (V.bytes view.now)) (V.pages view.now) state.now kind va len }
    ensures address { IfOk result.answer (λ place. result.address ≡ Some (address_of place)) }
    ensures found { IfOk result.answer (IsFound (V.pages view.now) kind len) }
{
    follow(view, state, kind, va).end(view.pages(), kind, len)
}

/// Follows the page table to the physical address.
#[tactic(auto, unfolding(crate::specs::Walks::trail_of))]
fn follow<V: Words>(view: &V, state: &State, kind: Kind, va: u32) -> Trail
    ensures { result ≡ trail_of (word_in (V.bytes view.now)) state.now kind va }
{
    if is_bare(state, kind) {
        return Trail::through_none(Ok(va as u64));
    }
    let first = Entry::first_place(state.csr.satp, va);
    let Some(word) = view.word(first) else {
        return Trail::through_none(Err(kind.access_fault()));
    };
    let entry = Entry(word);
    if !entry.is_pointer() {
        let outcome = address_through(state, kind, va, Size::Megapage, entry);
        return Trail::through_one(first as u32, outcome);
    }
    let second = entry.second_place(va);
    let Some(word) = view.word(second) else {
        return Trail::through_one(first as u32, Err(kind.access_fault()));
    };
    let outcome = address_through(state, kind, va, Size::Page, Entry(word));
    Trail::through_two(first as u32, second as u32, outcome)
}

/// The physical address that an entry gives, or the cause of the page fault.
#[tactic(auto, unfolding(crate::specs::Walks::address_through))]
fn address_through(state: &State, kind: Kind, va: u32, size: Size, entry: Entry) -> Result<u64, u32>
    ensures { result ≡ address_through state.now kind va size entry.0 }
{
    if !entry.is_open(state, kind, size) {
        return Err(kind.page_fault());
    }
    Ok(entry.physical_address(size, va))
}

/// What stands at a physical address, or the cause of the access fault.
#[tactic(auto, unfolding(crate::specs::Walks::place_at))]
#[inline]
fn place_at(pages: u32, kind: Kind, len: u8, address: u64) -> Result<Place, u32>
    requires { pages ≤ MOST_PAGES }
    ensures { result ≡ place_at pages kind len address }
{
    if is_in_ram(pages, len, address) {
        return Ok(Place::Ram(address as u32));
    }
    match DeviceWord::at(address) {
        Some(word) if is_for_devices(kind, len) => Ok(Place::Device(word.place())),
        _ => Err(kind.access_fault()),
    }
}

#[inline]
fn is_in_ram(pages: u32, len: u8, address: u64) -> bool
    ensures { result ≡ is_in_ram (size_of_pages pages) address len }
{
    let start = RAM_START as u64;
    let end = start + pages as u64 * PAGE_SIZE as u64;
    start <= address && address <= end && len as u64 <= end - address
}

#[inline]
fn is_for_devices(kind: Kind, len: u8) -> bool
    ensures { result ≡ is_for_devices kind len }
{
    matches!(kind, Kind::Load | Kind::Store) && len == 4
}
