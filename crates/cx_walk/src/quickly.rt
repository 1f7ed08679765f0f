//! A walk by one look at each of its entries.
//!
//! Nearly all accesses of user mode go through an entry that points to a table and one that is a page of user mode, to
//! RAM, with nothing in their way. Whether that is so one mask tells of each entry. A walk takes 66 instructions of the
//! processor so. One that tests flag by flag and has to say how it ends took 228 (`cx_bench`, user mode, by callgrind).
//! All that isn't such an access is left to `translate`.

ghost use Rattle.std.specs.Prelude.{◌≡◌, ◌%◌, ◌⊎◌, bit_and, false, true, IfSome, IsTrue, Some};
ghost use Rattle.cx_csr.specs.Rules.{is_in_ram};
ghost use Rattle.cx_map.specs.Map.{size_of_pages};
ghost use Rattle.cx_walk.specs.Bytes.{word_in};
ghost use Rattle.cx_walk.specs.Entry.{is_open, is_pointer};
ghost use Rattle.cx_walk.specs.Mode.{is_bare};
ghost use Rattle.cx_walk.specs.Quick.{open_flags, quick_walk};
ghost use Rattle.cx_walk.specs.Walks.{walk_of};
ghost use Rattle.cx_walk.specs.declared.entry.Size.TheVariants.{Page};

use crate::entry::{Entry, Size};
use crate::kind::Kind;
use crate::words::Words;
use cx_csr::State;
use cx_csr::modes::USER;
use cx_map::{PAGE_SIZE, RAM_START};

/// All flags of an entry but G and those of software.
const FLAGS: u32 = 0xdf;
/// V alone: the entry points to a table.
const POINTS: u32 = 0x01;
/// V, R, X, U and A: user mode may fetch from the page.
const FETCHES: u32 = 0x5b;
/// V, R, U and A: user mode may load from it.
const LOADS: u32 = 0x53;
/// V, R, W, U, A and D: user mode may store to it.
const STORES: u32 = 0xd7;

/// A walk through two entries to RAM.
#[derive(Clone, Copy, Debug, PartialEq, Eq)]
pub struct QuickWalk {
    /// The place of the entry of level 1.
    pub first: u32,
    /// That entry.
    pub first_entry: u32,
    /// The place of the entry of level 0.
    pub second: u32,
    /// That entry.
    pub second_entry: u32,
    /// The place in RAM that the walk gives.
    pub place: u32,
}

/// Whether the entry is a pointer, by one mask.
#[inline(always)]
fn points(entry: u32) -> bool
    ensures { IsTrue result → is_pointer entry ≡ true }
{
    entry & FLAGS == POINTS
}

/// The flags that let an access of user mode through a page.
#[inline(always)]
fn flags(kind: Kind) -> u32
    ensures { result ≡ open_flags kind }
{
    match kind {
        Kind::Fetch => FETCHES,
        Kind::Load | Kind::Reserve => LOADS,
        Kind::Store | Kind::Atomic => STORES,
    }
}

/// Whether user mode goes through the page, by one mask.
#[inline(always)]
fn opens(state: &State, kind: Kind, entry: u32) -> bool
    requires { state.now.mode ≡ USER }
    ensures { IsTrue result → is_open state.now kind Page entry ≡ true }
{
    let flags = flags(kind);
    entry & flags == flags
}

/// Whether the bytes of an access lie in RAM, at a place that is aligned to them: RAM is whole pages.
#[inline(always)]
#[tactic(auto, using(crate::proofs::QuickWalks::inside_ram))]
fn is_inside(pages: u32, len: u8, place: u64) -> bool
    requires length { (len ≡ 1) ⊎ (len ≡ 2) ⊎ (len ≡ 4) }
    requires aligned { place % len ≡ 0 }
    ensures { IsTrue result → is_in_ram (size_of_pages pages) place len ≡ true }
{
    let _ = len;
    let start = u64::from(RAM_START);
    start <= place && place - start < u64::from(pages) * PAGE_SIZE as u64
}

/// The walk of an access of user mode that goes through two entries to RAM with nothing in its way. None comes of every
/// other access, and says nothing of it.
#[inline(always)]
#[tactic(auto, using(crate::proofs::Found::address_aligned))]
pub fn walk_quickly<V: Words>(
    view: &V,
    state: &State,
    kind: Kind,
    va: u32,
    len: u8,
) -> Option<QuickWalk>
    requires length { (len ≡ 1) ⊎ (len ≡ 2) ⊎ (len ≡ 4) }
    requires aligned { va % len ≡ 0 }
    requires translated { is_bare state.now kind ≡ false }
    ensures walk { IfSome result (λ q.
        walk_of (word_in (V.bytes view.now)) (V.pages view.now) state.now kind va len ≡ quick_walk q) }
    ensures first { IfSome result (λ q. word_in (V.bytes view.now) q.first ≡ Some q.first_entry) }
    ensures second { IfSome result (λ q. word_in (V.bytes view.now) q.second ≡ Some q.second_entry) }
{
    if state.mode != USER {
        return None;
    }
    let first = Entry::first_place(state.csr.satp, va);
    let Some(first_entry) = view.word(first) else {
        return None;
    };
    if !points(first_entry) {
        return None;
    }
    let second = Entry(first_entry).second_place(va);
    let Some(second_entry) = view.word(second) else {
        return None;
    };
    if !opens(state, kind, second_entry) {
        return None;
    }
    let place = Entry(second_entry).physical_address(Size::Page, va);
    if !is_inside(view.pages(), len, place) {
        return None;
    }
    Some(QuickWalk {
        first: first as u32,
        first_entry,
        second: second as u32,
        second_entry,
        place: place as u32,
    })
}
