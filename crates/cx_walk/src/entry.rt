//! The entries of a page table.

ghost use Rattle.std.specs.Prelude.{◌≡◌};
ghost use Rattle.cx_walk.specs.Entry.{first_place, is_aligned_leaf, is_leaf, is_marked, is_open, is_permitted};
ghost use Rattle.cx_walk.specs.Entry.{is_pointer, is_reached, is_valid, page_number, physical_address, second_place};

use crate::kind::Kind;
use crate::mode::effective_mode;
use cx_csr::fields::SATP_PPN;
use cx_csr::modes::USER;
use cx_csr::status::{MXR, SUM};
use cx_csr::{State, is_bit_set};
use cx_map::PAGE_SIZE;

// The flags of an entry, each by its bit (Privileged 1.12, section 4.3.1).
/// Whether the entry is valid.
pub(crate) const PTE_V: u32 = 0;
/// Whether the page may be read.
pub(crate) const PTE_R: u32 = 1;
/// Whether the page may be written.
pub(crate) const PTE_W: u32 = 2;
/// Whether the page may be executed.
pub(crate) const PTE_X: u32 = 3;
/// Whether the page is one of user mode.
pub(crate) const PTE_U: u32 = 4;
/// Whether the page was accessed.
pub(crate) const PTE_A: u32 = 6;
/// Whether the page was written.
pub(crate) const PTE_D: u32 = 7;
/// The lowest bit of the page number.
pub(crate) const PTE_PPN: u32 = 10;

/// How many bytes an entry has.
pub(crate) const PTE_SIZE: u32 = 4;
/// How many pages a megapage has.
pub(crate) const MEGAPAGE_PAGES: u32 = 1 << 10;
/// How many bytes a megapage has.
pub(crate) const MEGAPAGE_SIZE: u32 = MEGAPAGE_PAGES * PAGE_SIZE as u32;

/// What a leaf maps: a page of 4 KiB at level 0, a megapage of 4 MiB at level 1.
#[derive(Clone, Copy)]
pub(crate) enum Size {
    Page,
    Megapage,
}

/// An entry of a page table.
#[derive(Clone, Copy)]
pub(crate) struct Entry(pub u32);

impl Entry {
    /// The place of the level-1 entry of an address.
    pub fn first_place(satp: u32, va: u32) -> u64
        ensures { result ≡ first_place satp va }
    {
        (satp & SATP_PPN) as u64 * PAGE_SIZE as u64 + (va >> 22) as u64 * PTE_SIZE as u64
    }

    /// The place of the level-0 entry that this entry points to.
    pub fn second_place(self, va: u32) -> u64
        ensures { result ≡ second_place self.0 va }
    {
        self.page_number() * PAGE_SIZE as u64 + ((va >> 12) & 0x3ff) as u64 * PTE_SIZE as u64
    }

    /// Whether the entry points to the next table.
    pub fn is_pointer(self) -> bool
        ensures { result ≡ is_pointer self.0 }
    {
        self.is_valid()
            && !self.is_leaf()
            && !(is_bit_set(self.0, PTE_A)
                || is_bit_set(self.0, PTE_D)
                || is_bit_set(self.0, PTE_U))
    }

    /// Whether the entry is a leaf that the access may go through.
    #[tactic(auto, unfolding(crate::specs::Entry::is_open))]
    pub fn is_open(self, state: &State, kind: Kind, size: Size) -> bool
        ensures { result ≡ is_open state.now kind size self.0 }
    {
        let mstatus = state.csr.mstatus;
        self.is_valid()
            && self.is_leaf()
            && self.is_permitted(mstatus, kind)
            && self.is_reached(mstatus, kind, effective_mode(state, kind))
            && self.is_aligned_leaf(size)
            && self.is_marked(kind)
    }

    /// The physical address that the leaf gives for an address.
    pub fn physical_address(self, size: Size, va: u32) -> u64
        ensures { result ≡ physical_address size self.0 va }
    {
        match size {
            Size::Page => self.page_number() * PAGE_SIZE as u64 + (va % PAGE_SIZE as u32) as u64,
            Size::Megapage => {
                self.page_number() / MEGAPAGE_PAGES as u64 * MEGAPAGE_SIZE as u64
                    + (va % MEGAPAGE_SIZE) as u64
            }
        }
    }

    /// The page number that the entry holds.
    fn page_number(self) -> u64
        ensures { result ≡ page_number self.0 }
    {
        (self.0 >> PTE_PPN) as u64
    }

    fn is_valid(self) -> bool
        ensures { result ≡ is_valid self.0 }
    {
        is_bit_set(self.0, PTE_V) && (is_bit_set(self.0, PTE_R) || !is_bit_set(self.0, PTE_W))
    }

    fn is_leaf(self) -> bool
        ensures { result ≡ is_leaf self.0 }
    {
        is_bit_set(self.0, PTE_R) || is_bit_set(self.0, PTE_X)
    }

    /// Whether the leaf permits the kind of access.
    fn is_permitted(self, mstatus: u32, kind: Kind) -> bool
        ensures { result ≡ is_permitted mstatus kind self.0 }
    {
        match kind {
            Kind::Fetch => is_bit_set(self.0, PTE_X),
            Kind::Load | Kind::Reserve => is_bit_set(self.0, PTE_R)
                || is_bit_set(self.0, PTE_X) && is_bit_set(mstatus, MXR),
            Kind::Store | Kind::Atomic => is_bit_set(self.0, PTE_W),
        }
    }

    /// Whether the mode reaches the leaf's page.
    fn is_reached(self, mstatus: u32, kind: Kind, mode: u8) -> bool
        ensures { result ≡ is_reached mstatus kind mode self.0 }
    {
        if mode == USER {
            return is_bit_set(self.0, PTE_U);
        }
        !is_bit_set(self.0, PTE_U) || !kind.is_fetch() && is_bit_set(mstatus, SUM)
    }

    /// Whether the page was marked as accessed, and as written where the access writes.
    fn is_marked(self, kind: Kind) -> bool
        ensures { result ≡ is_marked kind self.0 }
    {
        is_bit_set(self.0, PTE_A) && (!kind.is_write() || is_bit_set(self.0, PTE_D))
    }

    /// Whether a leaf for this size is aligned to it.
    fn is_aligned_leaf(self, size: Size) -> bool
        ensures { result ≡ is_aligned_leaf size self.0 }
    {
        match size {
            Size::Page => true,
            Size::Megapage => self.page_number() % MEGAPAGE_PAGES as u64 == 0,
        }
    }
}
