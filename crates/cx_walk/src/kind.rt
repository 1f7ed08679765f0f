//! The kinds of accesses to memory.

ghost use Rattle.std.specs.Prelude.{◌≡◌};
ghost use Rattle.cx_walk.specs.Kinds.{access_fault, is_fetch, is_write, page_fault};

use cx_csr::causes::{
    INSTRUCTION_ACCESS_FAULT, INSTRUCTION_PAGE_FAULT, LOAD_ACCESS_FAULT, LOAD_PAGE_FAULT,
    STORE_ACCESS_FAULT, STORE_PAGE_FAULT,
};

/// What an access to memory is for.
#[derive(Clone, Copy, Debug, PartialEq, Eq)]
pub enum Kind {
    /// The fetch of an instruction.
    Fetch,
    /// A plain load.
    Load,
    /// A plain store.
    Store,
    /// A load-reserved.
    Reserve,
    /// A store-conditional, or an atomic operation on memory.
    Atomic,
}

impl Kind {
    /// The cause of an access fault of this kind.
    #[inline]
    pub fn access_fault(self) -> u32
        ensures { result ≡ access_fault self }
    {
        match self {
            Kind::Fetch => INSTRUCTION_ACCESS_FAULT,
            Kind::Load | Kind::Reserve => LOAD_ACCESS_FAULT,
            Kind::Store | Kind::Atomic => STORE_ACCESS_FAULT,
        }
    }

    /// The cause of a page fault of this kind.
    #[inline]
    pub fn page_fault(self) -> u32
        ensures { result ≡ page_fault self }
    {
        match self {
            Kind::Fetch => INSTRUCTION_PAGE_FAULT,
            Kind::Load | Kind::Reserve => LOAD_PAGE_FAULT,
            Kind::Store | Kind::Atomic => STORE_PAGE_FAULT,
        }
    }

    /// Whether an instruction is read, and not data.
    #[inline]
    pub(crate) fn is_fetch(self) -> bool
        ensures { result ≡ is_fetch self }
    {
        matches!(self, Kind::Fetch)
    }

    /// Whether the access needs leave to write.
    #[inline]
    pub(crate) fn is_write(self) -> bool
        ensures { result ≡ is_write self }
    {
        matches!(self, Kind::Store | Kind::Atomic)
    }
}
