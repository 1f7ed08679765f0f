//! What an instruction needs.

use crate::got::Got;

/// The kind of a data access.
#[derive(Clone, Copy, Debug, PartialEq, Eq)]
pub enum Access {
    /// A load.
    Load,
    /// A store.
    Store,
    /// The load of an LR.
    Reserve,
    /// The store of an SC.
    Conditional,
    /// The load and the store of an AMO.
    Amo,
}

/// A data access: its kind, its virtual address, and its length in bytes (1, 2 or 4).
#[derive(Clone, Copy, Debug, PartialEq, Eq)]
pub struct Need {
    /// The kind.
    pub access: Access,
    /// The virtual address of the first byte.
    pub va: u32,
    /// How many bytes.
    pub len: u8,
}

/// What an instruction needs from outside of its registers.
#[derive(Clone, Copy, Debug, PartialEq, Eq)]
pub enum Ask {
    /// Nothing.
    Nothing,
    /// The bytes at a virtual address.
    Load { va: u32, len: u8 },
    /// That bytes go to a virtual address.
    Store { va: u32, len: u8 },
    /// The word at a virtual address, with a reservation of it.
    Reserve { va: u32 },
    /// That a word goes to a virtual address where the reservation holds.
    Conditional { va: u32 },
    /// The word at a virtual address, and that another replaces it.
    Amo { va: u32 },
    /// A control register.
    Csr,
    /// A call of the environment, a breakpoint, or the return from a trap.
    System,
}

impl Ask {
    ghost use Rattle.std.specs.Prelude.{◌≡◌, ◌↔◌, IsTrue};
    ghost use Rattle.cx_exec.specs.Asking.{FitsAsk, need_of};

    /// The access to memory that is asked for, if one is.
    pub fn need(self) -> Option<Need>
        ensures { result ≡ need_of self }
    {
        let (access, va, len) = match self {
            Ask::Load { va, len } => (Access::Load, va, len),
            Ask::Store { va, len } => (Access::Store, va, len),
            Ask::Reserve { va } => (Access::Reserve, va, 4),
            Ask::Conditional { va } => (Access::Conditional, va, 4),
            Ask::Amo { va } => (Access::Amo, va, 4),
            Ask::Nothing | Ask::Csr | Ask::System => return None,
        };
        Some(Need { access, va, len })
    }

    /// Whether an answer is of the kind that was asked for: bytes for a load, an LR or an AMO, an outcome of 0 or 1 for
    /// an SC, an old value for a control register, and nothing else for all others. Nothing answers `System`.
    pub fn is_answered_by(self, got: Got) -> bool
        ensures { IsTrue result ↔ FitsAsk self got }
    {
        match (self, got) {
            (Ask::Load { .. } | Ask::Reserve { .. } | Ask::Amo { .. }, Got::Bytes(_)) => true,
            (Ask::Conditional { .. }, Got::Outcome(outcome)) => outcome < 2,
            (Ask::Csr, Got::Old(_)) => true,
            (Ask::Nothing | Ask::Store { .. }, Got::Nothing) => true,
            _ => false,
        }
    }
}
