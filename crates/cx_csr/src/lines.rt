//! The interrupt lines that the outside drives.

ghost use Rattle.std.specs.Prelude.{⊤, [], ◌∷◌, ◌^◌, codes};
ghost use Rattle.cx_csr.specs.declared.interrupts.TheConstants.{MSI, MTI, SEI, MEI};

use crate::interrupts::{MEI, MSI, MTI, SEI};
use bitflags::{Flag, Flags, bitflag_items};

/// The four interrupt lines from the devices to the hart, each at its bit of `mip` (Privileged 1.12, section 3.1.9).
/// A line that is up makes its interrupt pending, whatever software wrote.
#[derive(Clone, Copy, PartialEq, Eq, Debug)]
pub struct Lines(
    /// The lines that are up.
    pub u32,
);

bitflag_items! {
    impl Lines: u32 {
        /// The software interrupt of machine mode.
        const MSIP = 1 << MSI;
        /// The timer interrupt of machine mode.
        const MTIP = 1 << MTI;
        /// The external interrupt of supervisor mode.
        const SEIP = 1 << SEI;
        /// The external interrupt of machine mode.
        const MEIP = 1 << MEI;
    }
}

impl Flags for Lines {
    type Bits = u32;

    ghost exact = { ⊤ };

    ghost table = { (codes "MSIP", 2 ^ MSI) ∷ (codes "MTIP", 2 ^ MTI) ∷ (codes "SEIP", 2 ^ SEI)
        ∷ (codes "MEIP", 2 ^ MEI) ∷ [] };

    ghost set_of = { λ lines. lines.0 };

    fn flags<'a>() -> &'a [Flag<Lines>] {
        Lines::FLAGS
    }

    fn bits(&self) -> u32 {
        self.0
    }

    fn from_bits_retain(bits: u32) -> Lines {
        Lines(bits)
    }
}
