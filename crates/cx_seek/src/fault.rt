//! Why a seeker could not go to a step.

ghost use Rattle.std.specs.Prelude.{◌≡◌};
ghost use Rattle.cx_seek.specs.declared.fault.SeekFault.TheVariants.{NoMemory as no_memory};

use cx_io::NoMemory;
use thiserror::Error;

/// Why a seeker could not go to a step.
#[derive(Clone, Copy, Debug, PartialEq, Eq, Error)]
pub enum SeekFault {
    /// The recording has no such step, and it isn't its end.
    #[error("NotThere")]
    NotThere,
    /// Memory was refused.
    #[error("NoMemory")]
    NoMemory,
}

impl From<NoMemory> for SeekFault {
    ghost from_gives = { λ _ e. e ≡ no_memory };

    fn from(_: NoMemory) -> Self {
        SeekFault::NoMemory
    }
}
