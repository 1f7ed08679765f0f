//! Why a run could not be recorded.

ghost use Rattle.std.specs.Prelude.{◌≡◌};
ghost use Rattle.cx_record.specs.Fault.{record_fault_of};
ghost use Rattle.cx_record.specs.declared.fault.RecordFault.TheVariants.{NoMemory as no_memory, WorldFault as world_fault};

use cx_codec::OutFault;
use cx_io::Failed;
use cx_live::NoMemory;
use thiserror::Error;

/// Why a run could not be recorded to its end.
#[derive(Clone, Copy, Debug, PartialEq, Eq, Error)]
pub enum RecordFault {
    /// The world failed.
    #[error("WorldFault")]
    WorldFault,
    /// The sink failed.
    #[error("WriteFault")]
    WriteFault,
    /// Memory was refused.
    #[error("NoMemory")]
    NoMemory,
}

impl From<OutFault> for RecordFault {
    ghost from_gives = { λ fault e. e ≡ record_fault_of fault };

    fn from(fault: OutFault) -> Self {
        match fault {
            OutFault::WriteFault => RecordFault::WriteFault,
            OutFault::NoMemory => RecordFault::NoMemory,
        }
    }
}

impl From<NoMemory> for RecordFault {
    ghost from_gives = { λ _ e. e ≡ no_memory };

    fn from(_: NoMemory) -> Self {
        RecordFault::NoMemory
    }
}

impl From<Failed> for RecordFault {
    ghost from_gives = { λ _ e. e ≡ world_fault };

    fn from(_: Failed) -> Self {
        RecordFault::WorldFault
    }
}
