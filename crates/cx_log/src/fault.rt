//! Why a recording could not be read.

ghost use Rattle.std.specs.Prelude.{◌≡◌};
ghost use Rattle.cx_log.specs.declared.fault.LogFault.TheVariants.{NoMemory as no_memory};
ghost use Rattle.cx_log.specs.Fault.{log_fault_of};

use cx_codec::BytesFault;
use cx_io::NoMemory;
use thiserror::Error;

/// Why a recording could not be read.
#[derive(Clone, Copy, Debug, PartialEq, Eq, Error)]
pub enum LogFault {
    /// A field is bad: at its first offset, or at the input's length where the input ends inside it.
    #[error("Format")]
    Format(u64),
    /// The source failed.
    #[error("ReadFault")]
    ReadFault,
    /// Memory was refused.
    #[error("NoMemory")]
    NoMemory,
}

impl From<BytesFault> for LogFault {
    ghost from_gives = { λ fault e. e ≡ log_fault_of fault };

    fn from(fault: BytesFault) -> Self {
        match fault {
            BytesFault::Bad(offset) => LogFault::Format(offset),
            BytesFault::ReadFault => LogFault::ReadFault,
        }
    }
}

impl From<NoMemory> for LogFault {
    ghost from_gives = { λ _ e. e ≡ no_memory };

    fn from(_: NoMemory) -> Self {
        LogFault::NoMemory
    }
}
