//! Why an image could not be read.

ghost use Rattle.std.specs.Prelude.{◌≡◌};
ghost use Rattle.cx_live.specs.Fault.{image_fault_of};

use cx_log::LogFault;
use thiserror::Error;

/// Why an image could not be read.
#[derive(Clone, Copy, Debug, PartialEq, Eq, Error)]
pub enum ImageFault {
    /// A field is bad: at its first offset, or at the input's length where the input ends inside it.
    #[error("Format")]
    Format(u64),
    /// The source failed.
    #[error("ReadFault")]
    ReadFault,
    /// Memory was refused.
    #[error("NoMemory")]
    NoMemory,
}

impl From<LogFault> for ImageFault {
    ghost from_gives = { λ fault e. e ≡ image_fault_of fault };

    fn from(fault: LogFault) -> Self {
        match fault {
            LogFault::Format(offset) => ImageFault::Format(offset),
            LogFault::ReadFault => ImageFault::ReadFault,
            LogFault::NoMemory => ImageFault::NoMemory,
        }
    }
}
