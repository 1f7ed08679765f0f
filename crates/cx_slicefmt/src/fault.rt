//! Why a slice could not be read.

ghost use Rattle.std.specs.Prelude.{◌≡◌};
ghost use Rattle.cx_slicefmt.specs.Fault.{slice_fault_of};

use cx_codec::BytesFault;
use thiserror::Error;

/// Why a slice could not be read.
#[derive(Clone, Copy, Debug, PartialEq, Eq, Error)]
pub enum SliceFault {
    /// A field is bad: at its first offset, or at the input's length where the input ends inside it.
    #[error("Format")]
    Format(u64),
    /// The source failed.
    #[error("ReadFault")]
    ReadFault,
}

impl From<BytesFault> for SliceFault {
    ghost from_gives = { λ fault e. e ≡ slice_fault_of fault };

    fn from(fault: BytesFault) -> Self {
        match fault {
            BytesFault::Bad(offset) => SliceFault::Format(offset),
            BytesFault::ReadFault => SliceFault::ReadFault,
        }
    }
}
