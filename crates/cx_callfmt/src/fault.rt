//! Why the bytes of a head could not be gathered.

ghost use Rattle.std.specs.Prelude.{◌≡◌};
ghost use Rattle.cx_callfmt.specs.Gathering.{call_fault_of};

use cx_slicefmt::SliceFault;
use thiserror::Error;

/// Why the bytes of a head could not be gathered.
#[derive(Clone, Copy, Debug, PartialEq, Eq, Error)]
pub enum CallFault {
    /// A field is bad: at its first offset, or at the input's length where the input ends inside it.
    #[error("Format")]
    Format(u64),
    /// The source failed.
    #[error("ReadFault")]
    ReadFault,
    /// There was no memory for a byte.
    #[error("NoMemory")]
    NoMemory,
}

impl From<SliceFault> for CallFault {
    ghost from_gives = { λ fault e. e ≡ call_fault_of fault };

    fn from(fault: SliceFault) -> Self {
        match fault {
            SliceFault::Format(offset) => CallFault::Format(offset),
            SliceFault::ReadFault => CallFault::ReadFault,
        }
    }
}
