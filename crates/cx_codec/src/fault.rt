//! Why a field could not be read or put.

ghost use Rattle.std.specs.Prelude.{◌≡◌};
ghost use Rattle.cx_codec.specs.declared.fault.OutFault.TheVariants.{NoMemory as no_memory};
ghost use Rattle.cx_codec.specs.Refusal.{out_fault_of};

use cx_io::{NoMemory, SinkRefusal};
use thiserror::Error;

/// Why a field could not be read.
#[derive(Clone, Copy, Debug, PartialEq, Eq, Error)]
pub enum BytesFault {
    /// The field isn't there. The offset is the input's length where the input ends inside the field, the limit where
    /// the byte at the limit is needed, and the field's first offset where a varint breaks its rule.
    #[error("Bad")]
    Bad(u64),
    /// The source failed.
    #[error("ReadFault")]
    ReadFault,
}

/// Why bytes could not be put.
#[derive(Clone, Copy, Debug, PartialEq, Eq, Error)]
pub enum OutFault {
    /// The sink failed.
    #[error("WriteFault")]
    WriteFault,
    /// The sink had no memory.
    #[error("NoMemory")]
    NoMemory,
}

impl From<NoMemory> for OutFault {
    ghost from_gives = { λ _ e. e ≡ no_memory };

    fn from(_: NoMemory) -> Self {
        OutFault::NoMemory
    }
}

impl From<SinkRefusal> for OutFault {
    ghost from_gives = { λ refusal e. e ≡ out_fault_of refusal };

    fn from(refusal: SinkRefusal) -> Self {
        match refusal {
            SinkRefusal::Failed => OutFault::WriteFault,
            SinkRefusal::NoMemory => OutFault::NoMemory,
        }
    }
}
