//! Why events could not be kept.

use thiserror::Error;

/// Why events could not be kept.
#[derive(Clone, Copy, Debug, PartialEq, Eq, Error)]
pub enum KeepingFault {
    /// The source failed.
    #[error("ReadFault")]
    ReadFault,
    /// Memory was refused.
    #[error("NoMemory")]
    NoMemory,
}
