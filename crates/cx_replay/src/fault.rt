//! Why a replay could not go on.

ghost use Rattle.std.specs.Prelude.{◌≡◌};
ghost use Rattle.cx_replay.specs.Fault.{replay_fault_of};
ghost use Rattle.cx_replay.specs.declared.fault.ReplayFault.TheVariants.{NoMemory as no_memory};

use cx_io::NoMemory;
use cx_log::LogFault;
use cx_ram::NoMemory as NoFrame;
use thiserror::Error;

/// Why a replay could not go on.
#[derive(Clone, Copy, Debug, PartialEq, Eq, Error)]
pub enum ReplayFault {
    /// A field of the recording is bad: at its first offset, or at the input's length where the input ends inside it.
    #[error("Format")]
    Format(u64),
    /// This step can't be carried out with what the recording hands to it, and each before it can.
    #[error("Broken")]
    Broken(u64),
    /// The source failed.
    #[error("ReadFault")]
    ReadFault,
    /// Memory was refused.
    #[error("NoMemory")]
    NoMemory,
}

impl From<LogFault> for ReplayFault {
    ghost from_gives = { λ fault e. e ≡ replay_fault_of fault };

    fn from(fault: LogFault) -> Self {
        match fault {
            LogFault::Format(offset) => ReplayFault::Format(offset),
            LogFault::ReadFault => ReplayFault::ReadFault,
            LogFault::NoMemory => ReplayFault::NoMemory,
        }
    }
}

impl From<NoMemory> for ReplayFault {
    ghost from_gives = { λ _ e. e ≡ no_memory };

    fn from(_: NoMemory) -> Self {
        ReplayFault::NoMemory
    }
}

impl From<NoFrame> for ReplayFault {
    ghost from_gives = { λ _ e. e ≡ no_memory };

    fn from(_: NoFrame) -> Self {
        ReplayFault::NoMemory
    }
}
