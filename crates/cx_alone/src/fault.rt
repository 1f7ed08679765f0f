//! Why a step or an entry could not be taken.

ghost use Rattle.std.specs.Prelude.{◌≡◌};
ghost use Rattle.cx_alone.specs.Faults.{replay_fault_of};
ghost use Rattle.cx_alone.specs.declared.fault.Stop.TheVariants.{NoMemory as no_memory};

use cx_io::NoMemory;
use cx_replay::ReplayFault;
use cx_slicefmt::SliceFault;

/// Why a step could not be taken.
#[derive(Clone, Copy, Debug, PartialEq, Eq)]
pub enum Stop {
    /// An item stands already or isn't seen, or the program can't take the step.
    Broken,
    /// Memory was refused.
    NoMemory,
}

impl From<NoMemory> for Stop {
    ghost from_gives = { λ _ e. e ≡ no_memory };

    fn from(_: NoMemory) -> Self {
        Stop::NoMemory
    }
}

/// What the fault of a reader becomes.
pub fn replay_fault(fault: SliceFault) -> ReplayFault
    ensures { result ≡ replay_fault_of fault }
{
    match fault {
        SliceFault::Format(offset) => ReplayFault::Format(offset),
        SliceFault::ReadFault => ReplayFault::ReadFault,
    }
}
