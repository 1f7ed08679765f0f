//! What is handed to a step, and what it answers.

use crate::record::StepRec;
use cx_csr::Lines;

/// What the outside hands to one step, but for the bytes of devices, which go to RAM before it.
#[derive(Clone, Copy, Debug, PartialEq, Eq)]
pub struct Due {
    /// The lines from this step on; None leaves them as they are.
    pub lines: Option<Lines>,
    /// The value for the word of a device or the half of the time that the step asks for.
    pub value: Option<u32>,
}

/// A value that a step asks the outside for.
#[derive(Clone, Copy, Debug, PartialEq, Eq)]
pub enum Asked {
    /// The word of the devices at this place.
    Device(u32),
    /// The low half of the time.
    TimeLow,
    /// The high half of the time.
    TimeHigh,
}

/// What a step answers.
#[derive(Clone, Copy, Debug, PartialEq, Eq)]
pub enum StepAnswer {
    /// The step was carried out.
    Stepped(StepRec),
    /// It asks for this value and none is due; nothing changed.
    NeedsValue(Asked),
    /// A value is due and it asks for none; nothing changed.
    ValueLeft,
}

/// How a step went that is told in a record of the caller's.
#[derive(Clone, Copy, Debug, PartialEq, Eq)]
pub enum Went {
    /// The step was carried out, and the record tells it.
    Stepped,
    /// It asks for this value and none is due; nothing changed but the record, which tells nothing then.
    NeedsValue(Asked),
    /// A value is due and it asks for none; nothing changed but the record, which tells nothing then.
    ValueLeft,
}
