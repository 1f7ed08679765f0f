//! What a query is answered.

use cx_csr::State;
use cx_hart::Ended;

/// What a query is answered.
#[derive(Clone, Copy, Debug, PartialEq, Eq)]
pub enum Answer {
    /// The state of the hart before the step.
    State(State),
    /// A step, and how it ended.
    Step(u64, Ended),
    /// A transfer of a device that comes before this step.
    Dma(u64),
    /// No step and no transfer did what is asked.
    Nothing,
}
