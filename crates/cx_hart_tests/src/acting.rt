//! Machines that are filled and take steps.

use cx_hart::{Due, Machine, StepAnswer, Steps};
use std::process::Abort;
use std::sync::ledger::Ledger;

/// Writes the bytes of a device.
pub fn transfer(rt: &impl Abort, machine: &mut Machine, place: u32, bytes: &[u8]) {
    assert!(rt; machine.reserve(2).is_ok());
    assert!(rt; !bytes.is_empty() && bytes.len() <= 4096);
    assert!(rt; machine.ram().contains(place, bytes.len() as u32));
    machine.dma(place, bytes);
}

/// Takes a step to which these lines and this value come.
pub fn take_step<L: Ledger>(
    rt: &impl Abort,
    machine: &mut Machine,
    due: Due,
    steps: &mut Steps<L>,
) -> StepAnswer {
    assert!(rt; machine.reserve(2).is_ok());
    if let Some(lines) = due.lines {
        assert!(rt; lines.0 & 0xa88 == lines.0);
    }
    machine.step(due, steps)
}
