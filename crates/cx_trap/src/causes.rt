//! The causes of traps.

ghost use Rattle.std.specs.Prelude.{◌≡◌};
ghost use Rattle.cx_trap.specs.Causes.{cause_number, is_cause, is_interrupt};

use cx_csr::causes::{
    CALL_FROM_MACHINE, CALL_FROM_SUPERVISOR, INSTRUCTION_ADDRESS_MISALIGNED, INTERRUPT_BIT,
    LOAD_PAGE_FAULT, STORE_PAGE_FAULT,
};
use cx_csr::interrupts::{MEI, MSI, MTI, SEI, SSI, STI};

/// Whether this is a cause that `enter` takes: an exception of `cx_csr::causes`, or `INTERRUPT_BIT` and an interrupt of
/// `cx_csr::interrupts`.
pub fn is_trap_cause(cause: u32) -> bool
    ensures { result ≡ is_cause cause }
{
    if is_interrupt(cause) {
        return matches!(cause_number(cause), SSI | MSI | STI | MTI | SEI | MEI);
    }
    matches!(cause, INSTRUCTION_ADDRESS_MISALIGNED..=CALL_FROM_SUPERVISOR)
        || matches!(
            cause,
            CALL_FROM_MACHINE..=LOAD_PAGE_FAULT | STORE_PAGE_FAULT
        )
}

/// Whether the cause is one of an interrupt.
pub(crate) fn is_interrupt(cause: u32) -> bool
    ensures { result ≡ is_interrupt cause }
{
    cause >= INTERRUPT_BIT
}

/// The number of the exception or of the interrupt.
pub(crate) fn cause_number(cause: u32) -> u32
    ensures { result ≡ cause_number cause }
{
    cause & !INTERRUPT_BIT
}
