//! The interrupt that is to be taken.

ghost use Rattle.std.specs.Prelude.{◌≡◌, ◌+◌, IsTrue, IfSome};
ghost use Rattle.cx_trap.specs.Causes.{is_cause};
ghost use Rattle.cx_trap.specs.Pending.{enabled_bits, first_of, pending_of, to_machine, to_supervisor};

use cx_csr::causes::INTERRUPT_BIT;
use cx_csr::interrupts::{MEI, MSI, MTI, SEI, SSI, STI};
use cx_csr::modes::{MACHINE, SUPERVISOR, USER};
use cx_csr::status::{MIE, SIE};
use cx_csr::{State, is_bit_set};

/// The number of the interrupt that is to be taken before the next instruction, where there is one: the first of those
/// to machine mode, else the first of those to supervisor mode.
#[tactic(auto, unfolding(crate::specs::Pending::pending_of))]
#[inline]
pub fn pending(state: &State) -> Option<u32>
    ensures value { result ≡ pending_of state.now }
    ensures cause { IfSome result (λ i. IsTrue (is_cause (i + INTERRUPT_BIT))) }
{
    let enabled = (state.csr.mip | state.lines.0) & state.csr.mie;
    if enabled == 0 {
        return None;
    }
    match first(machine_bits(state, enabled)) {
        Some(interrupt) => Some(interrupt),
        None => first(supervisor_bits(state, enabled)),
    }
}

/// Those of the enabled bits that may be taken to machine mode.
fn machine_bits(state: &State, enabled: u32) -> u32
    requires { enabled ≡ enabled_bits state.now }
    ensures { result ≡ to_machine state.now }
{
    if state.mode < MACHINE || is_bit_set(state.csr.mstatus, MIE) {
        return enabled & !state.csr.mideleg;
    }
    0
}

/// Those of the enabled bits that may be taken to supervisor mode.
fn supervisor_bits(state: &State, enabled: u32) -> u32
    requires { enabled ≡ enabled_bits state.now }
    ensures { result ≡ to_supervisor state.now }
{
    if state.mode == USER || state.mode == SUPERVISOR && is_bit_set(state.csr.mstatus, SIE) {
        return enabled & state.csr.mideleg;
    }
    0
}

/// The first interrupt among these bits, in the order of priority.
fn first(bits: u32) -> Option<u32>
    ensures { result ≡ first_of bits }
{
    if bits == 0 {
        None
    } else if is_bit_set(bits, MEI) {
        Some(MEI)
    } else if is_bit_set(bits, MSI) {
        Some(MSI)
    } else if is_bit_set(bits, MTI) {
        Some(MTI)
    } else if is_bit_set(bits, SEI) {
        Some(SEI)
    } else if is_bit_set(bits, SSI) {
        Some(SSI)
    } else if is_bit_set(bits, STI) {
        Some(STI)
    } else {
        None
    }
}
