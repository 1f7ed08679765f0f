//! Entry into a trap.

ghost use Rattle.std.specs.Prelude.{◌≡◌, ℕ, ◌<◌, ◌%◌, ◌^◌, None, IsTrue};
ghost use Rattle.cx_csr.specs.Keeps.{Keeps};
ghost use Rattle.cx_trap.specs.Causes.{is_cause};
ghost use Rattle.cx_trap.specs.Enter.{entered, into_machine, into_supervisor, is_delegated, delivered};
ghost use Rattle.cx_trap.specs.Enter.{status_into_machine, status_into_supervisor, vector};

use crate::causes::{cause_number, is_interrupt};
use cx_csr::fields::{TVEC_BASE, VECTORED};
use cx_csr::modes::{MACHINE, SUPERVISOR};
use cx_csr::status::{MACHINE_TRAP_FIELDS, MIE, MPIE, MPP, SIE, SPIE, SPP, SUPERVISOR_TRAP_FIELDS};
use cx_csr::{State, is_bit_set, replace_bits};

/// Takes a trap of this cause, which has `INTERRUPT_BIT` where it is an interrupt, with the address or the word that it
/// is taken for: pc and the cause are kept, interrupts are masked, and the hart goes on at the trap vector of machine
/// mode, or of supervisor mode where the cause is delegated. The reservation is dropped.
#[tactic(auto, unfolding(crate::specs::Enter::entered))]
pub fn enter(state: &mut State, cause: u32, tval: u32)
    requires { IsTrue (is_cause cause) }
    ensures after { state.new ≡ entered cause tval state.old }
    ensures keeps { (pages : ℕ) → Keeps pages state.old → Keeps pages state.new }
    ensures reservation { state.new.reservation ≡ None }
{
    take_trap(state, cause, tval);
    state.reservation = None;
}

fn take_trap(state: &mut State, cause: u32, tval: u32)
    requires { IsTrue (is_cause cause) }
    ensures { state.new ≡ delivered cause tval state.old }
{
    if goes_to_supervisor(state, cause) {
        enter_supervisor(state, cause, tval);
    } else {
        enter_machine(state, cause, tval);
    }
}

fn goes_to_supervisor(state: &State, cause: u32) -> bool
    requires { IsTrue (is_cause cause) }
    ensures { result ≡ is_delegated state.now cause }
{
    let number = cause_number(cause);
    if state.mode >= MACHINE {
        false
    } else if is_interrupt(cause) {
        is_bit_set(state.csr.mideleg, number)
    } else {
        is_bit_set(state.csr.medeleg, number)
    }
}

fn enter_machine(state: &mut State, cause: u32, tval: u32)
    requires { IsTrue (is_cause cause) }
    ensures { state.new ≡ into_machine cause tval state.old }
{
    state.csr.mstatus = masked_for_machine(state.csr.mstatus, state.mode);
    state.csr.mepc = state.pc;
    state.csr.mcause = cause;
    state.csr.mtval = tval;
    state.pc = address(state.csr.mtvec, cause);
    state.mode = MACHINE;
}

fn enter_supervisor(state: &mut State, cause: u32, tval: u32)
    requires { IsTrue (is_cause cause) }
    ensures { state.new ≡ into_supervisor cause tval state.old }
{
    state.csr.mstatus = masked_for_supervisor(state.csr.mstatus, state.mode);
    state.csr.sepc = state.pc;
    state.csr.scause = cause;
    state.csr.stval = tval;
    state.pc = address(state.csr.stvec, cause);
    state.mode = SUPERVISOR;
}

/// `mstatus` with MIE moved to MPIE and cleared, and this mode as MPP.
fn masked_for_machine(status: u32, mode: u8) -> u32
    ensures { result ≡ status_into_machine mode status }
{
    let fields = ((status >> MIE) & 1) * (1 << MPIE) + mode as u32 * (1 << MPP);
    replace_bits(status, MACHINE_TRAP_FIELDS, fields)
}

/// `mstatus` with SIE moved to SPIE and cleared, and this mode as SPP.
fn masked_for_supervisor(status: u32, mode: u8) -> u32
    ensures { result ≡ status_into_supervisor mode status }
{
    let fields = ((status >> SIE) & 1) * (1 << SPIE) + mode as u32 * (1 << SPP);
    replace_bits(status, SUPERVISOR_TRAP_FIELDS, fields)
}

/// Where a trap of this cause goes by this vector.
fn address(tvec: u32, cause: u32) -> u32
    requires { IsTrue (is_cause cause) }
    ensures { result ≡ vector tvec cause }
{
    let base = tvec & TVEC_BASE;
    if is_interrupt(cause) && is_bit_set(tvec, VECTORED) {
        return base.wrapping_add(4 * cause_number(cause));
    }
    base
}
