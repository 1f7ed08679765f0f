//! Return from a trap.

ghost use Rattle.std.specs.Prelude.{◌≡◌, ℕ, not, if◌then◌else◌, is_err};
ghost use Rattle.cx_csr.specs.Keeps.{Keeps};
ghost use Rattle.cx_trap.specs.Return.{after_mret, after_sret, can_mret, can_sret, status_out_of_machine};
ghost use Rattle.cx_trap.specs.Return.{status_out_of_supervisor};

use cx_csr::modes::{MACHINE, SUPERVISOR};
use cx_csr::status::{
    MACHINE_RETURN_FIELDS, MACHINE_TRAP_FIELDS, MIE, MPIE, SIE, SPIE, SPP,
    SUPERVISOR_RETURN_FIELDS, TSR,
};
use cx_csr::{Illegal, State, is_bit_set, previous_of_machine, replace_bits};

/// Whether MRET is legal: in machine mode alone.
pub fn can_mret(state: &State) -> bool
    ensures { result ≡ can_mret state.now }
{
    state.mode == MACHINE
}

/// Whether SRET is legal: in machine mode, and in supervisor mode where TSR is 0.
pub fn can_sret(state: &State) -> bool
    ensures { result ≡ can_sret state.now }
{
    state.mode == MACHINE || state.mode == SUPERVISOR && !is_bit_set(state.csr.mstatus, TSR)
}

/// Returns from a trap to machine mode, which is legal in machine mode alone: the hart goes on at `mepc` in the mode
/// before the trap, with interrupts enabled as they were. The reservation stays. A refusal changes nothing.
#[tactic(auto, unfolding(crate::specs::Return::after_mret))]
pub fn mret(state: &mut State) -> Result<(), Illegal>
    ensures illegal { is_err result ≡ not (can_mret state.old) }
    ensures after { state.new ≡ (if is_err result then state.old else after_mret state.old) }
    ensures keeps { (pages : ℕ) → Keeps pages state.old → Keeps pages state.new }
    ensures reservation { state.new.reservation ≡ state.old.reservation }
{
    if !can_mret(state) {
        return Err(Illegal);
    }
    leave_machine(state);
    Ok(())
}

/// Returns from a trap to supervisor mode, which is legal in machine mode, and in supervisor mode where TSR is 0: the
/// hart goes on at `sepc` in the mode before the trap, with interrupts enabled as they were. The reservation stays. A
/// refusal changes nothing.
#[tactic(auto, unfolding(crate::specs::Return::after_sret))]
pub fn sret(state: &mut State) -> Result<(), Illegal>
    ensures illegal { is_err result ≡ not (can_sret state.old) }
    ensures after { state.new ≡ (if is_err result then state.old else after_sret state.old) }
    ensures keeps { (pages : ℕ) → Keeps pages state.old → Keeps pages state.new }
    ensures reservation { state.new.reservation ≡ state.old.reservation }
{
    if !can_sret(state) {
        return Err(Illegal);
    }
    leave_supervisor(state);
    Ok(())
}

#[tactic(auto, unfolding(crate::specs::Return::after_mret))]
fn leave_machine(state: &mut State)
    ensures { state.new ≡ after_mret state.old }
{
    let status = state.csr.mstatus;
    state.pc = state.csr.mepc;
    state.mode = previous_of_machine(status);
    state.csr.mstatus = unmasked_for_machine(status);
}

#[tactic(auto, unfolding(crate::specs::Return::after_sret))]
fn leave_supervisor(state: &mut State)
    ensures { state.new ≡ after_sret state.old }
{
    let status = state.csr.mstatus;
    state.pc = state.csr.sepc;
    state.mode = ((status >> SPP) & 1) as u8;
    state.csr.mstatus = unmasked_for_supervisor(status);
}

/// `mstatus` with MPIE moved to MIE and set, MPP cleared, and MPRV cleared where the mode returned to isn't machine
/// mode.
fn unmasked_for_machine(status: u32) -> u32
    ensures { result ≡ status_out_of_machine status }
{
    let fields = ((status >> MPIE) & 1) * (1 << MIE) + (1 << MPIE);
    if previous_of_machine(status) == MACHINE {
        return replace_bits(status, MACHINE_TRAP_FIELDS, fields);
    }
    replace_bits(status, MACHINE_RETURN_FIELDS, fields)
}

/// `mstatus` with SPIE moved to SIE and set, and SPP and MPRV cleared.
fn unmasked_for_supervisor(status: u32) -> u32
    ensures { result ≡ status_out_of_supervisor status }
{
    let fields = ((status >> SPIE) & 1) * (1 << SIE) + (1 << SPIE);
    replace_bits(status, SUPERVISOR_RETURN_FIELDS, fields)
}
