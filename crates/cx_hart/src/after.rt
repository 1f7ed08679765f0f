//! What a turn changes, once it is sure that the step is carried out.

ghost use Rattle.std.specs.Prelude.{◌≡◌, ◌+◌, ◌<◌, ◌≤◌, IfSome, IsTrue, length, take};
ghost use Rattle.cx_map.specs.Map.{ram_index};
ghost use Rattle.cx_ram.specs.LittleEndian.{written};
ghost use Rattle.cx_trap.specs.Causes.{is_cause};
ghost use Rattle.cx_hart.specs.After.{after_control, after_retired, after_trap, memory_after, memory_after_touch};
ghost use Rattle.cx_hart.specs.Counters.{with_cycle, with_retired, writes_one_of};
ghost use Rattle.cx_hart.specs.Outcomes.{passed_to};
ghost use Rattle.cx_hart.specs.Stretches.{IsLegal, IsStretch, IsWritable};

use crate::findings::{Control, Retired};
use crate::record::Touch;
use cx_csr::numbers::{CSR_MCYCLE, CSR_MCYCLEH, CSR_MINSTRET, CSR_MINSTRETH};
use cx_csr::{State, write};
use cx_exec::put;
use cx_map::RAM_START;
use cx_ram::Ram;
use cx_trap::{enter, mret, sret};

/// Takes a trap of this cause.
#[cold]
#[tactic(auto, unfolding(crate::specs::After::after_trap))]
pub(crate) fn take_trap(state: &mut State, cause: u32, tval: u32)
    requires { IsTrue (is_cause cause) }
    ensures { state.new ≡ after_trap cause tval state.old }
{
    enter(state, cause, tval);
    state.csr.mcycle = state.csr.mcycle.wrapping_add(1);
}

/// Writes a control register, or returns from a trap.
#[inline(never)]
fn write_or_return(state: &mut State, control: Control)
    requires { IsLegal state.old control }
    ensures { state.new ≡ after_control control state.old }
{
    match control {
        Control::Untouched => {}
        Control::Write { number, value } => {
            let _ = write(state, number, value);
        }
        Control::Mret => {
            let _ = mret(state);
        }
        Control::Sret => {
            let _ = sret(state);
        }
    }
}

/// Does to control registers what an instruction does.
#[inline]
fn change_control(state: &mut State, control: Control)
    requires { IsLegal state.old control }
    ensures { state.new ≡ after_control control state.old }
{
    match control {
        Control::Untouched => {}
        _ => write_or_return(state, control),
    }
}

/// Whether one of the two registers of these numbers is written.
#[inline]
fn writes_one_of(low: u16, high: u16, control: Control) -> bool
    ensures { result ≡ writes_one_of low high control }
{
    match control {
        Control::Write { number, .. } => number == low || number == high,
        _ => false,
    }
}

/// Counts the step and the instruction, where it doesn't write the counter itself.
#[inline]
fn count(state: &mut State, control: Control)
    ensures { state.new ≡ with_retired control (with_cycle control state.old) }
{
    if !writes_one_of(CSR_MCYCLE, CSR_MCYCLEH, control) {
        state.csr.mcycle = state.csr.mcycle.wrapping_add(1);
    }
    if !writes_one_of(CSR_MINSTRET, CSR_MINSTRETH, control) {
        state.csr.minstret = state.csr.minstret.wrapping_add(1);
    }
}

/// Leaves the state that an instruction retires with.
#[inline]
#[tactic(auto, unfolding(crate::specs::After::after_retired))]
pub(crate) fn retire(state: &mut State, retired: &Retired)
    requires register { retired.now.effect.rd < 32 }
    requires control { IsLegal state.old retired.now.control }
    ensures { state.new ≡ after_retired retired.now state.old }
{
    let Retired {
        effect,
        control,
        reservation,
        ..
    } = *retired;
    change_control(state, control);
    state.pc = effect.pc;
    put(&mut state.x, effect.rd, effect.value);
    state.reservation = reservation;
    count(state, control);
}

/// Leaves the state behind an instruction that changes pc and a register alone.
#[inline(always)]
#[tactic(auto, unfolding(crate::specs::After::after_retired))]
pub(crate) fn pass_to(state: &mut State, pc: u32, rd: u8, value: u32)
    requires { rd < 32 }
    ensures { state.new ≡ passed_to pc rd value state.old }
{
    state.pc = pc;
    put(&mut state.x, rd, value);
    state.csr.mcycle = state.csr.mcycle.wrapping_add(1);
    state.csr.minstret = state.csr.minstret.wrapping_add(1);
}

/// Writes the bytes of a touch to their place in RAM.
#[inline(never)]
#[tactic(auto, using(crate::proofs::TouchBytes::stored_touch))]
fn store(ram: &mut Ram, touch: Touch)
    requires inside { IsStretch (length ram.old.memory) touch.pa touch.len }
    requires room { 1 ≤ ram.old.spare }
    ensures memory { ram.new.memory ≡ written ram.old.memory (ram_index touch.pa) (take touch.len touch.bytes) }
    ensures size { length ram.new.memory ≡ length ram.old.memory }
    ensures saved { ram.new.saved ≡ ram.old.saved }
    ensures spare { ram.old.spare ≤ ram.new.spare + 1 }
{
    ram.store(touch.pa, touch.len, u32::from_le_bytes(touch.bytes));
}

/// Writes to RAM what an instruction writes there.
#[inline]
#[tactic(auto, unfolding(crate::specs::After::memory_after_touch))]
fn write_touch(ram: &mut Ram, touch: Option<Touch>)
    requires writable { IfSome touch (IsWritable (length ram.old.memory)) }
    requires room { 1 ≤ ram.old.spare }
    ensures memory { ram.new.memory ≡ memory_after_touch touch ram.old.memory }
    ensures size { length ram.new.memory ≡ length ram.old.memory }
    ensures saved { ram.new.saved ≡ ram.old.saved }
    ensures spare { ram.old.spare ≤ ram.new.spare + 1 }
{
    if let Some(touch) = touch {
        if touch.pa >= RAM_START {
            store(ram, touch);
        }
    }
}

/// Writes to RAM what an instruction writes there in both its parts.
#[inline]
pub(crate) fn write_both(ram: &mut Ram, retired: &Retired)
    requires write { IfSome retired.now.write (IsWritable (length ram.old.memory)) }
    requires write_more { IfSome retired.now.write_more (IsWritable (length ram.old.memory)) }
    requires room { 2 ≤ ram.old.spare }
    ensures memory { ram.new.memory ≡ memory_after retired.now ram.old.memory }
    ensures size { length ram.new.memory ≡ length ram.old.memory }
    ensures saved { ram.new.saved ≡ ram.old.saved }
    ensures spare { ram.old.spare ≤ ram.new.spare + 2 }
{
    write_touch(ram, retired.write);
    write_touch(ram, retired.write_more);
}
