//! Reading and writing of control and status registers by their numbers.

ghost use Rattle.std.specs.Prelude.{◌≡◌, ℕ, ◌||◌, true, false, if◌then◌else◌, is_err, None};
ghost use Rattle.cx_csr.specs.declared.state.State.{State};
ghost use Rattle.cx_csr.specs.Access.{csr_read, is_illegal, is_above, is_read_only, is_trapped, is_user_counter};
ghost use Rattle.cx_csr.specs.Access.{is_closed, is_closed_to_user, modify_base, written_at};
ghost use Rattle.cx_csr.specs.Keeps.{Keeps};
ghost use Rattle.cx_csr.specs.Table.{register_at};
ghost use Rattle.cx_csr.specs.Values.{csr_written, read_as, status_written};

use crate::bits::{high_half, is_bit_set, joined, low_half, replace_bits};
use crate::causes::DELEGABLE_EXCEPTIONS;
use crate::fields::{COUNTEREN_FIELDS, EPC_FIELDS, MISA, TVEC_FIELDS};
use crate::interrupts::{ALL_INTERRUPTS, SEI, SSI, SUPERVISOR_INTERRUPTS};
use crate::modes::{MACHINE, SUPERVISOR, USER};
use crate::numbers::{
    CSR_CYCLE, CSR_CYCLEH, CSR_HPMCOUNTER31, CSR_HPMCOUNTER31H, CSR_MIP, CSR_SATP,
};
use crate::register::Register;
use crate::state::{CsrFile, State};
use crate::status::{
    MPP_FIELD, MPP_RESERVED, MSTATUS_FIELDS, MSTATUS_FIELDS_BUT_MPP, SSTATUS_FIELDS, TVM,
};

/// What a read of a register answers.
#[derive(Clone, Copy, PartialEq, Eq, Debug)]
pub enum Csr {
    /// The value that the register reads as.
    Value(u32),
    /// A half of the time is asked, which the outside answers.
    Time {
        /// Whether it is the high half.
        high: bool,
    },
    /// The read is illegal.
    Illegal,
}

/// A write, or a return from a trap, is illegal.
#[derive(Clone, Copy, PartialEq, Eq, Debug)]
pub struct Illegal;

/// Whether an access to the register of this number is illegal, be it one that writes or one that reads alone.
#[tactic(auto, unfolding(crate::specs::Access::is_illegal))]
pub fn is_illegal(state: &State, number: u16, writes: bool) -> bool
    ensures { result ≡ is_illegal writes state.now number }
{
    accessed(state, number, writes).is_none()
}

/// Reads the register of this number: its value, that the time is asked, or that the read is illegal, which it is for
/// each reason but that the register is read only.
#[tactic(auto, unfolding(crate::specs::Access::csr_read, crate::specs::Access::is_illegal))]
pub fn read(state: &State, number: u16) -> Csr
    ensures { result ≡ csr_read state.now number }
{
    match accessed(state, number, false) {
        Some(register) => value_of(state, register),
        None => Csr::Illegal,
    }
}

/// Writes the register of this number, which keeps the bits that it has. An illegal write changes nothing, and no write
/// changes anything but the control registers.
#[tactic(auto, unfolding(crate::specs::Access::is_illegal))]
pub fn write(state: &mut State, number: u16, value: u32) -> Result<(), Illegal>
    ensures illegal { is_err result ≡ is_illegal true state.old number }
    ensures after { state.new ≡ (if is_err result then state.old else written_at (register_at number) value state.old) }
    ensures keeps { (pages : ℕ) → Keeps pages state.old → Keeps pages state.new }
    ensures reservation { state.new.reservation ≡ state.old.reservation }
{
    let Some(register) = accessed(state, number, true) else {
        return Err(Illegal);
    };
    put(&mut state.csr, register, value);
    Ok(())
}

/// The value that an instruction sets or clears bits in, where the register of this number reads as `value`. It is that
/// value, but bit 9 of `mip` is the software bit alone: a line that is up is no bit that software wrote.
pub fn base_to_modify(state: &State, number: u16, value: u32) -> u32
    ensures { result ≡ modify_base state.now number value }
{
    if number != CSR_MIP {
        return value;
    }
    replace_bits(value, 1 << SEI, state.csr.mip)
}

/// The register of this number, where such an access to it is legal.
#[tactic(auto, unfolding(crate::specs::Access::is_illegal))]
fn accessed(state: &State, number: u16, writes: bool) -> Option<Register>
    ensures { result ≡ (if is_illegal writes state.now number then None else register_at number) }
{
    let register = Register::at(number)?;
    if writes && is_read_only(number) || is_barred(state, number) {
        return None;
    }
    Some(register)
}

fn is_read_only(number: u16) -> bool
    ensures { result ≡ is_read_only number }
{
    (number >> 10) & 3 == 3
}

/// Whether an access to a register that is there is illegal, be it a read or a write.
fn is_barred(state: &State, number: u16) -> bool
    ensures { result ≡ (is_above state.now number || is_trapped state.now number || is_closed state.now number
        || is_closed_to_user state.now number) }
{
    is_above_mode(state, number)
        || number == CSR_SATP && state.mode == SUPERVISOR && is_bit_set(state.csr.mstatus, TVM)
        || is_user_counter(number) && is_counter_closed(state, number)
}

fn is_above_mode(state: &State, number: u16) -> bool
    ensures { result ≡ is_above state.now number }
{
    (state.mode as u16) < (number >> 8) & 3
}

fn is_user_counter(number: u16) -> bool
    ensures { result ≡ is_user_counter number }
{
    matches!(number, CSR_CYCLE..=CSR_HPMCOUNTER31 | CSR_CYCLEH..=CSR_HPMCOUNTER31H)
}

/// Whether a counter of this number may not be read in the mode that stands.
fn is_counter_closed(state: &State, number: u16) -> bool
    requires { is_user_counter number ≡ true }
    ensures { result ≡ (is_closed state.now number || is_closed_to_user state.now number) }
{
    let bit = (number & 31) as u32;
    state.mode < MACHINE && !is_bit_set(state.csr.mcounteren, bit)
        || state.mode == USER && !is_bit_set(state.csr.scounteren, bit)
}

/// What the register reads as.
fn value_of(state: &State, register: Register) -> Csr
    ensures { result ≡ read_as register state.now }
{
    let csr = &state.csr;
    Csr::Value(match register {
        Register::Sstatus => csr.mstatus & SSTATUS_FIELDS,
        Register::Sie => csr.mie & csr.mideleg,
        Register::Stvec => csr.stvec,
        Register::Scounteren => csr.scounteren,
        Register::Sscratch => csr.sscratch,
        Register::Sepc => csr.sepc,
        Register::Scause => csr.scause,
        Register::Stval => csr.stval,
        Register::Sip => (csr.mip | state.lines.0) & csr.mideleg,
        Register::Satp => csr.satp,
        Register::Mstatus => csr.mstatus,
        Register::Misa => MISA,
        Register::Medeleg => csr.medeleg,
        Register::Mideleg => csr.mideleg,
        Register::Mie => csr.mie,
        Register::Mtvec => csr.mtvec,
        Register::Mcounteren => csr.mcounteren,
        Register::Mscratch => csr.mscratch,
        Register::Mepc => csr.mepc,
        Register::Mcause => csr.mcause,
        Register::Mtval => csr.mtval,
        Register::Mip => csr.mip | state.lines.0,
        Register::Mcycle | Register::Cycle => low_half(csr.mcycle),
        Register::Mcycleh | Register::Cycleh => high_half(csr.mcycle),
        Register::Minstret | Register::Instret => low_half(csr.minstret),
        Register::Minstreth | Register::Instreth => high_half(csr.minstret),
        Register::Time => return Csr::Time { high: false },
        Register::Timeh => return Csr::Time { high: true },
        Register::NoEffect => 0,
    })
}

/// Writes the register: the bits that it has are taken from the value.
fn put(csr: &mut CsrFile, register: Register, value: u32)
    ensures { csr.new ≡ csr_written register value csr.old }
{
    match register {
        Register::Sstatus => csr.mstatus = replace_bits(csr.mstatus, SSTATUS_FIELDS, value),
        Register::Sie => csr.mie = replace_bits(csr.mie, csr.mideleg, value),
        Register::Stvec => csr.stvec = value & TVEC_FIELDS,
        Register::Scounteren => csr.scounteren = value & COUNTEREN_FIELDS,
        Register::Sscratch => csr.sscratch = value,
        Register::Sepc => csr.sepc = value & EPC_FIELDS,
        Register::Scause => csr.scause = value,
        Register::Stval => csr.stval = value,
        Register::Sip => csr.mip = replace_bits(csr.mip, csr.mideleg & 1 << SSI, value),
        Register::Satp => csr.satp = value,
        Register::Mstatus => csr.mstatus = status_after(csr.mstatus, value),
        Register::Medeleg => csr.medeleg = value & DELEGABLE_EXCEPTIONS,
        Register::Mideleg => csr.mideleg = value & SUPERVISOR_INTERRUPTS,
        Register::Mie => csr.mie = value & ALL_INTERRUPTS,
        Register::Mtvec => csr.mtvec = value & TVEC_FIELDS,
        Register::Mcounteren => csr.mcounteren = value & COUNTEREN_FIELDS,
        Register::Mscratch => csr.mscratch = value,
        Register::Mepc => csr.mepc = value & EPC_FIELDS,
        Register::Mcause => csr.mcause = value,
        Register::Mtval => csr.mtval = value,
        Register::Mip => csr.mip = value & SUPERVISOR_INTERRUPTS,
        Register::Mcycle => csr.mcycle = joined(value, high_half(csr.mcycle)),
        Register::Mcycleh => csr.mcycle = joined(low_half(csr.mcycle), value),
        Register::Minstret => csr.minstret = joined(value, high_half(csr.minstret)),
        Register::Minstreth => csr.minstret = joined(low_half(csr.minstret), value),
        Register::Misa | Register::NoEffect => {}
        Register::Cycle | Register::Cycleh => {}
        Register::Time | Register::Timeh => {}
        Register::Instret | Register::Instreth => {}
    }
}

/// `mstatus` after a write: an MPP of 2, which is no mode, keeps the old one.
fn status_after(old: u32, value: u32) -> u32
    ensures { result ≡ status_written value old }
{
    if value & MPP_FIELD == MPP_RESERVED {
        return replace_bits(old, MSTATUS_FIELDS_BUT_MPP, value);
    }
    value & MSTATUS_FIELDS
}
