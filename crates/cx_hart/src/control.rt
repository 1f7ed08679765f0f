//! Control register instructions.

ghost use Rattle.std.specs.Prelude.{◌≡◌, ◌<◌, ◌^◌};
ghost use Rattle.cx_decode.specs.WellFormed.{WellFormed};
ghost use Rattle.cx_hart.specs.Control.{control_carried_out, control_done, control_of, controlled, counter_result};
ghost use Rattle.cx_hart.specs.Control.{old_of, old_value};

use crate::access::{answered, inner_reading, outer_reading};
use crate::answer::Asked;
use crate::effect::{instruction_effect, retired_with};
use crate::findings::{Control, Reading, Retired, Stop};
use crate::here::Here;
use crate::legal::illegal;
use cx_csr::numbers::{CSR_CYCLE, CSR_CYCLEH, CSR_INSTRET, CSR_INSTRETH, CSR_TIME, CSR_TIMEH};
use cx_csr::{Csr, State, base_to_modify, is_illegal, read};
use cx_decode::Ins;
use cx_exec::{Effect, Got, control_operand, control_value, reads_control, writes_control};

/// The old value of a register that is read.
fn old_of(given: Option<u32>, word: u32, seen: Csr) -> Result<Reading, Stop>
    ensures { result ≡ old_of given word seen }
{
    match seen {
        Csr::Value(value) => Ok(inner_reading(Got::Old(value))),
        Csr::Time { high } => {
            let what = if high {
                Asked::TimeHigh
            } else {
                Asked::TimeLow
            };
            let value = answered(given, what)?;
            Ok(outer_reading(Got::Old(value), value))
        }
        Csr::Illegal => Err(illegal(word)),
    }
}

/// The old value, 0 where it isn't read.
#[tactic(auto, unfolding(crate::specs::Control::old_value))]
fn old_value(here: &Here, word: u32, ins: &Ins) -> Result<Reading, Stop>
    requires { ins.now.imm < 2 ^ 12 }
    ensures { result ≡ old_value here.now word ins.now }
{
    if reads_control(ins) {
        return old_of(here.given, word, read(here.state, ins.imm as u16));
    }
    Ok(inner_reading(Got::Old(0)))
}

/// What the instruction does to the register, from its old value.
fn control_of(state: &State, ins: &Ins, old: u32) -> Control
    requires formed { WellFormed ins.now }
    requires number { ins.now.imm < 2 ^ 12 }
    ensures { result ≡ control_of state.now ins.now old }
{
    if !writes_control(ins) {
        return Control::Untouched;
    }
    let number = ins.imm as u16;
    let base = base_to_modify(state, number, old);
    let operand = control_operand(ins, &state.x);
    Control::Write {
        number,
        value: control_value(ins.op, base, operand),
    }
}

/// What a counter gave.
fn counter_result(ins: &Ins, old: u32) -> Option<u32>
    requires { ins.now.imm < 2 ^ 12 }
    ensures { result ≡ counter_result ins.now old }
{
    match ins.imm as u16 {
        CSR_CYCLE | CSR_TIME | CSR_INSTRET | CSR_CYCLEH | CSR_TIMEH | CSR_INSTRETH => Some(old),
        _ => None,
    }
}

/// What a control register instruction retires with, once it has read.
#[inline]
fn control_carried_out(state: &State, ins: &Ins, reading: Reading) -> Result<Retired, Stop>
    requires formed { WellFormed ins.now }
    requires number { ins.now.imm < 2 ^ 12 }
    ensures { result ≡ control_carried_out state.now ins.now reading }
{
    let effect = instruction_effect(state, ins, reading.got)?;
    let old = reading.got.number();
    Ok(Retired {
        control: control_of(state, ins, old),
        value: reading.value,
        result: counter_result(ins, old),
        ..retired_with(state, effect)
    })
}

/// A control register instruction.
#[inline(never)]
#[tactic(auto, unfolding(crate::specs::Control::controlled))]
pub(crate) fn controlled(here: &Here, word: u32, ins: &Ins) -> Result<Retired, Stop>
    requires formed { WellFormed ins.now }
    requires number { ins.now.imm < 2 ^ 12 }
    ensures { result ≡ controlled here.now word ins.now }
{
    if is_illegal(here.state, ins.imm as u16, writes_control(ins)) {
        return Err(illegal(word));
    }
    let reading = old_value(here, word, ins)?;
    control_carried_out(here.state, ins, reading)
}
