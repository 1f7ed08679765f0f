//! Instructions that access memory.

ghost use Rattle.std.specs.Prelude.{◌≡◌, ◌+◌, ◌*◌, ◌^◌, ◌<◌, ◌≤◌, ◌⊎◌, length};
ghost use Rattle.cx_decode.specs.WellFormed.{WellFormed};
ghost use Rattle.cx_hart.specs.Accesses.{access_done, accessed, bytes_of, first_place, first_write, inner_reading};
ghost use Rattle.cx_hart.specs.Accesses.{joined, outcome_at, outer_reading, reading_of, reservation_after};
ghost use Rattle.cx_hart.specs.Accesses.{second_write};
ghost use Rattle.cx_hart.specs.Ends.{answered};
ghost use Rattle.cx_hart.specs.Looks.{Learns};
ghost use Rattle.cx_hart.specs.Stretches.{IsSized, IsSizedRest, IsTarget};

use crate::answer::Asked;
use crate::effect::{instruction_effect, retired_with};
use crate::findings::{Part, Reading, Retired, Stop, Target};
use crate::here::Here;
use crate::reach::reached;
use crate::record::Touch;
use crate::tells::Tells;
use crate::touch::{part_value, touch};
use cx_csr::State;
use cx_decode::Ins;
use cx_exec::{Access, Effect, Got, Need};

/// An answer with no value of the outside in it.
#[inline]
pub(crate) fn inner_reading(got: Got) -> Reading
    ensures { result ≡ inner_reading got }
{
    Reading { got, value: None }
}

/// An answer that is a value of the outside.
#[inline]
pub(crate) fn outer_reading(got: Got, value: u32) -> Reading
    ensures { result ≡ outer_reading got value }
{
    Reading {
        got,
        value: Some(value),
    }
}

/// A value of the outside, where it is due.
#[inline]
pub(crate) fn answered(given: Option<u32>, what: Asked) -> Result<u32, Stop>
    ensures { result ≡ answered given what }
{
    match given {
        Some(value) => Ok(value),
        None => Err(Stop::Asks(what)),
    }
}

/// The bytes of a split access, those of the second part above those of the first.
#[tactic(auto, using(crate::proofs::SplitValues::small_value))]
fn joined(first: Part, more: Part, low: u32, high: u32) -> u32
    requires some { 1 ≤ first.len }
    requires rest { IsSizedRest first more }
    requires low { low < 2 ^ (8 * first.len) }
    requires high { high < 2 ^ (8 * more.len) }
    ensures { result ≡ joined first low high }
{
    match first.len {
        1 => low + high * 0x100,
        2 => low + high * 0x1_0000,
        _ => low + high * 0x100_0000,
    }
}

/// What a load, an LR or an AMO reads.
#[inline(never)]
#[tactic(auto, unfolding(crate::specs::Accesses::bytes_of))]
fn bytes_of<R: Tells>(here: &Here, target: Target, rec: &mut R) -> Result<Reading, Stop>
    requires { IsTarget (length here.now.memory) target }
    ensures reading { result ≡ (bytes_of here.now target).end }
    ensures told { Learns (R.knows rec.old) (R.knows rec.new) (bytes_of here.now target).looks }
{
    match target {
        Target::Memory { first, more: None } => {
            let low = part_value(here.ram, first);
            rec.first(touch(first, low));
            Ok(inner_reading(Got::Bytes(low)))
        }
        Target::Memory {
            first,
            more: Some(more),
        } => {
            let low = part_value(here.ram, first);
            rec.first(touch(first, low));
            let high = part_value(here.ram, more);
            rec.rest(touch(more, high));
            Ok(inner_reading(Got::Bytes(joined(first, more, low, high))))
        }
        Target::Device(part) => {
            let value = answered(here.given, Asked::Device(part.pa))?;
            rec.first(touch(part, value));
            Ok(outer_reading(Got::Bytes(value), value))
        }
    }
}

/// The place of the first byte.
#[inline]
fn first_place(target: Target) -> u32
    ensures { result ≡ first_place target }
{
    match target {
        Target::Memory { first, .. } => first.pa,
        Target::Device(part) => part.pa,
    }
}

/// What the access gives to its instruction.
#[inline]
#[tactic(auto, unfolding(crate::specs::Accesses::reading_of))]
fn reading_of<R: Tells>(
    here: &Here,
    access: Access,
    target: Target,
    rec: &mut R,
) -> Result<Reading, Stop>
    requires { IsTarget (length here.now.memory) target }
    ensures reading { result ≡ (reading_of here.now access target).end }
    ensures told { Learns (R.knows rec.old) (R.knows rec.new) (reading_of here.now access target).looks }
{
    match access {
        Access::Load | Access::Reserve | Access::Amo => bytes_of(here, target, rec),
        Access::Store => Ok(inner_reading(Got::Nothing)),
        Access::Conditional => {
            let outcome = outcome_at(here.state.reservation, first_place(target));
            Ok(inner_reading(Got::Outcome(outcome)))
        }
    }
}

/// 0 where the reservation is that of the place, else 1.
fn outcome_at(reservation: Option<u32>, place: u32) -> u32
    ensures { result ≡ outcome_at reservation place }
{
    match reservation {
        Some(word) if word == place => 0,
        _ => 1,
    }
}

/// The reservation after an access.
#[inline]
fn reservation_after(access: Access, target: Target, old: Option<u32>) -> Option<u32>
    ensures { result ≡ reservation_after access target old }
{
    match access {
        Access::Reserve => Some(first_place(target)),
        Access::Conditional => None,
        _ => old,
    }
}

/// What is written to the first part.
#[inline(never)]
fn first_write(target: Target, value: u32) -> Touch
    requires { IsSized target }
    ensures { result ≡ first_write target value }
{
    match target {
        Target::Memory { first, .. } => touch(first, value),
        Target::Device(part) => touch(part, value),
    }
}

/// What is written to the second part, where there is one.
#[inline(never)]
fn second_write(target: Target, value: u32) -> Option<Touch>
    requires { IsSized target }
    ensures { result ≡ second_write target value }
{
    match target {
        Target::Memory {
            first,
            more: Some(more),
        } => Some(touch(more, value >> (8 * first.len as u32))),
        _ => None,
    }
}

/// What an instruction retires with that accesses memory.
#[inline]
fn access_done(
    state: &State,
    access: Access,
    target: Target,
    reading: Reading,
    effect: Effect,
) -> Retired
    requires { IsSized target }
    ensures { result ≡ access_done state.now access target reading effect }
{
    let (write, write_more) = match effect.write {
        Some(value) => (
            Some(first_write(target, value)),
            second_write(target, value),
        ),
        None => (None, None),
    };
    Retired {
        reservation: reservation_after(access, target, state.reservation),
        write,
        write_more,
        value: reading.value,
        result: match reading.got {
            Got::Outcome(outcome) => Some(outcome),
            _ => None,
        },
        ..retired_with(state, effect)
    }
}

/// An instruction that accesses memory.
#[inline]
#[tactic(auto, unfolding(crate::specs::Accesses::accessed), using(crate::proofs::Found::reached_target, crate::proofs::Found::reached_sized, crate::proofs::Telling::told_append))]
pub(crate) fn accessed<R: Tells>(
    here: &Here,
    ins: &Ins,
    need: Need,
    rec: &mut R,
) -> Result<Retired, Stop>
    requires formed { WellFormed ins.now }
    requires length { (need.len ≡ 1) ⊎ (need.len ≡ 2) ⊎ (need.len ≡ 4) }
    requires room { 4 ≤ R.room rec.old }
    ensures retired { result ≡ (accessed here.now ins.now need).end }
    ensures told { Learns (R.knows rec.old) (R.knows rec.new) (accessed here.now ins.now need).looks }
{
    let target = reached(here, need, rec)?;
    let reading = reading_of(here, need.access, target, rec)?;
    let effect = instruction_effect(here.state, ins, reading.got)?;
    Ok(access_done(here.state, need.access, target, reading, effect))
}
