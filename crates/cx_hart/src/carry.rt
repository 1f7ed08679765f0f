//! An instruction carried out, each kind of it to the end of the step.
//!
//! A step that gathers all that its instruction leaves behind, whatever kind it is of, before it changes anything,
//! moves more than it computes. So computations, plain loads and plain stores go to the end of the step by themselves,
//! and all else together, out of line. That took a step from 406 instructions of the processor to 249 in machine mode,
//! and from 506 to 361 in user mode (`cx_bench`, by callgrind, with what these kinds take of cx_exec inlined).

ghost use Rattle.std.specs.Prelude.{◌≡◌, ◌+◌, ◌%◌, ◌^◌, ◌<◌, ◌≤◌, ◌⊎◌, IsTrue, length, None, IfSome};
ghost use Rattle.cx_csr.specs.Keeps.{Keeps};
ghost use Rattle.cx_decode.specs.Groups.{group_of};
ghost use Rattle.cx_decode.specs.WellFormed.{WellFormed};
ghost use Rattle.cx_decode.specs.declared.group.Group.TheVariants as group;
ghost use Rattle.cx_machine.specs.Machine.{pages_of};
ghost use Rattle.cx_hart.specs.Outcomes.{EndsStep, HasStayed, here_of, machine, plain_address};
ghost use Rattle.cx_hart.specs.Turn.{executed, turn};

use crate::after::pass_to;
use crate::answer::{Asked, Went};
use crate::conclude::{asked_of, conclude, is_left, misaligned, stopped};
use crate::fetch::translated;
use crate::findings::{Going, Part};
use crate::here::Here;
use crate::tells::Tells;
use crate::touch::{part_value, touch};
use crate::turn::{begun, executed};
use cx_csr::State;
use cx_decode::{Decoder, Group, Ins};
use cx_exec::{Got, carry_out, loaded_value, register};
use cx_ram::Ram;
use cx_walk::{Kind, Place};

/// An instruction of any kind.
#[inline(never)]
#[tactic(auto, using(crate::proofs::Ends::asked_outcome, crate::proofs::Ends::left_outcome, crate::proofs::Ends::carried_outcome))]
fn carry_any<R: Tells>(
    split: bool,
    given: Option<u32>,
    ram: &mut Ram,
    state: &mut State,
    word: u32,
    ins: &Ins,
    rec: &mut R,
) -> Went
    requires keeps { Keeps (pages_of ram.old.memory) state.old }
    requires formed { WellFormed ins.now }
    requires room { 4 ≤ R.room rec.old }
    requires spare { 2 ≤ ram.old.spare }
    ensures ends { EndsStep (R.knows rec.old) (R.knows rec.new) (here_of split given ram.old.memory state.old)
        (executed (here_of split given ram.old.memory state.old) word ins.now)
        result (machine state.new ram.new.memory) }
    ensures size { length ram.new.memory ≡ length ram.old.memory }
    ensures saved { ram.new.saved ≡ ram.old.saved }
    ensures spare { ram.old.spare ≤ ram.new.spare + 2 }
    ensures stays { HasStayed result → ram.new ≡ ram.old }
{
    is_word(given);
    let _ = ram.pages();
    let here = Here {
        split,
        given,
        ram: &*ram,
        state: &*state,
    };
    let ended = executed(&here, word, ins, rec);
    if let Some(what) = asked_of(&ended) {
        return Went::NeedsValue(what);
    }
    if is_left(given, &ended) {
        return Went::ValueLeft;
    }
    conclude(&ended, state, ram, rec);
    Went::Stepped
}

/// Tells that a value has 32 bits.
#[inline(always)]
pub(crate) fn is_word(value: Option<u32>)
    ensures { IfSome value (λ v. v < 2 ^ 32) }
{
    if let Some(word) = value {
        let _ = word;
    }
}

/// An instruction that computes, to which no value is due.
#[inline(always)]
fn compute<R: Tells>(
    ram: &Ram,
    state: &mut State,
    split: bool,
    word: u32,
    ins: &Ins,
    rec: &mut R,
) -> Went
    requires formed { WellFormed ins.now }
    requires computes { group.Computes ≡ group_of ins.now.op }
    ensures { EndsStep (R.knows rec.old) (R.knows rec.new) (here_of split None ram.now.memory state.old)
        (executed (here_of split None ram.now.memory state.old) word ins.now)
        result (machine state.new ram.now.memory) }
{
    let _ = ram;
    let _ = split;
    let _ = word;
    match carry_out(ins, state.pc, &state.x, Got::Nothing) {
        Ok(effect) => {
            pass_to(state, effect.pc, effect.rd, effect.value);
            Went::Stepped
        }
        Err(bad) => misaligned(bad.target, state, rec),
    }
}

/// The address of a plain load or store.
#[inline(always)]
fn plain_address(state: &State, ins: &Ins) -> u32
    requires { WellFormed ins.now }
    ensures { result ≡ plain_address state.now ins.now }
{
    register(&state.x, ins.rs1).wrapping_add(ins.imm)
}

/// Whether an address is a multiple of a length.
#[inline(always)]
fn is_aligned(va: u32, len: u8) -> bool
    ensures length { IsTrue result → (len ≡ 1) ⊎ (len ≡ 2) ⊎ (len ≡ 4) }
    ensures aligned { IsTrue result → va % len ≡ 0 }
{
    match len {
        1 => true,
        2 => va % 2 == 0,
        4 => va % 4 == 0,
        _ => false,
    }
}

/// An aligned plain load, to which no value is due.
#[inline(always)]
fn load<R: Tells>(
    ram: &Ram,
    state: &mut State,
    split: bool,
    word: u32,
    ins: &Ins,
    len: u8,
    rec: &mut R,
) -> Went
    requires formed { WellFormed ins.now }
    requires loads { group.Loads len ≡ group_of ins.now.op }
    requires length { (len ≡ 1) ⊎ (len ≡ 2) ⊎ (len ≡ 4) }
    requires aligned { plain_address state.old ins.now % len ≡ 0 }
    requires room { 4 ≤ R.room rec.old }
    ensures { EndsStep (R.knows rec.old) (R.knows rec.new) (here_of split None ram.now.memory state.old)
        (executed (here_of split None ram.now.memory state.old) word ins.now)
        result (machine state.new ram.now.memory) }
{
    let _ = word;
    let va = plain_address(state, ins);
    let here = Here {
        split,
        given: None,
        ram,
        state: &*state,
    };
    match translated(&here, Kind::Load, va, len, rec) {
        Ok(Place::Ram(pa)) => {
            let part = Part { va, pa, len };
            let value = part_value(ram, part);
            rec.first(touch(part, value));
            let pc = state.pc.wrapping_add(4);
            pass_to(state, pc, ins.rd, loaded_value(ins.op, value));
            Went::Stepped
        }
        Ok(Place::Device(pa)) => Went::NeedsValue(Asked::Device(pa)),
        Err(stop) => stopped(None, stop, state, rec),
    }
}

/// An aligned plain store, to which no value is due.
#[inline(always)]
fn store<R: Tells>(
    ram: &mut Ram,
    state: &mut State,
    split: bool,
    word: u32,
    ins: &Ins,
    len: u8,
    rec: &mut R,
) -> Went
    requires formed { WellFormed ins.now }
    requires stores { group.Stores len ≡ group_of ins.now.op }
    requires length { (len ≡ 1) ⊎ (len ≡ 2) ⊎ (len ≡ 4) }
    requires aligned { plain_address state.old ins.now % len ≡ 0 }
    requires room { 4 ≤ R.room rec.old }
    requires spare { 2 ≤ ram.old.spare }
    ensures ends { EndsStep (R.knows rec.old) (R.knows rec.new) (here_of split None ram.old.memory state.old)
        (executed (here_of split None ram.old.memory state.old) word ins.now)
        result (machine state.new ram.new.memory) }
    ensures size { length ram.new.memory ≡ length ram.old.memory }
    ensures saved { ram.new.saved ≡ ram.old.saved }
    ensures spare { ram.old.spare ≤ ram.new.spare + 2 }
    ensures stays { HasStayed result → ram.new ≡ ram.old }
{
    let _ = word;
    let va = plain_address(state, ins);
    let here = Here {
        split,
        given: None,
        ram: &*ram,
        state: &*state,
    };
    match translated(&here, Kind::Store, va, len, rec) {
        Ok(Place::Ram(pa)) => {
            let value = register(&state.x, ins.rs2);
            ram.store(pa, len, value);
            rec.wrote(touch(Part { va, pa, len }, value));
            let pc = state.pc.wrapping_add(4);
            pass_to(state, pc, 0, 0);
            Went::Stepped
        }
        Ok(Place::Device(pa)) => {
            let value = register(&state.x, ins.rs2);
            rec.wrote(touch(Part { va, pa, len }, value));
            let pc = state.pc.wrapping_add(4);
            pass_to(state, pc, 0, 0);
            Went::Stepped
        }
        Err(stop) => stopped(None, stop, state, rec),
    }
}

/// An instruction, by its group.
#[inline(always)]
fn carry<R: Tells>(
    split: bool,
    given: Option<u32>,
    ram: &mut Ram,
    state: &mut State,
    going: &Going,
    rec: &mut R,
) -> Went
    requires keeps { Keeps (pages_of ram.old.memory) state.old }
    requires formed { WellFormed going.now.ins }
    requires group { going.now.group ≡ group_of going.now.ins.op }
    requires room { 4 ≤ R.room rec.old }
    requires spare { 2 ≤ ram.old.spare }
    ensures ends { EndsStep (R.knows rec.old) (R.knows rec.new) (here_of split given ram.old.memory state.old)
        (executed (here_of split given ram.old.memory state.old) going.now.word going.now.ins) result
        (machine state.new ram.new.memory) }
    ensures size { length ram.new.memory ≡ length ram.old.memory }
    ensures saved { ram.new.saved ≡ ram.old.saved }
    ensures spare { ram.old.spare ≤ ram.new.spare + 2 }
    ensures stays { HasStayed result → ram.new ≡ ram.old }
{
    let Going { word, ins, group } = *going;
    if let Some(_) = given {
        return carry_any(split, given, ram, state, word, &ins, rec);
    }
    match group {
        Group::Computes => compute(ram, state, split, word, &ins, rec),
        Group::Loads(len) => {
            if !is_aligned(plain_address(state, &ins), len) {
                return carry_any(split, given, ram, state, word, &ins, rec);
            }
            load(ram, state, split, word, &ins, len, rec)
        }
        Group::Stores(len) => {
            if !is_aligned(plain_address(state, &ins), len) {
                return carry_any(split, given, ram, state, word, &ins, rec);
            }
            store(ram, state, split, word, &ins, len, rec)
        }
        Group::Others => carry_any(split, given, ram, state, word, &ins, rec),
    }
}

/// One turn: an interrupt is taken, or one instruction is fetched and carried out.
#[inline(always)]
pub(crate) fn turn<R: Tells>(
    split: bool,
    given: Option<u32>,
    ram: &mut Ram,
    state: &mut State,
    decoder: &mut Decoder,
    rec: &mut R,
) -> Went
    requires keeps { Keeps (pages_of ram.old.memory) state.old }
    requires room { 6 ≤ R.room rec.old }
    requires spare { 2 ≤ ram.old.spare }
    ensures ends { EndsStep (R.knows rec.old) (R.knows rec.new) (here_of split given ram.old.memory state.old)
        (turn (here_of split given ram.old.memory state.old))
        result (machine state.new ram.new.memory) }
    ensures size { length ram.new.memory ≡ length ram.old.memory }
    ensures saved { ram.new.saved ≡ ram.old.saved }
    ensures spare { ram.old.spare ≤ ram.new.spare + 2 }
    ensures stays { HasStayed result → ram.new ≡ ram.old }
{
    is_word(given);
    let _ = ram.pages();
    let here = Here {
        split,
        given,
        ram: &*ram,
        state: &*state,
    };
    match begun(&here, decoder, rec) {
        Ok(going) => carry(split, given, ram, state, &going, rec),
        Err(stop) => stopped(given, stop, state, rec),
    }
}
