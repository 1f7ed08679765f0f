//! The words of a program: pc, and the registers from 1 on.

ghost use Rattle.std.specs.Prelude.{◌≡◌, ◌<◌, ℕ, List, true, IfSome};
ghost use Rattle.cx_decode.specs.Decoding.{decoded};
ghost use Rattle.cx_decode.specs.Groups.{group_of, instruction_of};
ghost use Rattle.cx_decode.specs.WellFormed.{WellFormed};
ghost use Rattle.cx_exec.specs.Asking.{ask_of};
ghost use Rattle.cx_exec.specs.Effect.{effect_of};
ghost use Rattle.cx_exec.specs.Values.{registers_with};
ghost use Rattle.cx_observe.specs.Asked.{got_of};
ghost use Rattle.cx_observe.specs.Effects.{done_by, next_words, program_words, words_after};

use crate::answers::{got, number_read};
use cx_decode::{Group, Known, decode};
use cx_exec::{Effect, Got, ask, carry_out};
use cx_observe::Obs;

/// The words before the step.
#[inline]
#[tactic(auto, using(crate::proofs::First::pc_first))]
pub fn words_told(obs: &Obs) -> [u32; 32]
    ensures { result ≡ program_words obs.now.pc obs.now.x }
{
    let mut words = obs.x;
    words[0] = obs.pc;
    words
}

/// Whether these words are those before the step. All are compared, with no test between them.
#[inline]
pub(crate) fn are_told(words: &[u32; 32], obs: &Obs) -> bool
    ensures { result ≡ true → words.now ≡ program_words obs.now.pc obs.now.x }
{
    let mut same = words[0] == obs.pc;
    let mut at = 1;
    while at < 32 {
        same = same & (words[at] == obs.x[at]);
        at += 1;
    }
    same
}

// What the instruction gets, as far as its effect goes by that: that of a computation or a store goes by nothing.
#[inline]
#[tactic(auto, using(crate::proofs::Rows::computes_alike, crate::proofs::Rows::stores_alike, crate::proofs::Rows::loads_alike))]
fn got_by(known: &Known, obs: &Obs) -> Got
    requires formed { WellFormed known.now.ins }
    requires group { known.now.group ≡ group_of known.now.ins.op }
    ensures { effect_of known.now.ins obs.now.pc obs.now.x result ≡ effect_of known.now.ins obs.now.pc obs.now.x
        (got_of (ask_of known.now.ins obs.now.pc obs.now.x) obs.now.read obs.now.value) }
{
    match known.group {
        Group::Computes => Got::Nothing,
        Group::Stores(_) => Got::Nothing,
        Group::Loads(_) => Got::Bytes(number_read(&obs.read)),
        Group::Others => got(ask(&known.ins, obs.pc, &obs.x), &obs.read, obs.value),
    }
}

// The words once an instruction is carried out.
#[inline]
#[tactic(auto, using(crate::proofs::Rows::turned))]
fn turn(words: &mut [u32; 32], effect: &Effect)
    requires { effect.now.rd < 32 }
    ensures { (pc : ℕ) (x : List ℕ) → words.old ≡ program_words pc x
        → words.new ≡ program_words effect.now.pc (registers_with x effect.now.rd effect.now.value) }
{
    words[effect.rd as usize] = effect.value;
    words[0] = effect.pc;
}

// The words behind an instruction go in the place of those before it.
#[inline]
fn carry(words: &mut [u32; 32], obs: &Obs, known: &Known)
    requires told { words.old ≡ program_words obs.now.pc obs.now.x }
    requires formed { WellFormed known.now.ins }
    requires group { known.now.group ≡ group_of known.now.ins.op }
    ensures { words.new ≡ words_after obs.now (done_by obs.now known.now.ins) }
{
    match carry_out(&known.ins, obs.pc, &obs.x, got_by(known, obs)) {
        Ok(effect) => turn(words, &effect),
        Err(_) => {}
    }
}

/// The words behind the step go in the place of those before it. This is what is known of its word.
#[inline]
#[tactic(auto, unfolding(cx_observe::specs::Effects::next_words))]
pub(crate) fn pass(words: &mut [u32; 32], obs: &Obs, known: Option<Known>)
    requires told { words.old ≡ program_words obs.now.pc obs.now.x }
    requires word { instruction_of known ≡ decoded obs.now.word }
    requires group { IfSome known (λ k. k.group ≡ group_of k.ins.op) }
    requires formed { IfSome known (λ k. WellFormed k.ins) }
    ensures { words.new ≡ next_words obs.now }
{
    match known {
        None => {},
        Some(known) => carry(words, obs, &known),
    }
}

/// What is known of a word.
pub(crate) fn known_of(word: u32) -> Option<Known>
    ensures word { instruction_of result ≡ decoded word }
    ensures group { IfSome result (λ k. k.group ≡ group_of k.ins.op) }
    ensures formed { IfSome result (λ k. WellFormed k.ins) }
{
    match decode(word) {
        None => None,
        Some(ins) => Some(Known {
            ins,
            group: ins.op.group(),
        }),
    }
}
