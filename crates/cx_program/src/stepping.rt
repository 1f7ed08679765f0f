//! One step of a program that runs alone.

ghost use Rattle.std.specs.Prelude.{◌≡◌, ◌<◌, ◌^◌, ◌&&◌, ℕ, get_or, slice_set, IfSome};
ghost use Rattle.cx_decode.specs.WellFormed.{WellFormed};
ghost use Rattle.cx_exec.specs.User.{user_retires};
ghost use Rattle.cx_hart.specs.Touches.{padded};
ghost use Rattle.cx_observe.specs.Asked.{is_aligned, stored_at, takes_value, write_of};
ghost use Rattle.cx_observe.specs.Possible.{Possible};
ghost use Rattle.cx_observe.specs.Seeing.{seen_with};
ghost use Rattle.cx_observe.specs.Stepping.{calling, carrying_out, retiring, step_of};
ghost use Rattle.cx_ram.specs.LittleEndian.{loaded, low_bytes};
ghost use Rattle.cx_ram.specs.PhysicalMemory.{IsAccessLength};
ghost use Rattle.cx_shadow.specs.Cells.{byte_of};

use crate::answers::got;
use crate::reading::{four_at, read_by};
use cx_decode::{Ins, decode};
use cx_exec::{Ask, ask, carry_out, user_retires};
use cx_observe::{ECALL, Obs, Seen};
use cx_shadow::Shadow;

// Whether the address of an LR, an SC or an AMO is a multiple of 4.
#[inline]
fn is_aligned(ask: Ask) -> bool
    ensures { result ≡ is_aligned ask }
{
    match ask {
        Ask::Reserve { va } | Ask::Conditional { va } | Ask::Amo { va } => va % 4 == 0,
        _ => true,
    }
}

// Whether a value comes exactly where one is asked for, and to an SC is 0 or 1.
#[inline]
fn takes_value(ask: Ask, value: Option<u32>) -> bool
    ensures { result ≡ takes_value ask value }
{
    match (ask, value) {
        (Ask::Conditional { .. }, Some(value)) => value < 2,
        (Ask::Conditional { .. }, None) => false,
        (Ask::Csr, value) => value.is_some(),
        (_, value) => value.is_none(),
    }
}

// The low bytes of a value, and 0 behind them.
#[inline]
#[tactic(auto, using(cx_hart::proofs::TouchBytes::one_byte, cx_hart::proofs::TouchBytes::two_bytes, cx_hart::proofs::TouchBytes::three_bytes, cx_hart::proofs::TouchBytes::four_bytes))]
fn low_bytes(len: u8, value: u32) -> [u8; 4]
    requires { IsAccessLength len }
    ensures { result ≡ padded 4 (low_bytes len value) }
{
    let [a, b, c, d] = value.to_le_bytes();
    match len {
        1 => [a, 0, 0, 0],
        2 => [a, b, 0, 0],
        3 => [a, b, c, 0],
        _ => [a, b, c, d],
    }
}

// The low bytes of a value at an address.
#[inline]
#[tactic(auto, using(cx_observe::proofs::PossibleTests::low_size))]
fn stored(va: u32, len: u8, value: u32) -> Seen
    requires { IsAccessLength len }
    ensures { result ≡ seen_with va (low_bytes len value) }
{
    Seen {
        va,
        len,
        bytes: low_bytes(len, value),
    }
}

// What stands where this value is stored.
#[inline]
fn stored_at(ask: Ask, value: Option<u32>) -> Option<Seen>
    requires { IfSome (write_of ask) (λ p. IsAccessLength p.len) }
    ensures { result ≡ stored_at (write_of ask) value }
{
    let value = value?;
    match ask {
        Ask::Store { va, len } => Some(stored(va, len, value)),
        Ask::Conditional { va } | Ask::Amo { va } => Some(stored(va, 4, value)),
        _ => None,
    }
}

// Whether user mode can retire the instruction, with the value that it is given.
#[inline]
fn can_retire(ins: &Ins, ask: Ask, value: Option<u32>) -> bool
    ensures { result ≡ (user_retires ins.now && (is_aligned ask && takes_value ask value)) }
{
    user_retires(ins) && is_aligned(ask) && takes_value(ask, value)
}

// The step of an instruction.
#[tactic(auto, using(cx_observe::proofs::PossibleTests::reads_sized, cx_observe::proofs::PossibleTests::writes_sized))]
fn retire(
    ins: &Ins,
    pc: u32,
    x: &[u32; 32],
    word: u32,
    shadow: &Shadow,
    value: Option<u32>,
) -> Option<Obs>
    requires { WellFormed ins.now }
    ensures { result ≡ retiring pc x.now (byte_of shadow.now) value word ins.now }
{
    let asked = ask(ins, pc, x);
    if !can_retire(ins, asked, value) {
        return None;
    }
    let read = read_by(shadow, asked)?;
    match carry_out(ins, pc, x, got(asked, &read, value)) {
        Ok(effect) => Some(Obs {
            pc,
            x: *x,
            word,
            read,
            value,
            write: stored_at(asked, effect.write),
        }),
        Err(_) => None,
    }
}

// The step of a call of the environment.
#[inline]
fn call(pc: u32, x: &[u32; 32], value: Option<u32>, word: u32) -> Option<Obs>
    ensures { result ≡ calling pc x.now value word }
{
    match value {
        Some(_) => None,
        None => Some(Obs {
            pc,
            x: *x,
            word,
            read: None,
            value: None,
            write: None,
        }),
    }
}

// The step of a word.
fn carry(pc: u32, x: &[u32; 32], word: u32, shadow: &Shadow, value: Option<u32>) -> Option<Obs>
    ensures { result ≡ carrying_out pc x.now (byte_of shadow.now) value word }
{
    if word == ECALL {
        return call(pc, x, value, word);
    }
    match decode(word) {
        None => None,
        Some(ins) => retire(&ins, pc, x, word, shadow, value),
    }
}

// Register 0 in the place of pc.
#[inline]
fn registers(words: &[u32; 32]) -> [u32; 32]
    ensures { result ≡ slice_set words.now 0 0 }
{
    let mut x = *words;
    x[0] = 0;
    x
}

// Tells that words have 32 bits.
fn words_fit(words: &[u32])
    ensures { (k : ℕ) → get_or words.now k 0 < 2 ^ 32 }
{
    let _ = words;
}

/// The step that a program takes from its words, with the bytes that are known and the value that is given, and what
/// it shows. None comes exactly where it can't be taken: pc is no multiple of 4, a byte that it fetches or reads isn't
/// known, the word is none that user mode can retire, an address or a target isn't aligned, an SC's outcome is missing
/// or is neither 0 nor 1, a counter's value is missing, or a value is given that isn't asked for.
#[tactic(auto, unfolding(cx_observe::specs::Stepping::step_of))]
pub fn step(words: &[u32; 32], shadow: &Shadow, given: Option<u32>) -> Option<Obs>
    ensures is { result ≡ step_of words.now (byte_of shadow.now) given }
    ensures possible { IfSome result Possible }
{
    words_fit(words);
    let pc = words[0];
    if pc % 4 != 0 {
        return None;
    }
    let bytes = four_at(shadow, pc)?;
    carry(
        pc,
        &registers(words),
        u32::from_le_bytes(bytes),
        shadow,
        given,
    )
}
