//! Which observations a step in user mode can make.

ghost use Rattle.std.specs.Prelude.{◌≡◌, ◌↔◌, ◌^◌, ◌<◌, ◌≤◌, ℕ, IfSome, Some, get_or, length, true};
ghost use Rattle.cx_decode.specs.Decoding.{decoded};
ghost use Rattle.cx_decode.specs.WellFormed.{WellFormed};
ghost use Rattle.cx_exec.specs.Asking.{ask_of};
ghost use Rattle.cx_exec.specs.Effect.{effect_of};
ghost use Rattle.cx_hart.specs.Touches.{padded};
ghost use Rattle.cx_observe.specs.Asked.{got_of, is_aligned, read_of, stored_at, takes_value, write_of};
ghost use Rattle.cx_observe.specs.Possible.{Possible, Retires};
ghost use Rattle.cx_observe.specs.Seeing.{seen_with};
ghost use Rattle.cx_observe.specs.Tests.{agrees_at, agrees_if, agrees_on, calls_only, fetched_at, reads_as_fetched, reads_asked};
ghost use Rattle.cx_observe.specs.Tests.{carried_as, carried_by, has_effect, passes_all, reads_extent, same_access};
ghost use Rattle.cx_observe.specs.Typed.{IsFour, IsTypedSeen, IsTyped};
ghost use Rattle.cx_ram.specs.LittleEndian.{loaded, low_bytes};
ghost use Rattle.cx_ram.specs.PhysicalMemory.{IsAccessLength};

use crate::ECALL;
use crate::obs::{Obs, Seen};
use cx_decode::{Ins, decode};
use cx_exec::{Ask, Got, ask, carry_out, user_retires};
use cx_ram::{are_bytes, is_all_zero};

/// Whether it is a call of the environment, which takes and leaves nothing.
fn calls_only(obs: &Obs) -> bool
    ensures { result ≡ calls_only obs.now }
{
    obs.word == ECALL && obs.read.is_none() && obs.value.is_none() && obs.write.is_none()
}

/// Whether the address of an LR, an SC or an AMO is a multiple of 4.
fn is_aligned(ask: Ask) -> bool
    ensures { result ≡ is_aligned ask }
{
    match ask {
        Ask::Reserve { va } | Ask::Conditional { va } | Ask::Amo { va } => va % 4 == 0,
        _ => true,
    }
}

/// Whether a value comes where one is asked for.
fn takes_value(ask: Ask, value: Option<u32>) -> bool
    ensures { result ≡ takes_value ask value }
{
    match (ask, value) {
        (Ask::Conditional { .. }, Some(value)) => value < 2,
        (Ask::Conditional { .. }, None) => false,
        (Ask::Csr, value) => value.is_some(),
        (_, value) => value.is_none(),
    }
}

/// Whether these are so many bytes from there on, with zeros past them.
fn reads_extent(va: u32, len: u8, seen: &Seen) -> bool
    requires { len ≤ 4 }
    ensures { result ≡ reads_extent va len seen.now }
{
    seen.va == va && seen.len == len && is_all_zero(&seen.bytes[len as usize..])
}

/// Whether what was read is what was asked for.
fn reads_asked(ask: Ask, read: &Option<Seen>) -> bool
    requires { IfSome (read_of ask) (λ p. p.len ≤ 4) }
    ensures { result ≡ reads_asked (read_of ask) read.now }
{
    let (va, len) = match ask {
        Ask::Load { va, len } => (va, len),
        Ask::Reserve { va } | Ask::Amo { va } => (va, 4),
        _ => return read.is_none(),
    };
    match read {
        Some(seen) => reads_extent(va, len, seen),
        None => false,
    }
}

/// The number that the bytes are.
#[tactic(auto, using(cx_ram::proofs::Loads::loaded_one, cx_ram::proofs::Loads::loaded_two, cx_ram::proofs::Loads::loaded_three, cx_ram::proofs::Loads::loaded_four))]
fn number_of(seen: &Seen) -> u32
    requires { IsAccessLength seen.now.len }
    ensures { result ≡ loaded seen.now.bytes 0 seen.now.len }
{
    let [a, b, c, d] = seen.bytes;
    match seen.len {
        1 => u32::from(a),
        2 => u32::from(u16::from_le_bytes([a, b])),
        3 => u32::from_le_bytes([a, b, c, 0]),
        4 => u32::from_le_bytes([a, b, c, d]),
        _ => 0,
    }
}

/// What the instruction gets.
fn got_of(ask: Ask, read: &Option<Seen>, value: Option<u32>) -> Got
    requires { IfSome read.now (λ s. IsAccessLength s.len) }
    ensures { result ≡ got_of ask read.now value }
{
    let number = match read {
        Some(seen) => number_of(seen),
        None => 0,
    };
    match ask {
        Ask::Load { .. } | Ask::Reserve { .. } | Ask::Amo { .. } => Got::Bytes(number),
        Ask::Conditional { .. } => Got::Outcome(value.unwrap_or(0)),
        Ask::Csr => Got::Old(value.unwrap_or(0)),
        _ => Got::Nothing,
    }
}

/// The low bytes of a value, and 0 behind them.
#[tactic(auto, using(cx_hart::proofs::TouchBytes::one_byte, cx_hart::proofs::TouchBytes::two_bytes, cx_hart::proofs::TouchBytes::three_bytes, cx_hart::proofs::TouchBytes::four_bytes))]
fn low_bytes(len: u8, value: u32) -> [u8; 4]
    requires { IsAccessLength len }
    ensures { result ≡ padded 4 (low_bytes len value) }
{
    let bytes = value.to_le_bytes();
    match len {
        1 => [bytes[0], 0, 0, 0],
        2 => [bytes[0], bytes[1], 0, 0],
        3 => [bytes[0], bytes[1], bytes[2], 0],
        _ => bytes,
    }
}

/// The low bytes of a value at an address.
#[tactic(auto, using(crate::proofs::PossibleTests::low_size))]
fn stored(va: u32, len: u8, value: u32) -> Seen
    requires { IsAccessLength len }
    ensures { result ≡ seen_with va (low_bytes len value) }
{
    Seen {
        va,
        len,
        bytes: low_bytes(len, value),
    }
}

/// What stands where this value is stored.
fn stored_at(ask: Ask, value: Option<u32>) -> Option<Seen>
    requires { IfSome (write_of ask) (λ p. IsAccessLength p.len) }
    ensures { result ≡ stored_at (write_of ask) value }
{
    let value = value?;
    match ask {
        Ask::Store { va, len } => Some(stored(va, len, value)),
        Ask::Conditional { va } | Ask::Amo { va } => Some(stored(va, 4, value)),
        _ => None,
    }
}

/// The byte of the instruction at an address, if one is there.
fn fetched_at(pc: u32, word: u32, va: u32) -> Option<u8>
    ensures { result ≡ fetched_at pc word va }
{
    let [a, b, c, d] = word.to_le_bytes();
    if pc == va {
        return Some(a);
    }
    if pc.wrapping_add(1) == va {
        return Some(b);
    }
    if pc.wrapping_add(2) == va {
        return Some(c);
    }
    if pc.wrapping_add(3) == va {
        Some(d)
    } else {
        None
    }
}

/// Whether the instruction has this byte at the address, or none.
#[tactic(auto, unfolding(crate::specs::Tests::agrees_at))]
fn agrees_at(pc: u32, word: u32, va: u32, byte: u8) -> bool
    ensures { result ≡ agrees_at pc word va byte }
{
    match fetched_at(pc, word, va) {
        None => true,
        Some(fetched) => fetched == byte,
    }
}

/// The same of a byte that may not be there.
fn agrees_if(there: bool, pc: u32, word: u32, va: u32, byte: u8) -> bool
    ensures { result ≡ agrees_if there pc word va byte }
{
    !there || agrees_at(pc, word, va, byte)
}

/// Whether the bytes that were read are those of the instruction, where they are at its addresses.
#[tactic(auto, unfolding(crate::specs::Tests::agrees_on))]
fn agrees_on(pc: u32, word: u32, seen: &Seen) -> bool
    ensures { result ≡ agrees_on pc word seen.now }
{
    let [a, b, c, d] = seen.bytes;
    agrees_at(pc, word, seen.va, a)
        && agrees_if(seen.len >= 2, pc, word, seen.va.wrapping_add(1), b)
        && agrees_if(seen.len >= 3, pc, word, seen.va.wrapping_add(2), c)
        && agrees_if(seen.len >= 4, pc, word, seen.va.wrapping_add(3), d)
}

/// The same of a step that may have read nothing.
fn agrees(obs: &Obs) -> bool
    ensures { result ≡ reads_as_fetched obs.now.pc obs.now.word obs.now.read }
{
    match &obs.read {
        None => true,
        Some(seen) => agrees_on(obs.pc, obs.word, seen),
    }
}

/// Whether two accesses are the same.
fn same_access(one: &Option<Seen>, other: &Option<Seen>) -> bool
    ensures { result ≡ same_access one.now other.now }
{
    match (one, other) {
        (None, None) => true,
        (Some(one), Some(other)) => {
            one.va == other.va
                && one.len == other.len
                && u32::from_le_bytes(one.bytes) == u32::from_le_bytes(other.bytes)
        }
        _ => false,
    }
}

/// Whether what was written is the effect of the instruction.
fn has_effect(ins: &Ins, ask: Ask, obs: &Obs) -> bool
    requires formed { WellFormed ins.now }
    requires read { IfSome obs.now.read (λ s. IsAccessLength s.len) }
    requires write { IfSome (write_of ask) (λ p. IsAccessLength p.len) }
    ensures { result ≡ has_effect (write_of ask) obs.now.write
        (effect_of ins.now obs.now.pc obs.now.x (got_of ask obs.now.read obs.now.value)) }
{
    match carry_out(ins, obs.pc, &obs.x, got_of(ask, &obs.read, obs.value)) {
        Ok(effect) => same_access(&obs.write, &stored_at(ask, effect.write)),
        Err(_) => false,
    }
}

/// Whether it is this instruction, as user mode can retire it.
#[tactic(auto, unfolding(crate::specs::Tests::carried_as))]
fn carried_as(ins: &Ins, ask: Ask, obs: &Obs) -> bool
    requires formed { WellFormed ins.now }
    requires read { IfSome (read_of ask) (λ p. IsAccessLength p.len) }
    requires write { IfSome (write_of ask) (λ p. IsAccessLength p.len) }
    ensures { result ≡ carried_as obs.now ins.now ask }
{
    if !reads_asked(ask, &obs.read) {
        return false;
    }
    user_retires(ins)
        && is_aligned(ask)
        && takes_value(ask, obs.value)
        && agrees(obs)
        && has_effect(ins, ask, obs)
}

/// Whether it is an instruction that user mode can retire, with what it asks for.
#[tactic(auto, using(crate::proofs::PossibleTests::reads_sized, crate::proofs::PossibleTests::writes_sized))]
fn carried(obs: &Obs) -> bool
    ensures { result ≡ carried_by obs.now (decoded obs.now.word) }
{
    match decode(obs.word) {
        None => false,
        Some(ins) => carried_as(&ins, ask(&ins, obs.pc, &obs.x), obs),
    }
}

/// Whether it passes all tests.
fn passes_all(obs: &Obs) -> bool
    ensures { result ≡ passes_all obs.now }
{
    obs.x[0] == 0 && obs.pc % 4 == 0 && (calls_only(obs) || carried(obs))
}

/// Tells that a number has 32 bits.
fn is_word(word: u32)
    ensures { word < 2 ^ 32 }
{
    let _ = word;
}

/// Tells that numbers have 32 bits.
fn words_fit(words: &[u32])
    ensures { (k : ℕ) → get_or words.now k 0 < 2 ^ 32 }
{
    let _ = words;
}

/// Tells that registers are 32 numbers of 32 bits.
fn are_words(x: &[u32; 32])
    ensures count { length x.now ≡ 32 }
    ensures fit { (k : ℕ) → get_or x.now k 0 < 2 ^ 32 }
{
    words_fit(x);
}

/// Tells that four bytes are four bytes.
fn are_four(bytes: &[u8; 4])
    ensures count { length bytes.now ≡ 4 }
    ensures fit { (k : ℕ) → get_or bytes.now k 0 < 256 }
{
    are_bytes(bytes);
}

/// Tells what its type says of an access.
fn is_seen(seen: &Seen)
    ensures { IsTypedSeen seen.now }
{
    are_four(&seen.bytes);
    is_word(seen.va);
}

/// The same of one that may not be there.
fn is_access(access: &Option<Seen>)
    ensures { IfSome access.now IsTypedSeen }
{
    match access {
        None => (),
        Some(seen) => is_seen(seen),
    }
}

/// The same of the bytes of a write.
fn is_write(access: &Option<Seen>)
    ensures { IfSome access.now IsFour }
{
    match access {
        None => (),
        Some(seen) => are_four(&seen.bytes),
    }
}

/// The same of a value.
fn is_value(value: Option<u32>)
    ensures { IfSome value (λ v. v < 2 ^ 32) }
{
    match value {
        None => (),
        Some(value) => is_word(value),
    }
}

/// Tells what its types say of an observation.
fn is_typed(obs: &Obs)
    ensures { IsTyped obs.now }
{
    is_word(obs.pc);
    are_words(&obs.x);
    is_word(obs.word);
    is_value(obs.value);
    is_access(&obs.read);
    is_write(&obs.write);
}

/// Whether a step in user mode can show this: a call of the environment, or an instruction that user mode can retire,
/// with what it asks for and with its effect.
pub fn possible(obs: &Obs) -> bool
    ensures { result ≡ true ↔ Possible obs.now }
{
    is_typed(obs);
    passes_all(obs)
}
