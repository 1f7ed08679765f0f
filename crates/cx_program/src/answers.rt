//! What an instruction got, by what was seen of its step.

ghost use Rattle.std.specs.Prelude.{◌≡◌};
ghost use Rattle.cx_observe.specs.Asked.{got_of, number_read};
ghost use Rattle.cx_ram.specs.LittleEndian.{loaded};

use cx_exec::{Ask, Got};
use cx_observe::Seen;

// The number that so many of four bytes are.
#[inline]
#[tactic(auto, using(crate::proofs::Numbers::of_none, crate::proofs::Numbers::of_one, crate::proofs::Numbers::of_two, crate::proofs::Numbers::of_three, crate::proofs::Numbers::of_all))]
fn number_of(bytes: &[u8; 4], len: u8) -> u32
    ensures { result ≡ loaded bytes.now 0 len }
{
    let [a, b, c, _] = *bytes;
    match len {
        0 => 0,
        1 => u32::from(a),
        2 => u32::from_le_bytes([a, b, 0, 0]),
        3 => u32::from_le_bytes([a, b, c, 0]),
        _ => u32::from_le_bytes(*bytes),
    }
}

// The number that the bytes read are.
#[inline]
pub(crate) fn number_read(read: &Option<Seen>) -> u32
    ensures { result ≡ number_read read.now }
{
    match read {
        None => 0,
        Some(seen) => number_of(&seen.bytes, seen.len),
    }
}

/// What the instruction got.
#[inline]
pub(crate) fn got(ask: Ask, read: &Option<Seen>, value: Option<u32>) -> Got
    ensures { result ≡ got_of ask read.now value }
{
    match ask {
        Ask::Load { .. } | Ask::Reserve { .. } | Ask::Amo { .. } => Got::Bytes(number_read(read)),
        Ask::Conditional { .. } => Got::Outcome(value.unwrap_or(0)),
        Ask::Csr => Got::Old(value.unwrap_or(0)),
        Ask::Nothing | Ask::Store { .. } | Ask::System => Got::Nothing,
    }
}
