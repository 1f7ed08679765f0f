//! The bytes that an observation shows, each with its address.

ghost use Rattle.std.specs.Prelude.{◌≡◌, ◌+◌, ◌≤◌, ◌++◌, length, take};
ghost use Rattle.arrayvec.specs.ArrayVec.{array_vec_len};
ghost use Rattle.cx_observe.specs.Seeing.{bytes_on, bytes_shown, seen_by, sights};

use crate::sorting::sorted;
use arrayvec::ArrayVec;
use cx_observe::{Obs, Seen};

/// As many bytes as a step can see, each with its address.
pub type Bytes = ArrayVec<(u32, u8), 8>;

// Puts bytes behind, from an address on.
fn push_on(into: &mut Bytes, va: u32, bytes: &[u8])
    requires { array_vec_len into.old + length bytes.now ≤ 8 }
    ensures bytes { into.new.items ≡ into.old.items ++ bytes_on va bytes.now }
    ensures size { array_vec_len into.new ≡ array_vec_len into.old + length bytes.now }
{
    let mut at = va;
    for byte in bytes {
        into.push((at, *byte));
        at = at.wrapping_add(1);
    }
}

/// The first bytes of an access, as many as it has.
#[inline]
#[tactic(auto, using(std::proofs::lemmas::List::take_min))]
pub fn front(bytes: &[u8; 4], len: u8) -> &[u8]
    ensures bytes { result.now ≡ take len bytes.now }
    ensures few { length result.now ≤ 4 }
{
    let len = usize::from(len).min(bytes.len());
    &bytes[..len]
}

// Puts the bytes of an access behind.
#[inline]
fn push_shown(into: &mut Bytes, seen: &Option<Seen>)
    requires { array_vec_len into.old ≤ 4 }
    ensures { into.new.items ≡ into.old.items ++ bytes_shown seen.now }
{
    if let Some(seen) = seen {
        push_on(into, seen.va, front(&seen.bytes, seen.len));
    }
}

// The bytes of the instruction, and those that it read.
#[tactic(auto, unfolding(cx_observe::specs::Seeing::sights))]
fn sights(obs: &Obs) -> Bytes
    ensures { result.items ≡ sights obs.now }
{
    let mut bytes = Bytes::new();
    push_on(&mut bytes, obs.pc, &obs.word.to_le_bytes());
    push_shown(&mut bytes, &obs.read);
    bytes
}

/// The bytes that the step saw, in rising order.
pub fn bytes_seen(obs: &Obs) -> Bytes
    ensures { result.items ≡ seen_by obs.now }
{
    let sights = sights(obs);
    sorted(sights.as_slice())
}

/// The bytes that the step wrote.
pub fn bytes_written(obs: &Obs) -> Bytes
    ensures { result.items ≡ bytes_shown obs.now.write }
{
    let mut bytes = Bytes::new();
    push_shown(&mut bytes, &obs.write);
    bytes
}
