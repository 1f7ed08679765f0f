//! The items of a step: what has to be handed to it, by what is known before it and by what was accessed.

ghost use Rattle.std.specs.Prelude.{◌≡◌, ◌==◌, ◌≤◌, ◌<◌, [], ◌∷◌, ◌++◌, length, None, Some, if◌then◌else◌};
ghost use Rattle.cx_marks.specs.Marked.{is_marked};
ghost use Rattle.cx_calls.specs.Calling.{called};
ghost use Rattle.cx_placing.specs.Touched.{first_touched, touched_again};
ghost use Rattle.cx_shadow.specs.Cells.{byte_of};
ghost use Rattle.cx_slices.specs.Bytes.{missing};
ghost use Rattle.cx_slices.specs.Words.{changes};
ghost use Rattle.arrayvec.specs.ArrayVec.{array_vec_len};

use cx_marks::Marks;
use cx_observe::{ECALL, Obs};
use cx_program::{Bytes, has_byte};
use cx_shadow::Shadow;

/// The number of the call that a step is, where it is one.
pub(crate) fn called(obs: &Obs) -> Option<u32>
    ensures { result ≡ called obs.now }
{
    if obs.word == ECALL {
        Some(obs.x[17])
    } else {
        None
    }
}

// A word, where it isn't the one that stands.
#[inline]
fn change(stands: u32, wanted: u32) -> Option<u32>
    ensures { result ≡ (if stands == wanted then None else Some wanted) }
{
    if stands == wanted { None } else { Some(wanted) }
}

/// Each word that isn't the one that stands.
pub(crate) fn changes(stands: &[u32; 32], wanted: &[u32; 32]) -> [Option<u32>; 32]
    ensures { result ≡ changes stands.now wanted.now }
{
    let mut changes = [None; 32];
    let mut at = 0;
    while at < 32 {
        changes[at] = change(stands[at], wanted[at]);
        at += 1;
    }
    changes
}

/// The bytes that a step saw and that didn't stand: those at addresses that were not accessed before, and the others.
#[derive(Drop)]
pub(crate) struct Missed {
    pub(crate) first: Bytes,
    pub(crate) again: Bytes,
}

// Puts a byte to those at its side.
#[inline]
fn add(missed: &mut Missed, touched: bool, byte: (u32, u8))
    requires first { array_vec_len missed.old.first < 8 }
    requires again { array_vec_len missed.old.again < 8 }
    ensures first { missed.new.first.items ≡ (if touched then missed.old.first.items else missed.old.first.items ++ byte ∷ []) }
    ensures again { missed.new.again.items ≡ (if touched then missed.old.again.items ++ byte ∷ [] else missed.old.again.items) }
{
    if touched {
        missed.again.push(byte);
    } else {
        missed.first.push(byte);
    }
}

/// The bytes that don't stand, by whether they were touched.
pub(crate) fn bytes_missed(shadow: &Shadow, touched: &Marks, seen: &[(u32, u8)]) -> Missed
    requires { length seen.now ≤ 8 }
    ensures first { result.first.items ≡ first_touched (is_marked touched.now) (missing (byte_of shadow.now) seen.now) }
    ensures again { result.again.items ≡ touched_again (is_marked touched.now) (missing (byte_of shadow.now) seen.now) }
{
    let mut missed = Missed {
        first: Bytes::new(),
        again: Bytes::new(),
    };
    for byte in seen {
        if !has_byte(shadow, byte.0, byte.1) {
            add(&mut missed, touched.has(byte.0), *byte);
        }
    }
    missed
}
