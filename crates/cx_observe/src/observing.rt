//! From the record of a step to what it shows of a program.

ghost use Rattle.std.specs.Prelude.{◌≡◌, ◌+◌, ◌≤◌, ◌++◌, take, Some, IfSome};
ghost use Rattle.cx_hart.specs.Touches.{padded};
ghost use Rattle.cx_hart.specs.WellFormed.{AreParts, IsSecond, IsTouch, IsWellFormed};
ghost use Rattle.cx_observe.specs.Observation.{access_seen, is_chosen, is_shown, observation_of, parts_joined};
ghost use Rattle.cx_ram.specs.LittleEndian.{loaded};

use crate::obs::{Obs, Seen};
use cx_csr::causes::CALL_FROM_USER;
use cx_csr::modes::USER;
use cx_hart::{Ended, StepRec, Touch};

/// Whether a program goes on by a step that ended so: it retired, or called the environment from user mode.
#[inline]
fn is_shown(ended: &Ended) -> bool
    ensures { result ≡ is_shown ended.now }
{
    match *ended {
        Ended::Retired => true,
        Ended::Trap(cause) => cause == CALL_FROM_USER,
        Ended::Interrupt(_) => false,
    }
}

/// Whether the step is one of the program whose page tables have this root.
#[inline]
fn is_chosen(rec: &StepRec, root: u32) -> bool
    ensures { result ≡ is_chosen rec.now root }
{
    rec.before.mode == USER && rec.before.csr.satp == root && is_shown(&rec.ended)
}

/// The number that four bytes are.
#[inline]
#[tactic(auto, using(crate::proofs::Joining::loaded_word))]
fn word_of(bytes: &[u8; 4]) -> u32
    ensures { result ≡ loaded bytes.now 0 4 }
{
    u32::from_le_bytes(*bytes)
}

/// The bytes of two parts, the second behind the first.
#[tactic(auto, using(crate::proofs::Joining::one_before, crate::proofs::Joining::two_before, crate::proofs::Joining::three_before))]
fn bytes_joined(first: &Touch, more: &Touch) -> [u8; 4]
    requires first { IsTouch first.now }
    requires second { IsTouch more.now }
    requires whole { first.now.len + more.now.len ≤ 4 }
    ensures { result ≡ padded 4 (take first.now.len first.now.bytes ++ take more.now.len more.now.bytes) }
{
    let [a, b, c, _] = first.bytes;
    let [d, e, f, _] = more.bytes;
    match first.len {
        1 => [a, d, e, f],
        2 => [a, b, d, e],
        _ => [a, b, c, d],
    }
}

/// Two parts as one.
fn parts_joined(first: &Touch, more: &Option<Touch>) -> Seen
    requires first { IsTouch first.now }
    requires second { IfSome more.now (IsSecond (Some first.now)) }
    ensures { result ≡ parts_joined first.now more.now }
{
    match more {
        None => Seen {
            va: first.va,
            len: first.len,
            bytes: first.bytes,
        },
        Some(more) => Seen {
            va: first.va,
            len: first.len + more.len,
            bytes: bytes_joined(first, more),
        },
    }
}

/// An access by its parts.
#[inline]
fn access_seen(first: &Option<Touch>, more: &Option<Touch>) -> Option<Seen>
    requires { AreParts first.now more.now }
    ensures { result ≡ access_seen first.now more.now }
{
    match first {
        None => None,
        Some(first) => Some(parts_joined(first, more)),
    }
}

/// What a step shows of the program whose page tables have this root, which stands in `satp` as it is written: None
/// exactly where the step isn't in user mode over that root, or neither retired nor called the environment.
#[tactic(auto, unfolding(crate::specs::Observation::observation_of))]
pub fn observe(rec: &StepRec, root: u32) -> Option<Obs>
    requires { IsWellFormed rec.now }
    ensures { result ≡ observation_of rec.now root }
{
    if !is_chosen(rec, root) {
        return None;
    }
    match &rec.fetch {
        None => None,
        Some(fetch) => Some(Obs {
            pc: rec.before.pc,
            x: rec.before.x,
            word: word_of(&fetch.bytes),
            read: access_seen(&rec.read, &rec.read_more),
            value: rec.result,
            write: access_seen(&rec.write, &rec.write_more),
        }),
    }
}
