//! The items of a step: what has to be handed to it, by what is known before it.

ghost use Rattle.std.specs.Prelude.{◌≡◌, ◌==◌, ◌≤◌, length, None, Some, is_none, if◌then◌else◌};
ghost use Rattle.std.specs.List.{list_all};
ghost use Rattle.cx_observe.specs.User.{user};
ghost use Rattle.cx_program.specs.Knowing.{known_by};
ghost use Rattle.cx_shadow.specs.Cells.{byte_of};
ghost use Rattle.cx_slicefmt.specs.Engine.{items_in};
ghost use Rattle.cx_slices.specs.Bytes.{missing};
ghost use Rattle.cx_slices.specs.Items.{are_none, items_at};
ghost use Rattle.cx_slices.specs.Words.{changes};

use arrayvec::ArrayVec;
use cx_observe::Obs;
use cx_program::{Standing, bytes_seen, has_byte, words_told};
use cx_shadow::Shadow;
use cx_slicefmt::GroupItems;

// A word, where it isn't the one that stands.
#[inline]
fn change(stands: u32, wanted: u32) -> Option<u32>
    ensures { result ≡ (if stands == wanted then None else Some wanted) }
{
    if stands == wanted { None } else { Some(wanted) }
}

// Each word that isn't the one that stands.
fn changes(stands: &[u32; 32], wanted: &[u32; 32]) -> [Option<u32>; 32]
    ensures { result ≡ changes stands.now wanted.now }
{
    let mut changes = [None; 32];
    let mut at = 0;
    while at < 32 {
        changes[at] = change(stands[at], wanted[at]);
        at += 1;
    }
    changes
}

// The bytes that don't stand.
fn missing(shadow: &Shadow, bytes: &[(u32, u8)]) -> ArrayVec<(u32, u8), 64>
    requires { length bytes.now ≤ 8 }
    ensures { result.items ≡ missing (byte_of shadow.now) bytes.now }
{
    let mut missing = ArrayVec::new();
    for byte in bytes {
        if !has_byte(shadow, byte.0, byte.1) {
            missing.push(*byte);
        }
    }
    missing
}

/// The items of a step.
pub(crate) fn items(standing: &Standing, obs: &Obs) -> GroupItems
    ensures items { items_in result ≡ items_at user (known_by standing.now) obs.now }
    ensures words { length result.words ≡ 32 }
{
    let seen = bytes_seen(obs);
    GroupItems {
        words: changes(&standing.words, &words_told(obs)),
        bytes: missing(&standing.shadow, seen.as_slice()),
        given: obs.value,
    }
}

// Whether no word changes.
fn no_words(words: &[Option<u32>; 32]) -> bool
    ensures { result ≡ list_all is_none words.now }
{
    for word in words {
        if word.is_some() {
            return false;
        }
    }
    true
}

/// Whether there are no items.
pub(crate) fn are_none(items: &GroupItems) -> bool
    ensures { result ≡ are_none (items_in items.now) }
{
    no_words(&items.words) && items.bytes.is_empty() && items.given.is_none()
}
