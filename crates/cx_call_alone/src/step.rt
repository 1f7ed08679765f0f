//! A step of a program that runs alone from the items of its calls.

ghost use Rattle.std.specs.Prelude.{◌≡◌, ◌&&◌, ◌||◌, ℕ, List, [], None, Some, IfOk, IfSome, is_some};
ghost use Rattle.std.specs.Prelude.{option_and_then};
ghost use Rattle.std.specs.List.{list_all};
ghost use Rattle.cx_alone.specs.Steps.{left_behind};
ghost use Rattle.cx_calls.specs.Calling.{called};
ghost use Rattle.cx_call_alone.specs.Owed.{Owes, owed_behind};
ghost use Rattle.cx_call_alone.specs.Standing.{IsPut, owed_marks};
ghost use Rattle.cx_call_alone.specs.Stepping.{is_call_by};
ghost use Rattle.cx_marks.specs.Marked.{is_marked};
ghost use Rattle.cx_observe.specs.Possible.{Possible};
ghost use Rattle.cx_observe.specs.Seeing.{left_by};
ghost use Rattle.cx_observe.specs.Stepping.{step_of};
ghost use Rattle.cx_observe.specs.User.{user};
ghost use Rattle.cx_placing.specs.Called.{all_met, are_placed, words_with};
ghost use Rattle.cx_program.specs.Knowing.{known_by};
ghost use Rattle.cx_shadow.specs.Cells.{byte_of};
ghost use Rattle.cx_slices.specs.Alone.{if_seen};
ghost use Rattle.cx_slices.specs.Bytes.{Byte, byte_found, none_stands};
ghost use Rattle.cx_slices.specs.Words.{all_change, changed};

use crate::called::{Called, none_new};
use crate::marking::{access_both, all_marked, all_met};
use cx_alone::{Stop, all_change, changed, none_stands, sees};
use cx_io::NoMemory;
use cx_observe::{ECALL, Obs};
use cx_program::{bytes_seen, bytes_written, step};

/// The number of the call that a step is, where it is one.
pub(crate) fn called(obs: &Obs) -> Option<u32>
    ensures { result ≡ called obs.now }
{
    if obs.word == ECALL {
        Some(obs.x[17])
    } else {
        None
    }
}

// Whether the words are new, and stand with the head where the step is the first behind it.
fn words_stand(standing: &Called, words: &[Option<u32>; 32]) -> bool
    ensures { result ≡ (standing.now.are_new && (are_placed standing.now.words words.now
        && all_change standing.now.standing.words (words_with standing.now.words words.now))) }
{
    if !standing.are_new {
        return false;
    }
    match &standing.words {
        None => all_change(&standing.standing.words, words),
        Some(own) => none_new(words) && all_change(&standing.standing.words, own),
    }
}

// The words before the step, once they were handed.
fn words_handed(standing: &Called, words: &[Option<u32>; 32]) -> [u32; 32]
    ensures { result ≡ changed standing.now.standing.words (words_with standing.now.words words.now) }
{
    match &standing.words {
        None => changed(&standing.standing.words, words),
        Some(own) => changed(&standing.standing.words, own),
    }
}

// Whether the bytes are new, and the last head couldn't have had them.
fn bytes_stand(standing: &Called, bytes: &[(u32, u8)]) -> bool
    ensures { result ≡ (none_stands (byte_of standing.now.standing.shadow) bytes.now
        && list_all (λ e. is_marked standing.now.touched e.0) bytes.now) }
{
    none_stands(&standing.standing.shadow, bytes) && all_marked(&standing.touched, bytes)
}

/// Puts the items of a step. `Broken` comes exactly where they may not stand there; nothing has changed then. `NoMemory`
/// is free.
pub(crate) fn put_items(
    standing: &mut Called,
    words: &[Option<u32>; 32],
    bytes: &[(u32, u8)],
) -> Result<(), Stop>
    ensures { IsPut standing.old (record { words = words.now; bytes = bytes.now; given = None }) standing.new result }
{
    if !words_stand(standing, words) || !bytes_stand(standing, bytes) {
        return Err(Stop::Broken);
    }
    let handed = words_handed(standing, words);
    standing.standing.shadow.hold_all(bytes)?;
    standing.standing.shadow.put_all(bytes);
    standing.standing.words = handed;
    Ok(())
}

/// The step that the program takes with what is known and given, where it sees each of these bytes.
pub(crate) fn try_step(standing: &Called, bytes: &[(u32, u8)], given: Option<u32>) -> Option<Obs>
    ensures is { result ≡ option_and_then (if_seen user bytes.now)
        (step_of standing.now.standing.words (byte_of standing.now.standing.shadow) given) }
    ensures possible { IfSome result Possible }
{
    let obs = step(&standing.standing.words, &standing.standing.shadow, given)?;
    if sees(&obs, bytes) { Some(obs) } else { None }
}

/// Whether the bytes of the head that the step accesses are bytes that it sees.
pub(crate) fn meets(standing: &Called, obs: &Obs) -> bool
    ensures { (owed : List Byte) → Owes (owed_marks standing.now.head standing.now.touched) standing.now.owes owed
        → result ≡ all_met user obs.now owed }
{
    let seen = bytes_seen(obs);
    let written = bytes_written(obs);
    all_met(
        &standing.head,
        &standing.touched,
        seen.as_slice(),
        written.as_slice(),
    )
}

/// Whether a step is a call exactly where a call of its number is placed there, and then nothing is owed.
pub(crate) fn is_its_call(calls: Option<u32>, placed: Option<u32>, settled: bool) -> bool
    ensures { result ≡ is_call_by calls placed settled }
{
    match (calls, placed) {
        (None, None) => true,
        (Some(number), Some(its_own)) => number == its_own && settled,
        _ => false,
    }
}

/// Marks what the step accesses, and counts what is owed behind it. `NoMemory` is free.
pub(crate) fn access_all(standing: &mut Called, obs: &Obs) -> Result<(), NoMemory>
    ensures touched { IfOk result (λ _. (a : ℕ) → is_marked standing.new.touched a
        ≡ (is_marked standing.old.touched a || is_some (byte_found (left_by obs.now) a))) }
    ensures owes { IfOk result (λ _. (owed : List Byte)
        → Owes (owed_marks standing.old.head standing.old.touched) standing.old.owes owed
        → Owes (owed_marks standing.new.head standing.new.touched) standing.new.owes
        (owed_behind (left_by obs.now) owed)) }
    ensures head { standing.new.head ≡ standing.old.head }
    ensures known { standing.new.standing ≡ standing.old.standing }
    ensures words { standing.new.words ≡ standing.old.words }
    ensures are_new { standing.new.are_new ≡ standing.old.are_new }
{
    let seen = bytes_seen(obs);
    let written = bytes_written(obs);
    standing.owes = access_both(
        &standing.head,
        &mut standing.touched,
        standing.owes,
        written.as_slice(),
        seen.as_slice(),
    )?;
    Ok(())
}
