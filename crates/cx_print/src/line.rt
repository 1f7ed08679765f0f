//! The parts of a line, each of which is appended to it.

ghost use Rattle.std.specs.Prelude.{◌≡◌, ◌+◌, ◌*◌, ◌≤◌, ◌++◌, length, take};
ghost use Rattle.cx_observe.specs.Effects.{program_words};
ghost use Rattle.cx_print.specs.Lines.{address_text, addresses_text, touch_text, first_text, more_text, seen_text};
ghost use Rattle.cx_print.specs.Lines.{ended_text, fetch_text, value_text};
ghost use Rattle.cx_print.specs.Words.{joined_bytes, spaced_words};
ghost use Rattle.cx_print.specs.declared.line.TheConstants.{LINE_CAPACITY};

use crate::hex::{byte_digits, spaced_word, word_digits};
use crate::text::ShortText;
use cx_hart::{Ended, Touch};
use cx_observe::{Obs, Seen};

/// The most bytes that a line takes: that of a step which ended in an interrupt and has two pieces of each access.
pub const LINE_CAPACITY: usize = 742;

/// A line, as it grows.
pub type Line = ShortText<LINE_CAPACITY>;

/// Appends words, each behind a space.
#[tactic(auto, using(crate::proofs::Spellings::in_a_row))]
pub(crate) fn put_words(line: &mut Line, words: &[u32])
    requires { length line.old + 9 * length words.now ≤ LINE_CAPACITY }
    ensures text { line.new ≡ line.old ++ spaced_words words.now }
    ensures room { length line.new ≡ length line.old + 9 * length words.now }
{
    for word in words {
        line.push_bytes(&spaced_word(*word));
    }
}

/// Appends bytes, with nothing between them.
#[tactic(auto, using(crate::proofs::Spellings::in_a_row))]
fn put_bytes(line: &mut Line, bytes: &[u8])
    requires { length line.old + 2 * length bytes.now ≤ LINE_CAPACITY }
    ensures text { line.new ≡ line.old ++ joined_bytes bytes.now }
    ensures room { length line.new ≡ length line.old + 2 * length bytes.now }
{
    for byte in bytes {
        line.push_bytes(&byte_digits(*byte));
    }
}

/// Appends an address, with what it is divided from the next part by.
fn put_address(line: &mut Line, address: u32)
    requires { length line.old + 9 ≤ LINE_CAPACITY }
    ensures text { line.new ≡ line.old ++ address_text address }
    ensures room { length line.new ≡ length line.old + 9 }
{
    line.push_bytes(&word_digits(address));
    line.push_bytes(b":");
}

/// Appends where a stretch of bytes begins.
fn put_addresses(line: &mut Line, touch: &Touch)
    requires { length line.old + 18 ≤ LINE_CAPACITY }
    ensures text { line.new ≡ line.old ++ addresses_text touch.now }
    ensures room { length line.new ≡ length line.old + 18 }
{
    put_address(line, touch.va);
    put_address(line, touch.pa);
}

/// Appends a stretch of bytes.
fn put_touch(line: &mut Line, touch: &Touch)
    requires { length line.old + 26 ≤ LINE_CAPACITY }
    ensures text { line.new ≡ line.old ++ touch_text touch.now }
    ensures room { length line.new ≤ length line.old + 26 }
{
    put_addresses(line, touch);
    put_bytes(line, &touch.bytes[..(touch.len as usize).min(4)]);
}

/// Appends what was read or written up to the end of a page.
fn put_first(line: &mut Line, first: &Option<Touch>)
    requires { length line.old + 26 ≤ LINE_CAPACITY }
    ensures text { line.new ≡ line.old ++ first_text first.now }
    ensures room { length line.new ≤ length line.old + 26 }
{
    match first {
        None => line.push_bytes(b"-"),
        Some(touch) => put_touch(line, touch),
    }
}

/// Appends what was read or written of the next page.
fn put_more(line: &mut Line, more: &Option<Touch>)
    requires { length line.old + 27 ≤ LINE_CAPACITY }
    ensures text { line.new ≡ line.old ++ more_text more.now }
    ensures room { length line.new ≤ length line.old + 27 }
{
    if let Some(touch) = more {
        line.push_bytes(b",");
        put_touch(line, touch);
    }
}

/// Appends what was read or written.
pub(crate) fn put_access(line: &mut Line, first: &Option<Touch>, more: &Option<Touch>)
    requires { length line.old + 53 ≤ LINE_CAPACITY }
    ensures text { line.new ≡ line.old ++ first_text first.now ++ more_text more.now }
    ensures room { length line.new ≤ length line.old + 53 }
{
    put_first(line, first);
    put_more(line, more);
}

/// Appends the word of an instruction and where it stood.
pub(crate) fn put_fetch(line: &mut Line, fetch: &Option<Touch>)
    requires { length line.old + 26 ≤ LINE_CAPACITY }
    ensures text { line.new ≡ line.old ++ fetch_text fetch.now }
    ensures room { length line.new ≤ length line.old + 26 }
{
    match fetch {
        None => line.push_bytes(b"-"),
        Some(touch) => {
            put_addresses(line, touch);
            line.push_bytes(&word_digits(u32::from_le_bytes(touch.bytes)));
        }
    }
}

/// Appends the value of the outside, or what an SC or a counter gave.
pub(crate) fn put_value(line: &mut Line, value: Option<u32>)
    requires { length line.old + 8 ≤ LINE_CAPACITY }
    ensures text { line.new ≡ line.old ++ value_text value }
    ensures room { length line.new ≤ length line.old + 8 }
{
    match value {
        None => line.push_bytes(b"-"),
        Some(value) => line.push_bytes(&word_digits(value)),
    }
}

/// Appends how a step ended.
pub fn put_ended(line: &mut Line, ended: Ended)
    requires { length line.old + 20 ≤ LINE_CAPACITY }
    ensures text { line.new ≡ line.old ++ ended_text ended }
    ensures room { length line.new ≤ length line.old + 20 }
{
    match ended {
        Ended::Retired => line.push_bytes(b"retired"),
        Ended::Trap(cause) => {
            line.push_bytes(b"trap ");
            line.push_number(cause);
        }
        Ended::Interrupt(number) => {
            line.push_bytes(b"interrupt ");
            line.push_number(number);
        }
    }
}

/// Appends pc and the registers from 1 on, each behind a space.
pub(crate) fn put_program(line: &mut Line, obs: &Obs)
    requires { length line.old + 288 ≤ LINE_CAPACITY }
    ensures text { line.new ≡ line.old ++ spaced_words (program_words obs.now.pc obs.now.x) }
    ensures room { length line.new ≡ length line.old + 288 }
{
    line.push_bytes(&spaced_word(obs.pc));
    put_words(line, &obs.x[1..]);
}

/// Appends an access of a program.
fn put_access_seen(line: &mut Line, seen: &Seen)
    requires { length line.old + 17 ≤ LINE_CAPACITY }
    ensures text { line.new ≡ line.old ++ address_text seen.now.va ++ joined_bytes (take seen.now.len seen.now.bytes) }
    ensures room { length line.new ≤ length line.old + 17 }
{
    put_address(line, seen.va);
    put_bytes(line, &seen.bytes[..(seen.len as usize).min(4)]);
}

/// Appends what a program read or wrote.
pub(crate) fn put_seen(line: &mut Line, seen: &Option<Seen>)
    requires { length line.old + 17 ≤ LINE_CAPACITY }
    ensures text { line.new ≡ line.old ++ seen_text seen.now }
    ensures room { length line.new ≤ length line.old + 17 }
{
    match seen {
        None => line.push_bytes(b"-"),
        Some(seen) => put_access_seen(line, seen),
    }
}
