//! Fields of a recording that have to pass a test: another value is bad at its first byte.

ghost use Rattle.std.specs.Prelude.{◌≡◌, ◌≢◌, ◌+◌, ◌*◌, ◌^◌, ◌<◌, ◌≤◌, nat_le, nat_lt, ◌==◌, ◌&&◌, not, true, IfOk};
ghost use Rattle.std.specs.Prelude.{◌↔◌};
ghost use Rattle.std.specs.Prelude.{OnOk, IsSome, IsTrue};
ghost use Rattle.std.specs.Int.RustNames.{bit_and};
ghost use Rattle.cx_map.specs.Map.{size_of_pages};
ghost use Rattle.cx_codec.specs.Fields.{byte_at, varint_at, word_at};
ghost use Rattle.cx_codec.specs.Reads.{Goes, Reads, over};
ghost use Rattle.cx_csr.specs.Rules.{Admits, IsWithin, admits, rule_at};
ghost use Rattle.cx_log.specs.Fault.{log_met};
ghost use Rattle.cx_codec.specs.Checks.{checked};
ghost use Rattle.cx_log.specs.Fields.{varint_between};
ghost use Rattle.cx_log.specs.Reading.{flag_at};
ghost use Rattle.cx_log.specs.Records.{may_stand};

use crate::fault::LogFault;
use crate::kind::Kind;
use crate::limits::STEP_LIMIT;
use crate::order::Behind;
use cx_codec::Bytes;
use cx_csr::{LINE_INTERRUPTS, Lines, State};
use cx_io::Source;
use cx_map::{MOST_PAGES, PAGE_SIZE, RAM_START};

// Whether a number lies from `least` to `greatest`.
fn is_between(number: u64, least: u64, greatest: u64) -> bool
    ensures test { result ≡ (nat_le least number && nat_le number greatest) }
    ensures bounds { IsTrue result → (least ≤ number) × (number ≤ greatest) }
{
    least <= number && number <= greatest
}

/// A number from `least` to `greatest`. `Format` comes exactly where it isn't one or isn't whole, and `ReadFault` only
/// where the source's count of faults rose.
pub fn varint_between<S: Source>(
    bytes: &mut Bytes,
    least: u64,
    greatest: u64,
    source: &mut S,
) -> Result<u64, LogFault>
    requires { IsTrue bytes.old.live }
    ensures reads { IsSome (S.left source.old) → Reads log_met (λ n. n) (varint_between least greatest)
        (over bytes.old (S.left source.old) (S.given source.old))
        (over bytes.new (S.left source.new) (S.given source.new)) result }
    ensures goes { Goes LogFault.ReadFault bytes.old bytes.new (S.faults source.old) (S.faults source.new) result }
    ensures at { OnOk result (bytes.old.at < bytes.new.at) }
    ensures within { IfOk result (λ n. (least ≤ n) × (n ≤ greatest)) }
{
    let start = bytes.at();
    let number = bytes.varint(source)?;
    if !is_between(number, least, greatest) {
        bytes.refuse();
        return Err(LogFault::Format(start));
    }
    Ok(number)
}

/// The flag of the hart: a byte, 0 or 1. `Format` comes exactly where it is another byte or isn't there, and `ReadFault`
/// only where the source's count of faults rose.
pub fn flag<S: Source>(bytes: &mut Bytes, source: &mut S) -> Result<u8, LogFault>
    requires { IsTrue bytes.old.live }
    ensures reads { IsSome (S.left source.old) → Reads log_met (λ b. b) flag_at
        (over bytes.old (S.left source.old) (S.given source.old))
        (over bytes.new (S.left source.new) (S.given source.new)) result }
    ensures goes { Goes LogFault.ReadFault bytes.old bytes.new (S.faults source.old) (S.faults source.new) result }
{
    let start = bytes.at();
    let flag = bytes.byte(source)?;
    if flag > 1 {
        bytes.refuse();
        return Err(LogFault::Format(start));
    }
    Ok(flag)
}

/// The word of a state at an index, behind another word.
pub(crate) fn state_word<S: Source>(
    bytes: &mut Bytes,
    index: u8,
    before: u32,
    pages: u32,
    source: &mut S,
) -> Result<u32, LogFault>
    requires live { IsTrue bytes.old.live }
    requires index { index < 58 }
    ensures reads { IsSome (S.left source.old)
        → Reads log_met (λ w. w) (checked (λ w. admits pages before (rule_at index) w) word_at)
        (over bytes.old (S.left source.old) (S.given source.old))
        (over bytes.new (S.left source.new) (S.given source.new)) result }
    ensures goes { Goes LogFault.ReadFault bytes.old bytes.new (S.faults source.old) (S.faults source.new) result }
    ensures fits { IfOk result (Admits pages before (rule_at index)) }
{
    let start = bytes.at();
    let word = bytes.word(source)?;
    if !State::word_fits(index, word, before, pages) {
        bytes.refuse();
        return Err(LogFault::Format(start));
    }
    Ok(word)
}

/// The tag of a record.
pub(crate) fn tag<S: Source>(bytes: &mut Bytes, source: &mut S) -> Result<u8, LogFault>
    requires { IsTrue bytes.old.live }
    ensures reads { IsSome (S.left source.old) → Reads log_met (λ t. t) (checked (λ t. nat_lt t 5) byte_at)
        (over bytes.old (S.left source.old) (S.given source.old))
        (over bytes.new (S.left source.new) (S.given source.new)) result }
    ensures goes { Goes LogFault.ReadFault bytes.old bytes.new (S.faults source.old) (S.faults source.new) result }
    ensures at { OnOk result (bytes.old.at < bytes.new.at) }
    ensures within { IfOk result (λ t. t < 5) }
{
    let start = bytes.at();
    let tag = bytes.byte(source)?;
    if tag >= 5 {
        bytes.refuse();
        return Err(LogFault::Format(start));
    }
    Ok(tag)
}

// Whether a record of a kind may stand so many steps behind the last one.
#[tactic(auto, using(crate::proofs::Steps::far))]
fn may_stand_behind(behind: &Behind, kind: Kind, distance: u64) -> bool
    requires { behind.now.step ≤ STEP_LIMIT }
    ensures test { result ≡ may_stand behind.now kind (behind.now.step + distance) }
    ensures small { IsTrue result → distance ≤ STEP_LIMIT }
{
    distance <= STEP_LIMIT && behind.may_stand(kind, behind.step + distance)
}

/// How many steps behind the last record a record of a kind stands.
pub(crate) fn distance<S: Source>(
    bytes: &mut Bytes,
    behind: &Behind,
    kind: Kind,
    source: &mut S,
) -> Result<u64, LogFault>
    requires live { IsTrue bytes.old.live }
    requires small { behind.now.step ≤ STEP_LIMIT }
    ensures reads { IsSome (S.left source.old)
        → Reads log_met (λ d. d) (checked (λ d. may_stand behind.now kind (behind.now.step + d)) varint_at)
        (over bytes.old (S.left source.old) (S.given source.old))
        (over bytes.new (S.left source.new) (S.given source.new)) result }
    ensures goes { Goes LogFault.ReadFault bytes.old bytes.new (S.faults source.old) (S.faults source.new) result }
    ensures at { OnOk result (bytes.old.at < bytes.new.at) }
    ensures stands { IfOk result (λ d. may_stand behind.now kind (behind.now.step + d) ≡ true) }
    ensures near { IfOk result (λ d. d ≤ STEP_LIMIT) }
{
    let start = bytes.at();
    let distance = bytes.varint(source)?;
    if !may_stand_behind(behind, kind, distance) {
        bytes.refuse();
        return Err(LogFault::Format(start));
    }
    Ok(distance)
}

/// A place in RAM of so many pages.
pub(crate) fn ram_place<S: Source>(
    bytes: &mut Bytes,
    pages: u32,
    source: &mut S,
) -> Result<u32, LogFault>
    requires live { IsTrue bytes.old.live }
    requires pages { pages ≤ MOST_PAGES }
    ensures reads { IsSome (S.left source.old)
        → Reads log_met (λ w. w) (checked (λ w. nat_le RAM_START w && nat_lt w (RAM_START + size_of_pages pages))
        word_at)
        (over bytes.old (S.left source.old) (S.given source.old))
        (over bytes.new (S.left source.new) (S.given source.new)) result }
    ensures goes { Goes LogFault.ReadFault bytes.old bytes.new (S.faults source.old) (S.faults source.new) result }
    ensures at { OnOk result (bytes.old.at < bytes.new.at) }
    ensures within { IfOk result (λ w. (RAM_START ≤ w) × (w < RAM_START + size_of_pages pages)) }
{
    let start = bytes.at();
    let place = bytes.word(source)?;
    if !is_in_ram(pages, place) {
        bytes.refuse();
        return Err(LogFault::Format(start));
    }
    Ok(place)
}

// Whether a place lies in RAM of so many pages.
fn is_in_ram(pages: u32, place: u32) -> bool
    requires { pages ≤ MOST_PAGES }
    ensures test { result ≡ (nat_le RAM_START place && nat_lt place (RAM_START + size_of_pages pages)) }
    ensures within { IsTrue result → (RAM_START ≤ place) × (place < RAM_START + size_of_pages pages) }
{
    RAM_START <= place && (place as u64) < RAM_START as u64 + pages as u64 * PAGE_SIZE as u64
}

/// Interrupt lines, as a word: lines that the hart has, other than those that stand.
pub(crate) fn lines_word<S: Source>(
    bytes: &mut Bytes,
    standing: Lines,
    source: &mut S,
) -> Result<u32, LogFault>
    requires { IsTrue bytes.old.live }
    ensures reads { IsSome (S.left source.old)
        → Reads log_met (λ w. w) (checked (λ w. bit_and w LINE_INTERRUPTS == w && not (w == standing.0)) word_at)
        (over bytes.old (S.left source.old) (S.given source.old))
        (over bytes.new (S.left source.new) (S.given source.new)) result }
    ensures goes { Goes LogFault.ReadFault bytes.old bytes.new (S.faults source.old) (S.faults source.new) result }
    ensures at { OnOk result (bytes.old.at < bytes.new.at) }
    ensures within { IfOk result (IsWithin LINE_INTERRUPTS) }
    ensures other { IfOk result (λ w. w ≢ standing.0) }
{
    let start = bytes.at();
    let word = bytes.word(source)?;
    if !is_change(word, standing) {
        bytes.refuse();
        return Err(LogFault::Format(start));
    }
    Ok(word)
}

/// Whether a word is lines that the hart has, and others than those that stand.
pub(crate) fn is_change(word: u32, standing: Lines) -> bool
    ensures test { result ≡ (bit_and word LINE_INTERRUPTS == word && not (word == standing.0)) }
    ensures change { IsTrue result ↔ (IsWithin LINE_INTERRUPTS word × (word ≢ standing.0)) }
{
    word & LINE_INTERRUPTS == word && word != standing.0
}
