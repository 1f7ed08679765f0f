//! Fields of a call slice.

ghost use Rattle.std.specs.Prelude.{◌≡◌, ◌+◌, ◌<◌, ◌≤◌, ◌^◌, nat_le, IfOk, IsSome, IsTrue};
ghost use Rattle.cx_codec.specs.Fields.{byte_at, varint_at, word_at};
ghost use Rattle.cx_codec.specs.Checks.{checked, is_between};
ghost use Rattle.cx_codec.specs.Reads.{Goes, Reads, over};
ghost use Rattle.cx_slicefmt.specs.Fault.{slice_met};
ghost use Rattle.cx_slicefmt.specs.Reading.{word_by};
ghost use Rattle.cx_callfmt.specs.Reading.{count_at, record_index_at};
ghost use Rattle.cx_callfmt.specs.Rules.{may_come, may_end};

use cx_codec::Bytes;
use cx_io::Source;
use cx_slicefmt::SliceFault;

/// The number of steps that a slice may have.
const STEP_LIMIT: u64 = 1 << 48;

// Whether a number lies from `least` to `greatest`.
fn is_between(least: u64, greatest: u64, number: u64) -> bool
    ensures test { result ≡ is_between least greatest number }
    ensures bounds { IsTrue result → (least ≤ number) × (number ≤ greatest) }
{
    least <= number && number <= greatest
}

/// A number from `least` to `greatest`.
pub(crate) fn number<S: Source>(
    bytes: &mut Bytes,
    least: u64,
    greatest: u64,
    source: &mut S,
) -> Result<u64, SliceFault>
    requires live { IsTrue bytes.old.live }
    ensures reads { IsSome (S.left source.old) → Reads slice_met (λ n. n) (checked (is_between least greatest) varint_at)
        (over bytes.old (S.left source.old) (S.given source.old))
        (over bytes.new (S.left source.new) (S.given source.new)) result }
    ensures goes { Goes SliceFault.ReadFault bytes.old bytes.new (S.faults source.old) (S.faults source.new) result }
    ensures within { IfOk result (λ n. (least ≤ n) × (n ≤ greatest)) }
{
    let start = bytes.at();
    let number = bytes.varint(source)?;
    if !is_between(least, greatest, number) {
        bytes.refuse();
        return Err(SliceFault::Format(start));
    }
    Ok(number)
}

/// The tag of an entry.
pub(crate) fn tag<S: Source>(bytes: &mut Bytes, source: &mut S) -> Result<u8, SliceFault>
    requires live { IsTrue bytes.old.live }
    ensures reads { IsSome (S.left source.old) → Reads slice_met (λ b. b) (checked (is_between 0 3) byte_at)
        (over bytes.old (S.left source.old) (S.given source.old))
        (over bytes.new (S.left source.new) (S.given source.new)) result }
    ensures goes { Goes SliceFault.ReadFault bytes.old bytes.new (S.faults source.old) (S.faults source.new) result }
    ensures within { IfOk result (λ b. b ≤ 3) }
{
    let start = bytes.at();
    let tag = bytes.byte(source)?;
    if !is_between(0, 3, tag as u64) {
        bytes.refuse();
        return Err(SliceFault::Format(start));
    }
    Ok(tag)
}

// Whether an address is a least one or above.
fn is_above(least: u64, address: u32) -> bool
    ensures { result ≡ nat_le least address }
{
    least <= address as u64
}

/// An address from `least` on.
pub(crate) fn address<S: Source>(
    bytes: &mut Bytes,
    least: u64,
    source: &mut S,
) -> Result<u32, SliceFault>
    requires live { IsTrue bytes.old.live }
    ensures reads { IsSome (S.left source.old) → Reads slice_met (λ w. w) (checked (λ w. nat_le least w) word_at)
        (over bytes.old (S.left source.old) (S.given source.old))
        (over bytes.new (S.left source.new) (S.given source.new)) result }
    ensures goes { Goes SliceFault.ReadFault bytes.old bytes.new (S.faults source.old) (S.faults source.new) result }
{
    let start = bytes.at();
    let word = bytes.word(source)?;
    if !is_above(least, word) {
        bytes.refuse();
        return Err(SliceFault::Format(start));
    }
    Ok(word)
}

/// A word where a bit says that there is one.
pub(crate) fn word_if<S: Source>(
    bytes: &mut Bytes,
    bit: u32,
    source: &mut S,
) -> Result<Option<u32>, SliceFault>
    requires live { IsTrue bytes.old.live }
    requires bit { bit < 2 }
    ensures reads { IsSome (S.left source.old) → Reads slice_met (λ word. word) (word_by bit)
        (over bytes.old (S.left source.old) (S.given source.old))
        (over bytes.new (S.left source.new) (S.given source.new)) result }
    ensures goes { Goes SliceFault.ReadFault bytes.old bytes.new (S.faults source.old) (S.faults source.new) result }
{
    let _ = bytes.at();
    if bit == 0 {
        return Ok(None);
    }
    Ok(Some(bytes.word(source)?))
}

// Whether a record of a rank may stand so far behind the last one.
fn may_come(last: u64, least: u8, rank: u8, distance: u64) -> bool
    requires { last < 2 ^ 48 }
    ensures test { result ≡ may_come (record { index = last; least = least }) rank (last + distance) }
    ensures below { IsTrue result → last + distance < 2 ^ 48 }
{
    distance < STEP_LIMIT - last && (distance > 0 || least <= rank)
}

// How far a record of a rank is from the last one.
fn step<S: Source>(
    bytes: &mut Bytes,
    last: u64,
    least: u8,
    rank: u8,
    source: &mut S,
) -> Result<u64, SliceFault>
    requires live { IsTrue bytes.old.live }
    requires last { last < 2 ^ 48 }
    ensures reads { IsSome (S.left source.old) → Reads slice_met (λ d. d)
        (checked (λ d. may_come (record { index = last; least = least }) rank (last + d)) varint_at)
        (over bytes.old (S.left source.old) (S.given source.old))
        (over bytes.new (S.left source.new) (S.given source.new)) result }
    ensures goes { Goes SliceFault.ReadFault bytes.old bytes.new (S.faults source.old) (S.faults source.new) result }
    ensures below { IfOk result (λ d. last + d < 2 ^ 48) }
{
    let start = bytes.at();
    let distance = bytes.varint(source)?;
    if !may_come(last, least, rank, distance) {
        bytes.refuse();
        return Err(SliceFault::Format(start));
    }
    Ok(distance)
}

/// The index of a record of a rank, by its distance from the last one.
pub(crate) fn record_index<S: Source>(
    bytes: &mut Bytes,
    last: u64,
    least: u8,
    rank: u8,
    source: &mut S,
) -> Result<u64, SliceFault>
    requires live { IsTrue bytes.old.live }
    requires last { last < 2 ^ 48 }
    ensures reads { IsSome (S.left source.old) → Reads slice_met (λ n. n)
        (record_index_at (record { index = last; least = least }) rank)
        (over bytes.old (S.left source.old) (S.given source.old))
        (over bytes.new (S.left source.new) (S.given source.new)) result }
    ensures goes { Goes SliceFault.ReadFault bytes.old bytes.new (S.faults source.old) (S.faults source.new) result }
    ensures below { IfOk result (λ n. n < 2 ^ 48) }
{
    let distance = step(bytes, last, least, rank, source)?;
    Ok(last + distance)
}

// Whether the end may be so far behind the last index.
fn may_end(last: u64, least: u8, distance: u64) -> bool
    requires { last < 2 ^ 48 }
    ensures test { result ≡ may_end (record { index = last; least = least }) (last + distance) }
    ensures below { IsTrue result → last + distance ≤ 2 ^ 48 }
{
    distance > 0 && distance <= STEP_LIMIT - last
}

// How far the end is from the last index.
fn end_step<S: Source>(
    bytes: &mut Bytes,
    last: u64,
    least: u8,
    source: &mut S,
) -> Result<u64, SliceFault>
    requires live { IsTrue bytes.old.live }
    requires last { last < 2 ^ 48 }
    ensures reads { IsSome (S.left source.old) → Reads slice_met (λ d. d)
        (checked (λ d. may_end (record { index = last; least = least }) (last + d)) varint_at)
        (over bytes.old (S.left source.old) (S.given source.old))
        (over bytes.new (S.left source.new) (S.given source.new)) result }
    ensures goes { Goes SliceFault.ReadFault bytes.old bytes.new (S.faults source.old) (S.faults source.new) result }
    ensures below { IfOk result (λ d. last + d ≤ 2 ^ 48) }
{
    let start = bytes.at();
    let distance = bytes.varint(source)?;
    if !may_end(last, least, distance) {
        bytes.refuse();
        return Err(SliceFault::Format(start));
    }
    Ok(distance)
}

/// The number of steps, by its distance from the last index.
pub(crate) fn count<S: Source>(
    bytes: &mut Bytes,
    last: u64,
    least: u8,
    source: &mut S,
) -> Result<u64, SliceFault>
    requires live { IsTrue bytes.old.live }
    requires last { last < 2 ^ 48 }
    ensures reads { IsSome (S.left source.old) → Reads slice_met (λ n. n)
        (count_at (record { index = last; least = least }))
        (over bytes.old (S.left source.old) (S.given source.old))
        (over bytes.new (S.left source.new) (S.given source.new)) result }
    ensures goes { Goes SliceFault.ReadFault bytes.old bytes.new (S.faults source.old) (S.faults source.new) result }
{
    let distance = end_step(bytes, last, least, source)?;
    Ok(last + distance)
}
