//! Fields of a slice.

ghost use Rattle.std.specs.Prelude.{◌≡◌, ◌+◌, ◌-◌, ◌<◌, ◌≤◌, ◌^◌, nat_le, IfOk, IsSome, IsTrue, if◌then◌else◌};
ghost use Rattle.cx_codec.specs.Fields.{byte_at, varint_at, word_at};
ghost use Rattle.cx_codec.specs.Checks.{checked, is_between};
ghost use Rattle.cx_codec.specs.Reads.{Goes, Reads, over};
ghost use Rattle.cx_slicefmt.specs.Fault.{slice_met};
ghost use Rattle.cx_slicefmt.specs.Reading.{given_at, index_at, word_by};

use crate::fault::SliceFault;
use cx_codec::Bytes;
use cx_io::Source;

// Whether a number lies from `least` to `greatest`.
fn is_between(least: u64, greatest: u64, number: u64) -> bool
    ensures test { result ≡ is_between least greatest number }
    ensures bounds { IsTrue result → (least ≤ number) × (number ≤ greatest) }
{
    least <= number && number <= greatest
}

/// A number from `least` to `greatest`.
pub(crate) fn number<S: Source>(
    bytes: &mut Bytes,
    least: u64,
    greatest: u64,
    source: &mut S,
) -> Result<u64, SliceFault>
    requires live { IsTrue bytes.old.live }
    ensures reads { IsSome (S.left source.old) → Reads slice_met (λ n. n) (checked (is_between least greatest) varint_at)
        (over bytes.old (S.left source.old) (S.given source.old))
        (over bytes.new (S.left source.new) (S.given source.new)) result }
    ensures goes { Goes SliceFault.ReadFault bytes.old bytes.new (S.faults source.old) (S.faults source.new) result }
    ensures within { IfOk result (λ n. (least ≤ n) × (n ≤ greatest)) }
{
    let start = bytes.at();
    let number = bytes.varint(source)?;
    if !is_between(least, greatest, number) {
        bytes.refuse();
        return Err(SliceFault::Format(start));
    }
    Ok(number)
}

/// A flag or a tag: a byte from `least` to 1.
pub(crate) fn flag<S: Source>(
    bytes: &mut Bytes,
    least: u8,
    source: &mut S,
) -> Result<u8, SliceFault>
    requires live { IsTrue bytes.old.live }
    ensures reads { IsSome (S.left source.old) → Reads slice_met (λ b. b) (checked (is_between least 1) byte_at)
        (over bytes.old (S.left source.old) (S.given source.old))
        (over bytes.new (S.left source.new) (S.given source.new)) result }
    ensures goes { Goes SliceFault.ReadFault bytes.old bytes.new (S.faults source.old) (S.faults source.new) result }
    ensures within { IfOk result (λ b. b < 2) }
{
    let start = bytes.at();
    let flag = bytes.byte(source)?;
    if !is_between(least as u64, 1, flag as u64) {
        bytes.refuse();
        return Err(SliceFault::Format(start));
    }
    Ok(flag)
}

// Whether an address is a least one or above.
fn is_above(least: u64, address: u32) -> bool
    ensures { result ≡ nat_le least address }
{
    least <= address as u64
}

/// An address from `least` on.
pub(crate) fn address<S: Source>(
    bytes: &mut Bytes,
    least: u64,
    source: &mut S,
) -> Result<u32, SliceFault>
    requires live { IsTrue bytes.old.live }
    ensures reads { IsSome (S.left source.old) → Reads slice_met (λ w. w) (checked (λ w. nat_le least w) word_at)
        (over bytes.old (S.left source.old) (S.given source.old))
        (over bytes.new (S.left source.new) (S.given source.new)) result }
    ensures goes { Goes SliceFault.ReadFault bytes.old bytes.new (S.faults source.old) (S.faults source.new) result }
{
    let start = bytes.at();
    let word = bytes.word(source)?;
    if !is_above(least, word) {
        bytes.refuse();
        return Err(SliceFault::Format(start));
    }
    Ok(word)
}

/// The last index before a least one; 0 where there is none.
pub(crate) fn last_before(least: u64) -> u64
    ensures { result ≡ least - 1 }
{
    least.saturating_sub(1)
}

// Whether an index lies so far behind the last that it is from `least` to `greatest`.
fn is_near(least: u64, greatest: u64, distance: u64) -> bool
    requires least { least < 2 ^ 62 }
    requires greatest { greatest < 2 ^ 62 }
    ensures test { result ≡ is_between least greatest (least - 1 + distance) }
    ensures bounds { IsTrue result → (least ≤ least - 1 + distance) × (least - 1 + distance ≤ greatest) }
{
    distance <= greatest && is_between(least, greatest, last_before(least) + distance)
}

// How far an index from `least` to `greatest` is from the last.
fn distance<S: Source>(
    bytes: &mut Bytes,
    least: u64,
    greatest: u64,
    source: &mut S,
) -> Result<u64, SliceFault>
    requires live { IsTrue bytes.old.live }
    requires least { least < 2 ^ 62 }
    requires greatest { greatest < 2 ^ 62 }
    ensures reads { IsSome (S.left source.old) → Reads slice_met (λ d. d) (checked (λ d. is_between least greatest (least - 1 + d)) varint_at)
        (over bytes.old (S.left source.old) (S.given source.old))
        (over bytes.new (S.left source.new) (S.given source.new)) result }
    ensures goes { Goes SliceFault.ReadFault bytes.old bytes.new (S.faults source.old) (S.faults source.new) result }
    ensures within { IfOk result (λ d. (least ≤ least - 1 + d) × (least - 1 + d ≤ greatest)) }
{
    let start = bytes.at();
    let distance = bytes.varint(source)?;
    if !is_near(least, greatest, distance) {
        bytes.refuse();
        return Err(SliceFault::Format(start));
    }
    Ok(distance)
}

/// An index from `least` to `greatest`, by its distance from the last.
pub(crate) fn index<S: Source>(
    bytes: &mut Bytes,
    least: u64,
    greatest: u64,
    source: &mut S,
) -> Result<u64, SliceFault>
    requires live { IsTrue bytes.old.live }
    requires least { least < 2 ^ 62 }
    requires greatest { greatest < 2 ^ 62 }
    ensures reads { IsSome (S.left source.old) → Reads slice_met (λ n. n) (index_at least greatest)
        (over bytes.old (S.left source.old) (S.given source.old))
        (over bytes.new (S.left source.new) (S.given source.new)) result }
    ensures goes { Goes SliceFault.ReadFault bytes.old bytes.new (S.faults source.old) (S.faults source.new) result }
    ensures within { IfOk result (λ n. (least ≤ n) × (n ≤ greatest)) }
{
    let distance = distance(bytes, least, greatest, source)?;
    Ok(last_before(least) + distance)
}

/// A word where a bit or a flag says that there is one.
pub(crate) fn word_if<S: Source>(
    bytes: &mut Bytes,
    bit: u32,
    source: &mut S,
) -> Result<Option<u32>, SliceFault>
    requires live { IsTrue bytes.old.live }
    requires bit { bit < 2 }
    ensures reads { IsSome (S.left source.old) → Reads slice_met (λ word. word) (word_by bit)
        (over bytes.old (S.left source.old) (S.given source.old))
        (over bytes.new (S.left source.new) (S.given source.new)) result }
    ensures goes { Goes SliceFault.ReadFault bytes.old bytes.new (S.faults source.old) (S.faults source.new) result }
{
    let _ = bytes.at();
    if bit == 0 {
        return Ok(None);
    }
    Ok(Some(bytes.word(source)?))
}

/// 1 where something holds, else 0.
pub(crate) fn one_if(holds: bool) -> u8
    ensures { result ≡ if holds then 1 else 0 }
{
    if holds { 1 } else { 0 }
}

/// What is given from outside; it is there where an item is needed.
pub(crate) fn given<S: Source>(
    bytes: &mut Bytes,
    needed: bool,
    source: &mut S,
) -> Result<Option<u32>, SliceFault>
    requires live { IsTrue bytes.old.live }
    ensures reads { IsSome (S.left source.old) → Reads slice_met (λ word. word) (given_at needed)
        (over bytes.old (S.left source.old) (S.given source.old))
        (over bytes.new (S.left source.new) (S.given source.new)) result }
    ensures goes { Goes SliceFault.ReadFault bytes.old bytes.new (S.faults source.old) (S.faults source.new) result }
{
    let flag = flag(bytes, one_if(needed), source)?;
    word_if(bytes, flag as u32, source)
}
