//! Reading what a record begins with.

ghost use Rattle.std.specs.Prelude.{◌≡◌, ◌<◌, ◌≤◌, ◌^◌, ◌&&◌, is_none, IfOk, IsSome, IsTrue, if◌then◌else◌};
ghost use Rattle.std.specs.List.{list_all};
ghost use Rattle.cx_codec.specs.Checks.{close_at};
ghost use Rattle.cx_codec.specs.Reads.{Ends, Goes, Reads, always, over};
ghost use Rattle.cx_slicefmt.specs.Fault.{slice_met};
ghost use Rattle.cx_callfmt.specs.Beginning.{
  begun_at,
  call_begun_at,
  end_begun_at,
  head_begun_at,
  items_begun_at,
  value_begun_at,
};
ghost use Rattle.cx_callfmt.specs.Engine.{behind_found, begun_in, head_in};

use crate::fields::{count, number, record_index, tag};
use crate::found::{CallFound, HeadFound};
use crate::masks::masked;
use cx_codec::Bytes;
use cx_io::Source;
use cx_slicefmt::SliceFault;

/// The most runs that a head may have.
const MOST_RUNS: u64 = (1 << 32) - 1;

// Whether there is no word.
fn has_no_word(words: &[Option<u32>; 32]) -> bool
    ensures { result ≡ list_all is_none words.now }
{
    words.iter().all(|word| word.is_none())
}

// The least number of runs of a head with these words: 1 where an item is needed and there is no word, else 0.
fn least_runs(needed: bool, words: &[Option<u32>; 32]) -> u64
    ensures { result ≡ if needed && list_all is_none words.now then 1 else 0 }
{
    if needed && has_no_word(words) { 1 } else { 0 }
}

/// The words of a head, and how many runs its bytes stand in.
pub(crate) fn head<S: Source>(
    bytes: &mut Bytes,
    needed: bool,
    source: &mut S,
) -> Result<HeadFound, SliceFault>
    requires live { IsTrue bytes.old.live }
    ensures reads { IsSome (S.left source.old) → Reads slice_met head_in (head_begun_at needed)
        (over bytes.old (S.left source.old) (S.given source.old))
        (over bytes.new (S.left source.new) (S.given source.new)) result }
    ensures goes { Goes SliceFault.ReadFault bytes.old bytes.new (S.faults source.old) (S.faults source.new) result }
{
    let words = masked(bytes, source)?;
    let least = least_runs(needed, &words);
    let runs = number(bytes, least, MOST_RUNS, source)?;
    Ok(HeadFound { words, runs })
}

// What comes before a step, behind its tag.
fn items<S: Source>(
    bytes: &mut Bytes,
    last: u64,
    least: u8,
    source: &mut S,
) -> Result<CallFound, SliceFault>
    requires live { IsTrue bytes.old.live }
    requires last { last < 2 ^ 48 }
    ensures reads { IsSome (S.left source.old) → Reads slice_met begun_in
        (items_begun_at (record { index = last; least = least }))
        (over bytes.old (S.left source.old) (S.given source.old))
        (over bytes.new (S.left source.new) (S.given source.new)) result }
    ensures goes { Goes SliceFault.ReadFault bytes.old bytes.new (S.faults source.old) (S.faults source.new) result }
    ensures below { IfOk result (λ f. (behind_found (record { index = last; least = least }) f).index < 2 ^ 48) }
{
    let index = record_index(bytes, last, least, 0, source)?;
    let head = head(bytes, true, source)?;
    Ok(CallFound::Items(index, head))
}

// A value, behind its tag.
fn value<S: Source>(
    bytes: &mut Bytes,
    last: u64,
    least: u8,
    source: &mut S,
) -> Result<CallFound, SliceFault>
    requires live { IsTrue bytes.old.live }
    requires last { last < 2 ^ 48 }
    ensures reads { IsSome (S.left source.old) → Reads slice_met begun_in
        (value_begun_at (record { index = last; least = least }))
        (over bytes.old (S.left source.old) (S.given source.old))
        (over bytes.new (S.left source.new) (S.given source.new)) result }
    ensures goes { Goes SliceFault.ReadFault bytes.old bytes.new (S.faults source.old) (S.faults source.new) result }
    ensures below { IfOk result (λ f. (behind_found (record { index = last; least = least }) f).index < 2 ^ 48) }
{
    let index = record_index(bytes, last, least, 1, source)?;
    let word = bytes.word(source)?;
    Ok(CallFound::Value(index, word))
}

// A call, behind its tag.
fn call<S: Source>(
    bytes: &mut Bytes,
    last: u64,
    least: u8,
    source: &mut S,
) -> Result<CallFound, SliceFault>
    requires live { IsTrue bytes.old.live }
    requires last { last < 2 ^ 48 }
    ensures reads { IsSome (S.left source.old) → Reads slice_met begun_in
        (call_begun_at (record { index = last; least = least }))
        (over bytes.old (S.left source.old) (S.given source.old))
        (over bytes.new (S.left source.new) (S.given source.new)) result }
    ensures goes { Goes SliceFault.ReadFault bytes.old bytes.new (S.faults source.old) (S.faults source.new) result }
    ensures below { IfOk result (λ f. (behind_found (record { index = last; least = least }) f).index < 2 ^ 48) }
{
    let index = record_index(bytes, last, least, 2, source)?;
    let number = bytes.word(source)?;
    let head = head(bytes, false, source)?;
    Ok(CallFound::Call(index, number, head))
}

// The end, behind its tag.
fn end<S: Source>(
    bytes: &mut Bytes,
    last: u64,
    least: u8,
    source: &mut S,
) -> Result<CallFound, SliceFault>
    requires live { IsTrue bytes.old.live }
    requires last { last < 2 ^ 48 }
    ensures reads { IsSome (S.left source.old) → Reads slice_met begun_in
        (end_begun_at (record { index = last; least = least }))
        (over bytes.old (S.left source.old) (S.given source.old))
        (over bytes.new (S.left source.new) (S.given source.new)) result }
    ensures goes { Goes SliceFault.ReadFault bytes.old bytes.new (S.faults source.old) (S.faults source.new) result }
    ensures below { IfOk result (λ f. (behind_found (record { index = last; least = least }) f).index < 2 ^ 48) }
{
    let count = count(bytes, last, least, source)?;
    Ok(CallFound::End(count))
}

/// What a record begins with, or the end, behind a record at `last`, at which `least` is the least rank that may stand.
pub(crate) fn begin<S: Source>(
    bytes: &mut Bytes,
    last: u64,
    least: u8,
    source: &mut S,
) -> Result<CallFound, SliceFault>
    requires live { IsTrue bytes.old.live }
    requires last { last < 2 ^ 48 }
    ensures reads { IsSome (S.left source.old) → Reads slice_met begun_in
        (begun_at (record { index = last; least = least }))
        (over bytes.old (S.left source.old) (S.given source.old))
        (over bytes.new (S.left source.new) (S.given source.new)) result }
    ensures goes { Goes SliceFault.ReadFault bytes.old bytes.new (S.faults source.old) (S.faults source.new) result }
    ensures below { IfOk result (λ f. (behind_found (record { index = last; least = least }) f).index < 2 ^ 48) }
{
    let tag = tag(bytes, source)?;
    if tag == 0 {
        return end(bytes, last, least, source);
    }
    if tag == 1 {
        return call(bytes, last, least, source);
    }
    if tag == 2 {
        return items(bytes, last, least, source);
    }
    value(bytes, last, least, source)
}

/// Sees that nothing follows the end.
pub(crate) fn close<S: Source>(bytes: &mut Bytes, source: &mut S) -> Result<(), SliceFault>
    requires { IsTrue bytes.old.live }
    ensures ends { IsSome (S.left source.old) → Ends slice_met (always tt) tt close_at
        (over bytes.old (S.left source.old) (S.given source.old))
        (over bytes.new (S.left source.new) (S.given source.new)) result }
    ensures goes { Goes SliceFault.ReadFault bytes.old bytes.new (S.faults source.old) (S.faults source.new) result }
{
    let start = bytes.at();
    if bytes.at_end(source)? {
        return Ok(());
    }
    bytes.refuse();
    Err(SliceFault::Format(start))
}
