//! Reading a group, or the end.

ghost use Rattle.std.specs.Prelude.{◌≡◌, ◌<◌, ◌≤◌, ◌^◌, ◌&&◌, is_none, IfOk, IsSome, IsTrue};
ghost use Rattle.std.specs.List.{list_all};
ghost use Rattle.cx_codec.specs.Checks.{close_at};
ghost use Rattle.cx_codec.specs.Reads.{Ends, Goes, Reads, always, over};
ghost use Rattle.cx_slices.specs.Items.{is_nil};
ghost use Rattle.cx_slicefmt.specs.Engine.{entry_in, items_in, least_after};
ghost use Rattle.cx_slicefmt.specs.Fault.{slice_met};
ghost use Rattle.cx_slicefmt.specs.Reading.{entry_at, entry_by, items_at};
ghost use Rattle.cx_slicefmt.specs.Rules.{process};

use crate::fault::SliceFault;
use crate::fields::{flag, given, index, number, one_if};
use crate::items::{Either, GroupItems};
use crate::masks::masked;
use crate::pieces::run_bytes;
use arrayvec::ArrayVec;
use cx_codec::Bytes;
use cx_io::Source;

/// The number of steps that a slice may have.
const STEP_LIMIT: u64 = 1 << 48;

// Whether there is no byte.
fn has_none(bytes: &ArrayVec<(u32, u8), 64>) -> bool
    ensures { result ≡ is_nil bytes.now.items }
{
    bytes.len() == 0
}

// Whether there is no word.
fn has_no_word(words: &[Option<u32>; 32]) -> bool
    ensures { result ≡ list_all is_none words.now }
{
    words.iter().all(|word| word.is_none())
}

// Whether a group has no word and no byte.
fn is_bare(words: &[Option<u32>; 32], bytes: &ArrayVec<(u32, u8), 64>) -> bool
    ensures { result ≡ (list_all is_none words.now && is_nil bytes.now.items) }
{
    has_no_word(words) && has_none(bytes)
}

// The items of a group.
fn group_items<S: Source>(bytes: &mut Bytes, source: &mut S) -> Result<GroupItems, SliceFault>
    requires live { IsTrue bytes.old.live }
    ensures reads { IsSome (S.left source.old) → Reads slice_met items_in (items_at process)
        (over bytes.old (S.left source.old) (S.given source.old))
        (over bytes.new (S.left source.new) (S.given source.new)) result }
    ensures goes { Goes SliceFault.ReadFault bytes.old bytes.new (S.faults source.old) (S.faults source.new) result }
{
    let words = masked(bytes, source)?;
    let count = number(bytes, 0, 8, source)?;
    let pairs = run_bytes(bytes, count as usize, source)?;
    let needed = is_bare(&words, &pairs);
    let given = given(bytes, needed, source)?;
    Ok(GroupItems {
        words,
        bytes: pairs,
        given,
    })
}

// The end, behind its tag.
fn end<S: Source>(bytes: &mut Bytes, least: u64, source: &mut S) -> Result<Either, SliceFault>
    requires live { IsTrue bytes.old.live }
    requires least { least ≤ 2 ^ 48 }
    ensures reads { IsSome (S.left source.old) → Reads slice_met entry_in (entry_by process least 0)
        (over bytes.old (S.left source.old) (S.given source.old))
        (over bytes.new (S.left source.new) (S.given source.new)) result }
    ensures goes { Goes SliceFault.ReadFault bytes.old bytes.new (S.faults source.old) (S.faults source.new) result }
    ensures below { IfOk result (λ e. least_after least e ≤ 2 ^ 48) }
{
    let count = index(bytes, least, STEP_LIMIT, source)?;
    Ok(Either::End(count))
}

// A group, behind its tag.
fn group<S: Source>(bytes: &mut Bytes, least: u64, source: &mut S) -> Result<Either, SliceFault>
    requires live { IsTrue bytes.old.live }
    requires least { least ≤ 2 ^ 48 }
    ensures reads { IsSome (S.left source.old) → Reads slice_met entry_in (entry_by process least 1)
        (over bytes.old (S.left source.old) (S.given source.old))
        (over bytes.new (S.left source.new) (S.given source.new)) result }
    ensures goes { Goes SliceFault.ReadFault bytes.old bytes.new (S.faults source.old) (S.faults source.new) result }
    ensures below { IfOk result (λ e. least_after least e ≤ 2 ^ 48) }
{
    let index = index(bytes, least, STEP_LIMIT - 1, source)?;
    let items = group_items(bytes, source)?;
    Ok(Either::Group(index, items))
}

/// A group or the end, where an index has to be `least` or above.
pub(crate) fn entry<S: Source>(
    bytes: &mut Bytes,
    least: u64,
    source: &mut S,
) -> Result<Either, SliceFault>
    requires live { IsTrue bytes.old.live }
    requires least { least ≤ 2 ^ 48 }
    ensures reads { IsSome (S.left source.old) → Reads slice_met entry_in (entry_at process least)
        (over bytes.old (S.left source.old) (S.given source.old))
        (over bytes.new (S.left source.new) (S.given source.new)) result }
    ensures goes { Goes SliceFault.ReadFault bytes.old bytes.new (S.faults source.old) (S.faults source.new) result }
    ensures below { IfOk result (λ e. least_after least e ≤ 2 ^ 48) }
{
    let tag = flag(bytes, one_if(least == 0), source)?;
    if tag == 0 {
        return end(bytes, least, source);
    }
    group(bytes, least, source)
}

/// Sees that nothing follows the end.
pub(crate) fn close<S: Source>(bytes: &mut Bytes, source: &mut S) -> Result<(), SliceFault>
    requires { IsTrue bytes.old.live }
    ensures ends { IsSome (S.left source.old) → Ends slice_met (always tt) tt close_at
        (over bytes.old (S.left source.old) (S.given source.old))
        (over bytes.new (S.left source.new) (S.given source.new)) result }
    ensures goes { Goes SliceFault.ReadFault bytes.old bytes.new (S.faults source.old) (S.faults source.new) result }
{
    let start = bytes.at();
    if bytes.at_end(source)? {
        return Ok(());
    }
    bytes.refuse();
    Err(SliceFault::Format(start))
}
