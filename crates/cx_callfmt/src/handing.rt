//! The bytes of a head, one by one.

ghost use Rattle.std.specs.Prelude.{◌≡◌, ◌+◌, ◌-◌, ◌≤◌, ◌<◌, ◌^◌, min, IfOk, IfSome, IsSome, IsTrue};
ghost use Rattle.cx_codec.specs.Reads.{Goes, Reads, over};
ghost use Rattle.cx_slicefmt.specs.Fault.{slice_met};
ghost use Rattle.cx_callfmt.specs.Engine.{EndsRest, RestFits, RestShrinks, handed_in, pending_in};
ghost use Rattle.cx_callfmt.specs.Handing.{next_byte_at, next_in, next_run};

use crate::fields::{address, number};
use cx_codec::Bytes;
use cx_io::Source;
use cx_slicefmt::SliceFault;

/// What is left of the bytes of a head: `size` of a run, from `va` on, and `runs` behind it, from `least` on.
#[derive(Clone, Copy, Debug)]
pub struct Rest {
    /// The address of the next byte of the run.
    pub va: u64,
    /// How many bytes of the run are left.
    pub size: u64,
    /// How many runs come behind it.
    pub runs: u64,
    /// The least address that the next of them may have.
    pub least: u64,
}

/// A byte, with its address, and what is left behind it.
#[derive(Clone, Copy, Debug)]
pub struct NextByte {
    /// Its address.
    pub va: u32,
    /// The byte.
    pub byte: u8,
    /// What is left.
    pub left: Rest,
}

// How many bytes a run may have that begins at an address.
fn room_at(va: u32) -> u64
    ensures { result ≡ min (2 ^ 32) (2 ^ 32 - va) }
{
    (1 << 32) - va as u64
}

// A byte at an address, with so many behind it in its run.
fn byte_in<S: Source>(
    bytes: &mut Bytes,
    va: u32,
    size: u64,
    runs: u64,
    least: u64,
    source: &mut S,
) -> Result<Option<NextByte>, SliceFault>
    requires live { IsTrue bytes.old.live }
    requires fits { va + 1 + size ≤ 2 ^ 32 }
    requires least { least ≤ 2 ^ 32 + 1 }
    ensures reads { IsSome (S.left source.old) → Reads slice_met handed_in (next_in va size runs least)
        (over bytes.old (S.left source.old) (S.given source.old))
        (over bytes.new (S.left source.new) (S.given source.new)) result }
    ensures goes { Goes SliceFault.ReadFault bytes.old bytes.new (S.faults source.old) (S.faults source.new) result }
    ensures fits { IfOk result (λ n. IfSome n (λ b. RestFits b.left)) }
    ensures some { IfOk result (λ n. IsSome n) }
    ensures less { IfOk result (RestShrinks (record { va = va; size = size + 1; runs = runs; least = least })) }
{
    let byte = bytes.byte(source)?;
    let left = Rest {
        va: va as u64 + 1,
        size,
        runs,
        least,
    };
    Ok(Some(NextByte { va, byte, left }))
}

// The first byte of the next run, with so many runs behind it.
fn byte_of_run<S: Source>(
    bytes: &mut Bytes,
    runs: u64,
    least: u64,
    source: &mut S,
) -> Result<Option<NextByte>, SliceFault>
    requires live { IsTrue bytes.old.live }
    ensures reads { IsSome (S.left source.old) → Reads slice_met handed_in (next_run (2 ^ 32) runs least)
        (over bytes.old (S.left source.old) (S.given source.old))
        (over bytes.new (S.left source.new) (S.given source.new)) result }
    ensures goes { Goes SliceFault.ReadFault bytes.old bytes.new (S.faults source.old) (S.faults source.new) result }
    ensures fits { IfOk result (λ n. IfSome n (λ b. RestFits b.left)) }
    ensures some { IfOk result (λ n. IsSome n) }
    ensures less { IfOk result (RestShrinks (record { va = 0; size = 0; runs = runs + 1; least = least })) }
{
    let va = address(bytes, least, source)?;
    let size = number(bytes, 1, room_at(va), source)?;
    byte_in(bytes, va, size - 1, runs, va as u64 + size + 1, source)
}

/// The next byte of what is left, or none.
pub(crate) fn next_byte<S: Source>(
    bytes: &mut Bytes,
    left: Rest,
    source: &mut S,
) -> Result<Option<NextByte>, SliceFault>
    requires live { IsTrue bytes.old.live }
    requires fits { RestFits left }
    ensures reads { IsSome (S.left source.old)
        → Reads slice_met handed_in (next_byte_at (2 ^ 32) (pending_in left))
        (over bytes.old (S.left source.old) (S.given source.old))
        (over bytes.new (S.left source.new) (S.given source.new)) result }
    ensures goes { Goes SliceFault.ReadFault bytes.old bytes.new (S.faults source.old) (S.faults source.new) result }
    ensures fits { IfOk result (λ n. IfSome n (λ b. RestFits b.left)) }
    ensures none { IfOk result (EndsRest left) }
    ensures less { IfOk result (RestShrinks (pending_in left)) }
{
    let _ = bytes.at();
    if left.size > 0 {
        return byte_in(
            bytes,
            left.va as u32,
            left.size - 1,
            left.runs,
            left.least,
            source,
        );
    }
    if left.runs > 0 {
        return byte_of_run(bytes, left.runs - 1, left.least, source);
    }
    Ok(None)
}
