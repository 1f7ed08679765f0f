//! The bytes of a group, in runs.

ghost use Rattle.std.specs.Prelude.{◌≡◌, ◌+◌, ◌-◌, ◌*◌, ◌<◌, ◌≤◌, ◌^◌, ◌++◌, length, min, take, IfOk, IsSome, IsTrue};
ghost use Rattle.arrayvec.specs.ArrayVec.{array_vec_len};
ghost use Rattle.cx_codec.specs.Reads.{Goes, Reads, over};
ghost use Rattle.cx_slices.specs.Stretches.{bytes_from};
ghost use Rattle.cx_slicefmt.specs.Engine.{pairs_of, run_bytes_at, stretch_of};
ghost use Rattle.cx_slicefmt.specs.Fault.{slice_met};
ghost use Rattle.cx_slicefmt.specs.Reading.{run_at};

use crate::fault::SliceFault;
use crate::fields::{address, number};
use arrayvec::ArrayVec;
use cx_codec::Bytes;
use cx_io::Source;

/// How many bytes a run may have.
const MOST_RUN: u64 = 8;

/// Bytes from an address on: the first `len` of them.
#[derive(Clone, Copy, Debug)]
pub struct Run {
    /// The address of the first byte.
    pub va: u32,
    /// How many bytes there are.
    pub len: usize,
    /// The bytes.
    pub bytes: [u8; 8],
}

// How many bytes a run may have that begins at an address.
fn room_at(va: u32) -> u64
    ensures { result ≡ min 8 (2 ^ 32 - va) }
{
    MOST_RUN.min((1 << 32) - va as u64)
}

// A run that begins at `least` or above.
fn next_run<S: Source>(bytes: &mut Bytes, least: u64, source: &mut S) -> Result<Run, SliceFault>
    requires live { IsTrue bytes.old.live }
    ensures reads { IsSome (S.left source.old) → Reads slice_met stretch_of (run_at 8 least)
        (over bytes.old (S.left source.old) (S.given source.old))
        (over bytes.new (S.left source.new) (S.given source.new)) result }
    ensures goes { Goes SliceFault.ReadFault bytes.old bytes.new (S.faults source.old) (S.faults source.new) result }
    ensures short { IfOk result (λ r. r.len ≤ 8) }
    ensures fits { IfOk result (λ r. r.va + r.len ≤ 2 ^ 32) }
{
    let va = address(bytes, least, source)?;
    let size = number(bytes, 1, room_at(va), source)?;
    let mut field = [0u8; 8];
    let len = size as usize;
    bytes.take(&mut field[..len], source)?;
    Ok(Run {
        va,
        len,
        bytes: field,
    })
}

// Puts the bytes of a run behind those that there are.
fn push_run(run: &Run, into: &mut ArrayVec<(u32, u8), 64>)
    requires short { run.now.len ≤ 8 }
    requires fits { run.now.va + run.now.len ≤ 2 ^ 32 }
    requires room { array_vec_len into.old + 8 ≤ 64 }
    ensures items { into.new.items ≡ into.old.items ++ bytes_from run.now.va (take run.now.len run.now.bytes) }
    ensures len { array_vec_len into.new ≡ array_vec_len into.old + run.now.len }
{
    for index in 0..run.len {
        into.push((run.va + index as u32, run.bytes[index]));
    }
}

/// The bytes of so many runs.
pub(crate) fn run_bytes<S: Source>(
    bytes: &mut Bytes,
    count: usize,
    source: &mut S,
) -> Result<ArrayVec<(u32, u8), 64>, SliceFault>
    requires live { IsTrue bytes.old.live }
    requires count { count ≤ 8 }
    ensures reads { IsSome (S.left source.old) → Reads slice_met pairs_of (run_bytes_at count)
        (over bytes.old (S.left source.old) (S.given source.old))
        (over bytes.new (S.left source.new) (S.given source.new)) result }
    ensures goes { Goes SliceFault.ReadFault bytes.old bytes.new (S.faults source.old) (S.faults source.new) result }
{
    let mut into = ArrayVec::new();
    let mut least = 0u64;
    let _ = bytes.at();
    for index in 0..count {
        let run = next_run(bytes, least, source)?;
        push_run(&run, &mut into);
        least = run.va as u64 + run.len as u64 + 1;
    }
    Ok(into)
}
