//! Putting bytes in runs.

ghost use Rattle.std.specs.Prelude.{◌≡◌, ◌≤◌, length, map, IsTrue};
ghost use Rattle.cx_codec.specs.Puts.{Puts, onto};
ghost use Rattle.cx_slices.specs.Stretches.{stretches_of};
ghost use Rattle.cx_slicefmt.specs.Writing.{IsFirstRun, ends_run, run_of};
ghost use Rattle.cx_slicefmt.specs.Text.{counted_text, run_text, runs_text};

use cx_codec::{Out, OutFault};
use cx_io::Sink;

// Whether the first byte is the last of its run.
fn ends_run(bytes: &[(u32, u8)]) -> bool
    ensures { result ≡ ends_run bytes.now }
{
    match bytes {
        [byte, next, ..] => u64::from(byte.0) + 1 != u64::from(next.0),
        _ => true,
    }
}

// How many runs the bytes stand in.
fn run_count(bytes: &[(u32, u8)]) -> usize
    ensures { result ≡ length (stretches_of bytes.now) }
{
    let mut count = 0;
    let mut left = bytes.len();
    while left > 0 {
        left -= 1;
        count += usize::from(ends_run(&bytes[left..]));
    }
    count
}

// How many of the first bytes are a run, which is as long as can be.
fn first_run(bytes: &[(u32, u8)]) -> usize
    requires { 1 ≤ length bytes.now }
    ensures { IsFirstRun bytes.now result }
{
    let mut last = 0;
    while !ends_run(&bytes[last..]) {
        last += 1;
    }
    last + 1
}

// Puts bytes, without their addresses.
fn put_bytes<T: Sink>(out: &mut Out, bytes: &[(u32, u8)], sink: &mut T) -> Result<(), OutFault>
    requires { IsTrue out.old.live }
    ensures { Puts OutFault.WriteFault (map (λ e. e.1) bytes.now)
        (onto out.old (T.held sink.old) (T.faults sink.old)) (onto out.new (T.held sink.new) (T.faults sink.new))
        result }
{
    for byte in bytes {
        out.put_byte(byte.1, sink)?;
    }
    Ok(())
}

// Puts a run: the address of its first byte, how many they are, and the bytes.
fn put_run<T: Sink>(out: &mut Out, run: &[(u32, u8)], sink: &mut T) -> Result<(), OutFault>
    requires live { IsTrue out.old.live }
    requires some { 1 ≤ length run.now }
    ensures { Puts OutFault.WriteFault (run_text (run_of run.now))
        (onto out.old (T.held sink.old) (T.faults sink.old)) (onto out.new (T.held sink.new) (T.faults sink.new))
        result }
{
    out.put_word(run[0].0, sink)?;
    out.put_varint(run.len() as u64, sink)?;
    put_bytes(out, run, sink)
}

// Puts runs, one after another.
fn put_all<T: Sink>(out: &mut Out, bytes: &[(u32, u8)], sink: &mut T) -> Result<(), OutFault>
    requires { IsTrue out.old.live }
    ensures { Puts OutFault.WriteFault (runs_text (stretches_of bytes.now))
        (onto out.old (T.held sink.old) (T.faults sink.old)) (onto out.new (T.held sink.new) (T.faults sink.new))
        result }
{
    let mut at = 0;
    while at < bytes.len() {
        let end = at + first_run(&bytes[at..]);
        put_run(out, &bytes[at..end], sink)?;
        at = end;
    }
    Ok(())
}

/// Puts bytes in runs: how many runs there are, and the runs, each as long as can be.
pub(crate) fn put_runs<T: Sink>(
    out: &mut Out,
    bytes: &[(u32, u8)],
    sink: &mut T,
) -> Result<(), OutFault>
    requires { IsTrue out.old.live }
    ensures { Puts OutFault.WriteFault (counted_text (stretches_of bytes.now))
        (onto out.old (T.held sink.old) (T.faults sink.old)) (onto out.new (T.held sink.new) (T.faults sink.new))
        result }
{
    out.put_varint(run_count(bytes) as u64, sink)?;
    put_all(out, bytes, sink)
}
