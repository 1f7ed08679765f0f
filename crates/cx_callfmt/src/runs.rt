//! Putting bytes in runs.

ghost use Rattle.std.specs.Prelude.{◌≡◌, ◌≤◌, length, map, IsTrue};
ghost use Rattle.cx_slices.specs.Stretches.{stretches_of};
ghost use Rattle.cx_slicefmt.specs.Writing.{IsFirstRun, ends_run, run_of};
ghost use Rattle.cx_slicefmt.specs.Text.{counted_text, run_text, runs_text};

use crate::target::{Target, put_byte, put_varint, put_word};
use cx_codec::OutFault;

// Whether the first byte is the last of its run.
fn ends_run(bytes: &[(u32, u8)]) -> bool
    ensures { result ≡ ends_run bytes.now }
{
    match bytes {
        [byte, next, ..] => u64::from(byte.0) + 1 != u64::from(next.0),
        _ => true,
    }
}

// How many runs the bytes stand in.
fn run_count(bytes: &[(u32, u8)]) -> usize
    ensures { result ≡ length (stretches_of bytes.now) }
{
    let mut count = 0;
    let mut left = bytes.len();
    while left > 0 {
        left -= 1;
        count += usize::from(ends_run(&bytes[left..]));
    }
    count
}

// How many of the first bytes are a run, which is as long as can be.
fn first_run(bytes: &[(u32, u8)]) -> usize
    requires { 1 ≤ length bytes.now }
    ensures { IsFirstRun bytes.now result }
{
    let mut last = 0;
    while !ends_run(&bytes[last..]) {
        last += 1;
    }
    last + 1
}

// Puts bytes, without their addresses.
fn put_contents<T, O: Target<T>>(
    out: &mut O,
    bytes: &[(u32, u8)],
    to: &mut T,
) -> Result<(), OutFault>
    requires { IsTrue (O.live out.old) }
    ensures { O.puts (map (λ e. e.1) bytes.now) out.old to.old out.new to.new result }
{
    for byte in bytes {
        put_byte(out, byte.1, to)?;
    }
    Ok(())
}

// Puts a run: the address of its first byte, how many they are, and the bytes.
fn put_run<T, O: Target<T>>(out: &mut O, run: &[(u32, u8)], to: &mut T) -> Result<(), OutFault>
    requires live { IsTrue (O.live out.old) }
    requires some { 1 ≤ length run.now }
    ensures { O.puts (run_text (run_of run.now)) out.old to.old out.new to.new result }
{
    put_word(out, run[0].0, to)?;
    put_varint(out, run.len() as u64, to)?;
    put_contents(out, run, to)
}

// Puts runs, one after another.
fn put_all<T, O: Target<T>>(out: &mut O, bytes: &[(u32, u8)], to: &mut T) -> Result<(), OutFault>
    requires { IsTrue (O.live out.old) }
    ensures { O.puts (runs_text (stretches_of bytes.now)) out.old to.old out.new to.new result }
{
    let mut at = 0;
    while at < bytes.len() {
        let end = at + first_run(&bytes[at..]);
        put_run(out, &bytes[at..end], to)?;
        at = end;
    }
    Ok(())
}

/// Puts bytes in runs: how many runs there are, and the runs, each as long as can be.
pub(crate) fn put_runs<T, O: Target<T>>(
    out: &mut O,
    bytes: &[(u32, u8)],
    to: &mut T,
) -> Result<(), OutFault>
    requires { IsTrue (O.live out.old) }
    ensures { O.puts (counted_text (stretches_of bytes.now)) out.old to.old out.new to.new result }
{
    put_varint(out, run_count(bytes) as u64, to)?;
    put_all(out, bytes, to)
}
