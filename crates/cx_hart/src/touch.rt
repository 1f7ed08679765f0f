//! Stretches of bytes, as a step's record tells them.

ghost use Rattle.std.specs.Prelude.{◌≡◌, ◌*◌, ◌^◌, ◌<◌, ◌≤◌, length};
ghost use Rattle.cx_ram.specs.LittleEndian.{low_bytes};
ghost use Rattle.cx_ram.specs.PhysicalMemory.{IsAccessLength};
ghost use Rattle.cx_hart.specs.Stretches.{IsPart};
ghost use Rattle.cx_hart.specs.Touches.{padded, part_value, touch};

use crate::findings::Part;
use crate::record::Touch;
use cx_ram::Ram;

/// The low bytes of a value, and 0 behind them.
#[inline]
#[tactic(auto, using(crate::proofs::TouchBytes::one_byte, crate::proofs::TouchBytes::two_bytes, crate::proofs::TouchBytes::three_bytes, crate::proofs::TouchBytes::four_bytes))]
fn low_bytes(len: u8, value: u32) -> [u8; 4]
    requires { IsAccessLength len }
    ensures { result ≡ padded 4 (low_bytes len value) }
{
    let bytes = value.to_le_bytes();
    match len {
        1 => [bytes[0], 0, 0, 0],
        2 => [bytes[0], bytes[1], 0, 0],
        3 => [bytes[0], bytes[1], bytes[2], 0],
        _ => bytes,
    }
}

/// The low bytes of a value at the bytes of a part.
#[inline]
#[tactic(auto, unfolding(crate::specs::Touches::touch))]
pub(crate) fn touch(part: Part, value: u32) -> Touch
    requires { IsAccessLength part.len }
    ensures { result ≡ touch part value }
{
    let Part { va, pa, len } = part;
    Touch {
        va,
        pa,
        len,
        bytes: low_bytes(len, value),
    }
}

/// What stands in RAM at a part.
#[inline]
pub(crate) fn part_value(ram: &Ram, part: Part) -> u32
    requires { IsPart (length ram.now.memory) part }
    ensures value { result ≡ part_value ram.now.memory part }
    ensures fits { result < 2 ^ (8 * part.len) }
{
    ram.load(part.pa, part.len)
}
