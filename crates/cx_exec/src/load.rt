//! What a plain load gives to its register.

ghost use Rattle.std.specs.Prelude.{◌≡◌};
ghost use Rattle.cx_exec.specs.Loads.{loaded_value};

use crate::arithmetic::{signed_byte, signed_half};
use cx_decode::Op;

/// The value that a plain load gives, by its row and what it got.
#[inline(always)]
pub fn loaded_value(op: Op, got: u32) -> u32
    ensures { result ≡ loaded_value op got }
{
    match op {
        Op::Lb => signed_byte(got),
        Op::Lh => signed_half(got),
        Op::Lbu => got & 0xff,
        Op::Lhu => got & 0xffff,
        _ => got,
    }
}
