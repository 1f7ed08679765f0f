//! Bits and halves of words, and MPP.

ghost use Rattle.std.specs.Prelude.{◌≡◌, ◌+◌, ◌*◌, ◌%◌, ◌/◌, ◌^◌, ◌<◌};
ghost use Rattle.cx_csr.specs.Bits.{is_set, previous_of_machine, with_bits};

use crate::status::MPP;

/// Whether this bit of the word is 1.
#[inline]
pub fn is_bit_set(word: u32, bit: u32) -> bool
    requires { bit < 32 }
    ensures { result ≡ is_set word bit }
{
    (word >> bit) & 1 == 1
}

/// The mode before the last trap to machine mode: MPP of this value of `mstatus`.
#[inline]
pub fn previous_of_machine(status: u32) -> u8
    ensures { result ≡ previous_of_machine status }
{
    ((status >> MPP) & 3) as u8
}

/// The word with its bits under the mask taken from the value.
#[inline]
pub fn replace_bits(word: u32, mask: u32, value: u32) -> u32
    ensures { result ≡ with_bits mask value word }
{
    (word & !mask) | (value & mask)
}

/// The low 32 bits of a number of 64.
#[inline]
pub fn low_half(n: u64) -> u32
    ensures { result ≡ n % 2 ^ 32 }
{
    (n & 0xffff_ffff) as u32
}

/// The high 32 bits of a number of 64.
#[inline]
pub fn high_half(n: u64) -> u32
    ensures { result ≡ n / 2 ^ 32 }
{
    (n >> 32) as u32
}

/// The number of 64 bits that has these halves.
#[inline]
pub fn joined(low: u32, high: u32) -> u64
    ensures value { result ≡ low + high * 2 ^ 32 }
    ensures low_half { result % 2 ^ 32 ≡ low }
    ensures high_half { result / 2 ^ 32 ≡ high }
{
    low as u64 + ((high as u64) << 32)
}
