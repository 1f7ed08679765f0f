//! How a number is spelled.

ghost use Rattle.std.specs.Prelude.{◌≡◌, ◌≤◌, length, take};
ghost use Rattle.cx_codec.specs.Varint.{varint};

/// The most bytes that a varint takes.
pub(crate) const LONGEST: usize = 10;

/// Writes the spelling of a number to the front of `digits`, and answers how many bytes it takes.
pub(crate) fn spell(value: u64, digits: &mut [u8]) -> usize
    requires { length digits.old ≡ 10 }
    ensures count { result ≤ 10 }
    ensures spelled { take result digits.new ≡ varint value }
{
    let mut rest = value;
    let mut count = 0;
    while rest >= 128 {
        digits[count] = (128 + rest % 128) as u8;
        rest /= 128;
        count += 1;
    }
    digits[count] = rest as u8;
    count + 1
}
