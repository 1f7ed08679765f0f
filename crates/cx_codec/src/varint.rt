//! Varints as numbers: what their bytes stand for, and how a number is spelled.

ghost use Rattle.std.specs.Prelude.{◌≡◌, ◌^◌, ◌<◌, ◌≤◌, length, take, if◌then◌else◌, Some, None};
ghost use Rattle.std.specs.Option.{SomeIff};
ghost use Rattle.cx_codec.specs.Varint.{varint_value, ends_well, is_varint, varint};

/// The most bytes that a varint takes.
pub(crate) const LONGEST: usize = 10;

/// What the bytes stand for, where that is below 2^64.
fn value_of(bytes: &[u8]) -> Option<u64>
    ensures { SomeIff result (varint_value bytes.now < 2 ^ 64) (varint_value bytes.now) }
{
    match bytes {
        [] => Some(0),
        [low, high @ ..] => {
            let high = value_of(high)?;
            if high >= 1 << 57 {
                return None;
            }
            Some(high * 128 + (*low % 128) as u64)
        }
    }
}

/// The number that the bytes of one whole varint spell, where they keep its rule.
pub(crate) fn decoded(bytes: &[u8]) -> Option<u64>
    requires { 0 < length bytes.now }
    ensures { result ≡ (if is_varint bytes.now then Some (varint_value bytes.now) else None) }
{
    let last = bytes[bytes.len() - 1];
    if last >= 128 || (last == 0 && bytes.len() != 1) {
        return None;
    }
    value_of(bytes)
}

/// Writes the spelling of a number to the front of `digits`, and answers how many bytes it takes.
pub(crate) fn spell(value: u64, digits: &mut [u8]) -> usize
    requires { length digits.old ≡ 10 }
    ensures count { result ≤ 10 }
    ensures spelled { take result digits.new ≡ varint value }
{
    let mut rest = value;
    let mut count = 0;
    while rest >= 128 {
        digits[count] = (128 + rest % 128) as u8;
        rest /= 128;
        count += 1;
    }
    digits[count] = rest as u8;
    count + 1
}
