//! Numbers in hexadecimal.

ghost use Rattle.std.specs.Prelude.{◌≡◌, ◌^◌, ◌<◌, ◌≤◌, ◌∷◌, ◌++◌, [], drop, false};
ghost use Rattle.std.specs.Fmt.{digits as shortest};
ghost use Rattle.cx_print.specs.Hex.{hex, hex_digit};

const HEX_DIGITS: [u8; 16] = *b"0123456789abcdef";

/// The lowest digit.
#[inline]
pub(crate) fn hex_digit(n: u32) -> u8
    ensures { result ≡ hex_digit n }
{
    HEX_DIGITS[(n & 15) as usize]
}

/// A word in eight digits.
#[inline]
#[tactic(auto, unfolding(crate::specs::Hex::hex))]
pub fn word_digits(word: u32) -> [u8; 8]
    ensures { result ≡ hex 8 word }
{
    [
        hex_digit(word >> 28),
        hex_digit(word >> 24),
        hex_digit(word >> 20),
        hex_digit(word >> 16),
        hex_digit(word >> 12),
        hex_digit(word >> 8),
        hex_digit(word >> 4),
        hex_digit(word),
    ]
}

/// A word in eight digits behind a space.
#[inline]
#[tactic(auto, unfolding(crate::specs::Hex::hex))]
pub(crate) fn spaced_word(word: u32) -> [u8; 9]
    ensures { result ≡ 32 ∷ hex 8 word }
{
    let [a, b, c, d, e, f, g, h] = word_digits(word);
    [b' ', a, b, c, d, e, f, g, h]
}

/// A byte in two digits.
#[inline]
#[tactic(auto, unfolding(crate::specs::Hex::hex))]
pub(crate) fn byte_digits(byte: u8) -> [u8; 2]
    ensures { result ≡ hex 2 byte }
{
    [hex_digit((byte as u32) >> 4), hex_digit(byte as u32)]
}

/// The number of a control register in three digits.
#[inline]
#[tactic(auto, unfolding(crate::specs::Hex::hex))]
pub(crate) fn control_digits(number: u32) -> [u8; 3]
    ensures { result ≡ hex 3 number }
{
    [
        hex_digit(number >> 8),
        hex_digit(number >> 4),
        hex_digit(number),
    ]
}

/// Spells a number of at most twenty bits at the end of the digits, without leading zeros, and tells the place of its
/// first digit.
#[tactic(auto, using(crate::proofs::HexDigits::found))]
pub(crate) fn spell_hex(number: u32, digits: &mut [u8; 5]) -> usize
    requires { number < 2 ^ 20 }
    ensures within { result ≤ 5 }
    ensures text { drop result digits.new ≡ shortest 16 false number }
{
    let mut rest = number;
    let mut place = 5;
    while rest >= 16 {
        place -= 1;
        digits[place] = hex_digit(rest);
        rest >>= 4;
    }
    place -= 1;
    digits[place] = hex_digit(rest);
    place
}
