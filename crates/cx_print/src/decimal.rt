//! Numbers in decimal.

ghost use Rattle.std.specs.Prelude.{◌≡◌, ◌≤◌, length, drop};
ghost use Rattle.std.specs.Fmt.{decimal};

/// The most digits of a number of 64 bits.
pub(crate) const DECIMAL_DIGITS: usize = 20;

/// Spells a number at the end of the digits, without leading zeros, and tells the place of its first digit.
#[tactic(auto, using(crate::proofs::Digits::spelled))]
pub(crate) fn spell_decimal(n: u64, digits: &mut [u8; DECIMAL_DIGITS]) -> usize
    ensures within { result ≤ DECIMAL_DIGITS }
    ensures text { drop result digits.new ≡ decimal n }
{
    let mut rest = n;
    let mut place = DECIMAL_DIGITS;
    while rest >= 10 {
        place -= 1;
        digits[place] = b'0' + (rest % 10) as u8;
        rest /= 10;
    }
    place -= 1;
    digits[place] = b'0' + rest as u8;
    place
}
