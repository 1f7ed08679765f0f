//! The arithmetic of 32-bit registers.

ghost use Rattle.std.specs.Prelude.{◌≡◌, ◌*◌, ◌*ℤ◌, ◌<◌, ◌%◌, ◌^◌, pos};
ghost use Rattle.cx_decode.specs.Operands.{sign_extended};
ghost use Rattle.cx_exec.specs.Arithmetic.{greater_signed, lesser_signed, truth, less_signed, shifted_left};
ghost use Rattle.cx_exec.specs.Arithmetic.{shifted_right, shifted_right_signed, signed, upper_half, quotient_signed};
ghost use Rattle.cx_exec.specs.Arithmetic.{quotient, remainder_signed, remainder};

/// Whether a is less than b as signed numbers.
pub fn less_signed(a: u32, b: u32) -> bool
    ensures { result ≡ less_signed a b }
{
    a.cast_signed() < b.cast_signed()
}

/// 1 for a test that holds, else 0.
pub fn truth(test: bool) -> u32
    ensures { result ≡ truth test }
{
    u32::from(test)
}

/// The low byte, sign-extended.
pub fn signed_byte(n: u32) -> u32
    ensures { result ≡ sign_extended 8 (n % 2 ^ 8) }
{
    (n & 0xff).wrapping_sub(((n >> 7) & 1) << 8)
}

/// The low two bytes, sign-extended.
pub fn signed_half(n: u32) -> u32
    ensures { result ≡ sign_extended 16 (n % 2 ^ 16) }
{
    (n & 0xffff).wrapping_sub(((n >> 15) & 1) << 16)
}

/// a shifted right with its sign moved in.
pub fn shifted_right_signed(a: u32, distance: u32) -> u32
    requires { distance < 32 }
    ensures { result ≡ shifted_right_signed a distance }
{
    (a.cast_signed() >> distance).cast_unsigned()
}

/// The upper half of the product of two signed numbers.
pub fn upper_signed(a: u32, b: u32) -> u32
    ensures { result ≡ upper_half (signed a *ℤ signed b) }
{
    let product = i64::from(a.cast_signed()) * i64::from(b.cast_signed());
    (product.cast_unsigned() >> 32) as u32
}

/// The upper half of the product of a signed and an unsigned number.
pub fn upper_mixed(a: u32, b: u32) -> u32
    ensures { result ≡ upper_half (signed a *ℤ pos b) }
{
    let product = i64::from(a.cast_signed()) * i64::from(b);
    (product.cast_unsigned() >> 32) as u32
}

/// The upper half of the product of two unsigned numbers.
pub fn upper_unsigned(a: u32, b: u32) -> u32
    ensures { result ≡ upper_half (pos (a * b)) }
{
    ((u64::from(a) * u64::from(b)) >> 32) as u32
}

/// The signed quotient, rounded towards zero; all ones where b is 0.
pub fn quotient_signed(a: u32, b: u32) -> u32
    ensures { result ≡ quotient_signed a b }
{
    if b == 0 {
        u32::MAX
    } else {
        a.cast_signed()
            .wrapping_div(b.cast_signed())
            .cast_unsigned()
    }
}

/// The unsigned quotient; all ones where b is 0.
pub fn quotient(a: u32, b: u32) -> u32
    ensures { result ≡ quotient a b }
{
    if b == 0 { u32::MAX } else { a / b }
}

/// The signed remainder, with the sign of a; a where b is 0.
pub fn remainder_signed(a: u32, b: u32) -> u32
    ensures { result ≡ remainder_signed a b }
{
    if b == 0 {
        a
    } else {
        a.cast_signed()
            .wrapping_rem(b.cast_signed())
            .cast_unsigned()
    }
}

/// The unsigned remainder; a where b is 0.
pub fn remainder(a: u32, b: u32) -> u32
    ensures { result ≡ remainder a b }
{
    if b == 0 { a } else { a % b }
}

/// The less of two signed numbers.
pub fn lesser_signed(a: u32, b: u32) -> u32
    ensures { result ≡ lesser_signed a b }
{
    if less_signed(a, b) { a } else { b }
}

/// The greater of two signed numbers.
pub fn greater_signed(a: u32, b: u32) -> u32
    ensures { result ≡ greater_signed a b }
{
    if less_signed(a, b) { b } else { a }
}
