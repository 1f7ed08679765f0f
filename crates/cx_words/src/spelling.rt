//! Laws of how numbers are spelled.

ghost use Rattle.std.specs.Prelude.{◌≡◌, ℕ, ◌^◌, ◌<◌, ◌++◌, Bool, false, nat_eq, List, Some, codes};
ghost use Rattle.std.specs.List.{starts_with};
ghost use Rattle.std.specs.Fmt.{decimal, digits};
ghost use Rattle.cx_words.specs.Number.{number};

/// Every number below 2^64 is spelled by its decimal digits, and by `0x` and its hexadecimal digits, as they are
/// printed in either case. No text without `0x` spells a number but its decimal digits.
pub fn numbers_read_back()
    ensures decimal_digits { (n : ℕ) → n < 2 ^ 64 → number (decimal n) ≡ Some n }
    ensures hexadecimal_digits { (upper : Bool) (n : ℕ) → n < 2 ^ 64 → number (codes "0x" ++ digits 16 upper n)
        ≡ Some n }
    ensures nothing_else { (text : List ℕ) (n : ℕ) → number text ≡ Some n → starts_with nat_eq text (codes "0x") ≡ false
        → text ≡ decimal n }
{}
