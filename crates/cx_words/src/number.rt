//! How a word spells a number.

ghost use Rattle.std.specs.Prelude.{◌≡◌, ◌≤◌};
ghost use Rattle.cx_words.specs.Number.{number, number_in};

/// The number below 2^64 that the text spells: in decimal without leading zeros, or as `0x` and one to sixteen
/// hexadecimal digits of either case.
pub(crate) fn read_number(text: &str) -> Option<u64>
    ensures { result ≡ number text.now }
{
    match text.strip_prefix("0x") {
        Some(digits) if digits.len() <= 16 => read_digits(digits, 16),
        Some(_) => None,
        None if text.len() > 1 && text.starts_with("0") => None,
        None => read_digits(text, 10),
    }
}

/// The number below 2^64 that digits alone write in the base; std would take a plus before them.
fn read_digits(digits: &str, base: u32) -> Option<u64>
    requires low { 2 ≤ base }
    requires high { base ≤ 36 }
    ensures { result ≡ number_in base digits.now }
{
    if digits.starts_with('+') {
        return None;
    }
    u64::from_str_radix(digits, base).ok()
}
