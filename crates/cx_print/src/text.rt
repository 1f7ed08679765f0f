//! A short text that takes no memory of the heap.

ghost use Rattle.std.specs.Prelude.{◌≡◌, ◌+◌, ◌^◌, ◌<◌, ◌≤◌, ◌↔◌, [], ◌∷◌, ◌++◌, length, IsTrue};
ghost use Rattle.std.specs.Fmt.{decimal};

use crate::decimal::{DECIMAL_DIGITS, spell_decimal};
use std::marker::Model;

/// The most bytes that a text holds.
pub const TEXT_CAPACITY: usize = 48;

/// A text of up to 48 bytes.
pub type Text = ShortText<TEXT_CAPACITY>;

/// A text of up to `N` bytes, in a buffer of its own. Contracts see the list of its bytes.
#[derive(Drop)]
pub struct ShortText<const N: usize> {
    buffer: [u8; N],
    len: usize,
}

impl<const N: usize> Model for ShortText<N> {
    ghost use Rattle.std.specs.Prelude.{ℕ, ◌^◌, ◌≤◌, List, take};

    ghost Value = { List ℕ };

    ghost view = { λ text. take text.len text.buffer };

    ghost invariant = { λ text. (text.len ≤ N) × (N ≤ 2 ^ 16) };
}

impl<const N: usize> ShortText<N> {
    /// The empty text.
    pub fn new() -> Self
        requires { N ≤ 2 ^ 16 }
        ensures { result ≡ [] }
    {
        ShortText {
            buffer: [0; N],
            len: 0,
        }
    }

    /// How many bytes the text has.
    pub fn len(&self) -> usize
        ensures len { result ≡ length self.now }
        ensures within { result ≤ N }
    {
        self.len
    }

    /// Whether the text has no byte.
    pub fn is_empty(&self) -> bool
        ensures { IsTrue result ↔ (self.now ≡ []) }
    {
        self.len == 0
    }

    /// The bytes of the text.
    pub fn bytes(&self) -> &[u8]
        ensures bytes { result.now ≡ self.now }
        ensures within { length result.now ≤ N }
    {
        &self.buffer[..self.len]
    }

    /// Appends one byte.
    pub fn push(&mut self, byte: u8)
        requires { length self.old < N }
        ensures { self.new ≡ self.old ++ byte ∷ [] }
    {
        self.buffer[self.len] = byte;
        self.len += 1;
    }

    /// Appends bytes.
    pub fn push_bytes(&mut self, bytes: &[u8])
        requires { length self.old + length bytes.now ≤ N }
        ensures text { self.new ≡ self.old ++ bytes.now }
        ensures length { length self.new ≡ length self.old + length bytes.now }
    {
        let end = self.len + bytes.len();
        let buffer = &mut self.buffer[..];
        buffer[self.len..end].copy_from_slice(bytes);
        self.len = end;
    }

    /// Appends the decimal digits of a number, without leading zeros.
    fn push_digits(&mut self, n: u64)
        requires { length self.old + length (decimal n) ≤ N }
        ensures text { self.new ≡ self.old ++ decimal n }
        ensures length { length self.new ≡ length self.old + length (decimal n) }
    {
        let _ = &self.len;
        let mut digits = [0; DECIMAL_DIGITS];
        let first = spell_decimal(n, &mut digits);
        self.push_bytes(&digits[first..]);
    }

    /// Appends the decimal digits of a number of 8 bits: at most 3.
    #[tactic(auto, using(crate::proofs::Digits::decimal_of_byte))]
    pub(crate) fn push_small(&mut self, n: u8)
        requires { length self.old + 3 ≤ N }
        ensures text { self.new ≡ self.old ++ decimal n }
        ensures length { length self.new ≤ length self.old + 3 }
    {
        let _ = &self.len;
        self.push_digits(n as u64);
    }

    /// Appends the decimal digits of a number of 32 bits: at most 10.
    #[tactic(auto, using(crate::proofs::Digits::decimal_of_word))]
    pub(crate) fn push_number(&mut self, n: u32)
        requires { length self.old + 10 ≤ N }
        ensures text { self.new ≡ self.old ++ decimal n }
        ensures length { length self.new ≤ length self.old + 10 }
    {
        let _ = &self.len;
        self.push_digits(n as u64);
    }

    /// Appends the decimal digits of a number: at most 20, without leading zeros.
    #[tactic(auto, using(crate::proofs::Digits::decimal_fits))]
    pub fn push_decimal(&mut self, n: u64)
        requires { length self.old + 20 ≤ N }
        ensures text { self.new ≡ self.old ++ decimal n }
        ensures length { length self.new ≤ length self.old + 20 }
    {
        let _ = &self.len;
        self.push_digits(n);
    }
}
