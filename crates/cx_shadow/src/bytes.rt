//! Several bytes at once.

ghost use Rattle.std.specs.Prelude.{◌≡◌, ℕ, true, IfOk};
ghost use Rattle.cx_shadow.specs.Cells.{AreHeld, byte_of, is_held};
ghost use Rattle.cx_slices.specs.Bytes.{with_bytes};

use crate::shadow::Shadow;
use cx_io::NoMemory;

impl Shadow {
    /// Makes room for each of these addresses. No byte changes, whatever the answer, and what has room keeps it.
    /// `NoMemory` is free.
    pub fn hold_all(&mut self, bytes: &[(u32, u8)]) -> Result<(), NoMemory>
        ensures held { IfOk result (λ _. AreHeld self.new bytes.now) }
        ensures bytes { (a : ℕ) → byte_of self.new a ≡ byte_of self.old a }
        ensures keeps { (a : ℕ) → is_held self.old a ≡ true → is_held self.new a ≡ true }
    {
        for byte in bytes {
            self.hold(byte.0)?;
        }
        Ok(())
    }

    /// Puts these bytes, of several at one address the first.
    pub fn put_all(&mut self, bytes: &[(u32, u8)])
        requires { AreHeld self.old bytes.now }
        ensures bytes { (a : ℕ) → byte_of self.new a ≡ with_bytes bytes.now (byte_of self.old) a }
        ensures holds { (a : ℕ) → is_held self.new a ≡ is_held self.old a }
    {
        let mut left = bytes.len();
        while left > 0 {
            left -= 1;
            let byte = bytes[left];
            self.put(byte.0, byte.1);
        }
    }
}
