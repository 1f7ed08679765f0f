//! What the text of records is put to: an output over its sink, or a list in memory.

ghost use Rattle.std.specs.Prelude.{◌≡◌, ℕ, List, [], ◌∷◌, ◌++◌, Bool, Result, Ok, Err, IsTrue};
ghost use Rattle.std.specs.Int.{w32, to_le_bytes};
ghost use Rattle.cx_codec.specs.Varint.{varint};
ghost use Rattle.cx_codec.specs.declared.fault.OutFault.{OutFault};

use crate::spelling::{LONGEST, spell};
use cx_codec::{Out, OutFault};
use cx_io::Sink;

/// What texts are put to, one behind another, over what it is handed.
pub(crate) trait Target<T> {
    /// Whether it goes on.
    ghost live: { Self → Bool };

    /// Putting this text leads from here to there, with this answer.
    ghost puts: { List ℕ → Self → T → Self → T → Result (Unit {0}) OutFault → Type 0 };

    /// Puts the bytes.
    fn put(&mut self, bytes: &[u8], to: &mut T) -> Result<(), OutFault>
        requires { IsTrue (live self.old) }
        ensures { puts bytes.now self.old to.old self.new to.new result };

    /// Nothing is put.
    ghost puts_none: { (s : Self) (t : T) → IsTrue (live s) → puts [] s t s t (Ok tt) };

    /// It goes on where a text was put.
    ghost goes_on: { (text : List ℕ) (s s2 : Self) (t t2 : T) → puts text s t s2 t2 (Ok tt) → IsTrue (live s2) };

    /// One text is put behind another.
    ghost puts_on: { (a b : List ℕ) (s s2 s3 : Self) (t t2 t3 : T) (r : Result (Unit {0}) OutFault)
        → puts a s t s2 t2 (Ok tt) → puts b s2 t2 s3 t3 r → puts (a ++ b) s t s3 t3 r };

    /// The first of two texts is refused.
    ghost puts_fails: { (a b : List ℕ) (s s2 : Self) (t t2 : T) (e : OutFault)
        → puts a s t s2 t2 (Err e) → puts (a ++ b) s t s2 t2 (Err e) };
}

/// What is put to an output goes on to its sink.
impl<T: Sink> Target<T> for Out {
    ghost use Rattle.cx_codec.specs.declared.fault.OutFault.TheVariants.{WriteFault};
    ghost use Rattle.cx_codec.specs.Puts.{Puts, onto};
    ghost use Rattle.cx_codec.proofs.Putting.{puts_none as none_put, puts_on as both_put, puts_fails as first_fails};

    ghost live = { λ o. o.live };

    ghost puts = { λ text s t s2 t2 r.
        Puts WriteFault text (onto s (T.held t) (T.faults t)) (onto s2 (T.held t2) (T.faults t2)) r };

    fn put(&mut self, bytes: &[u8], to: &mut T) -> Result<(), OutFault> {
        self.put_bytes(bytes, to)
    }

    ghost puts_none = { λ s t live. none_put live };

    ghost goes_on = { λ text s s2 t t2 puts. puts.live };

    ghost puts_on = { λ a b s s2 s3 t t2 t3 r first then. both_put a b first then };

    ghost puts_fails = { λ a b s s2 t t2 e first. first_fails a b first };
}

/// A list keeps what it has where it is refused memory, at its front.
impl Target<()> for Vec<u8> {
    ghost use Rattle.std.specs.Prelude.{true};
    ghost use Rattle.cx_callfmt.specs.Keeping.{Grows, grows_fails, grows_none, grows_on};

    ghost live = { λ v. true };

    ghost puts = { λ text v t v2 t2 r. Grows text v.items v2.items r };

    fn put(&mut self, bytes: &[u8], to: &mut ()) -> Result<(), OutFault> {
        match self.extend_from_slice(bytes) {
            Ok(()) => Ok(()),
            Err(_) => Err(OutFault::NoMemory),
        }
    }

    ghost puts_none = { λ v t live. grows_none v.items };

    ghost goes_on = { λ text v v2 t t2 puts. Prim.search };

    ghost puts_on = { λ a b v v2 v3 t t2 t3 r first then. grows_on a b v.items v2.items v3.items r first then };

    ghost puts_fails = { λ a b v v2 t t2 e first. grows_fails a b v.items v2.items e first };
}

/// Puts a byte.
pub(crate) fn put_byte<T, O: Target<T>>(out: &mut O, value: u8, to: &mut T) -> Result<(), OutFault>
    requires { IsTrue (O.live out.old) }
    ensures { O.puts (value ∷ []) out.old to.old out.new to.new result }
{
    out.put(&[value], to)
}

/// Puts a word: four bytes, the low one first.
pub(crate) fn put_word<T, O: Target<T>>(out: &mut O, value: u32, to: &mut T) -> Result<(), OutFault>
    requires { IsTrue (O.live out.old) }
    ensures { O.puts (to_le_bytes w32 value) out.old to.old out.new to.new result }
{
    out.put(&value.to_le_bytes(), to)
}

/// Puts a number as a varint, in its one spelling.
pub(crate) fn put_varint<T, O: Target<T>>(
    out: &mut O,
    value: u64,
    to: &mut T,
) -> Result<(), OutFault>
    requires { IsTrue (O.live out.old) }
    ensures { O.puts (varint value) out.old to.old out.new to.new result }
{
    let mut digits = [0u8; LONGEST];
    let count = spell(value, &mut digits);
    out.put(&digits[..count], to)
}
