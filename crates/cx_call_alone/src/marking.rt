//! Marks of several addresses.

ghost use Rattle.std.specs.Prelude.{◌≡◌, ◌||◌, ◌-◌, ℕ, List, IfOk, is_some, if◌then◌else◌};
ghost use Rattle.std.specs.List.{list_all};
ghost use Rattle.cx_marks.specs.Marked.{is_marked};
ghost use Rattle.cx_shadow.specs.Cells.{AreHeld, is_held};
ghost use Rattle.cx_slices.specs.Bytes.{Byte, byte_found};
ghost use Rattle.cx_call_alone.specs.Owed.{Owes, marked_met, owed_behind};
ghost use Rattle.cx_call_alone.specs.Standing.{owed_marks};

use cx_alone::is_there;
use cx_io::NoMemory;
use cx_marks::Marks;

/// Whether each of the addresses is marked.
pub(crate) fn all_marked(marks: &Marks, bytes: &[(u32, u8)]) -> bool
    ensures { result ≡ list_all (λ e. is_marked marks.now e.0) bytes.now }
{
    for byte in bytes {
        if !marks.has(byte.0) {
            return false;
        }
    }
    true
}

// Whether a byte of the head is at an address, and wasn't accessed yet.
#[inline]
fn is_owed(head: &Marks, touched: &Marks, va: u32) -> bool
    ensures { result ≡ owed_marks head.now touched.now va }
{
    head.has(va) && !touched.has(va)
}

/// Whether those of the written bytes that are owed are seen.
pub(crate) fn all_met(
    head: &Marks,
    touched: &Marks,
    seen: &[(u32, u8)],
    written: &[(u32, u8)],
) -> bool
    ensures { result ≡ marked_met seen.now (owed_marks head.now touched.now) written.now }
{
    for byte in written {
        if is_owed(head, touched, byte.0) && !is_there(seen, byte.0) {
            return false;
        }
    }
    true
}

// How much is owed once one of it may have been accessed.
#[inline]
fn one_off(owes: u64, owed: bool) -> u64
    ensures { result ≡ (if owed then owes - 1 else owes) }
{
    if owed { owes.saturating_sub(1) } else { owes }
}

/// Marks addresses that a step accesses, and answers how much is owed behind it.
pub(crate) fn access(head: &Marks, touched: &mut Marks, owes: u64, bytes: &[(u32, u8)]) -> u64
    requires { AreHeld touched.old.stamps bytes.now }
    ensures touched { (a : ℕ) → is_marked touched.new a
        ≡ (is_marked touched.old a || is_some (byte_found bytes.now a)) }
    ensures owes { (owed : List Byte) → Owes (owed_marks head.now touched.old) owes owed
        → Owes (owed_marks head.now touched.new) result (owed_behind bytes.now owed) }
    ensures holds { (a : ℕ) → is_held touched.new.stamps a ≡ is_held touched.old.stamps a }
{
    let mut left = owes;
    let mut at = 0;
    while at < bytes.len() {
        let byte = bytes[at];
        left = one_off(left, is_owed(head, touched, byte.0));
        touched.mark_all(&[byte]);
        at += 1;
    }
    left
}

/// The same of the bytes that a step writes and then of those that it sees, once there is room for them. `NoMemory` is
/// free.
pub(crate) fn access_both(
    head: &Marks,
    touched: &mut Marks,
    owes: u64,
    written: &[(u32, u8)],
    seen: &[(u32, u8)],
) -> Result<u64, NoMemory>
    ensures touched { IfOk result (λ left. (a : ℕ) → is_marked touched.new a
        ≡ ((is_marked touched.old a || is_some (byte_found written.now a)) || is_some (byte_found seen.now a))) }
    ensures owes { IfOk result (λ left. (owed : List Byte) → Owes (owed_marks head.now touched.old) owes owed
        → Owes (owed_marks head.now touched.new) left (owed_behind seen.now (owed_behind written.now owed))) }
{
    touched.hold_all(written)?;
    touched.hold_all(seen)?;
    let left = access(head, touched, owes, written);
    Ok(access(head, touched, left, seen))
}
