//! Laws of loads and of writes on a flat list of bytes, for the layers that reason about memory.

ghost use Rattle.std.specs.Prelude.{◌≡◌, ◌≢◌, ◌⊎◌, ℕ, ◌+◌, ◌*◌, ◌%◌, ◌^◌, ◌<◌, ◌≤◌, List, length, slice_index};
ghost use Rattle.cx_map.specs.declared.TheConstants.{PAGE_SIZE};
ghost use Rattle.cx_ram.specs.Agreement.{AgreeOn, SameWrites};
ghost use Rattle.cx_ram.specs.LittleEndian.{loaded, low_bytes, stored, written};
ghost use Rattle.cx_ram.specs.PhysicalMemory.{IsPage, page_of};

/// A load depends on its own bytes alone.
pub fn load_reads_its_bytes()
    ensures { (m n : List ℕ) (i len : ℕ) → ((k : ℕ) → k < len → slice_index m (i + k) ≡ slice_index n (i + k))
        → loaded m i len ≡ loaded n i len }
{}

/// A write changes its own bytes alone, to those that it was given, and keeps the length.
pub fn write_changes_its_bytes()
    ensures inside { (m : List ℕ) (i : ℕ) (bytes : List ℕ) (k : ℕ) → i + length bytes ≤ length m → k < length bytes
        → slice_index (written m i bytes) (i + k) ≡ slice_index bytes k }
    ensures outside { (m : List ℕ) (i : ℕ) (bytes : List ℕ) (k : ℕ) → i + length bytes ≤ length m
        → (k < i) ⊎ (i + length bytes ≤ k)
        → slice_index (written m i bytes) k ≡ slice_index m k }
    ensures size { (m : List ℕ) (i : ℕ) (bytes : List ℕ) → i + length bytes ≤ length m
        → length (written m i bytes) ≡ length m }
{}

/// A store changes its own bytes alone, to the low bytes of its value, and keeps the length.
pub fn store_changes_its_bytes()
    ensures inside { (m : List ℕ) (i len value k : ℕ) → i + len ≤ length m → k < len
        → slice_index (stored m i len value) (i + k) ≡ slice_index (low_bytes len value) k }
    ensures outside { (m : List ℕ) (i len value k : ℕ) → i + len ≤ length m → (k < i) ⊎ (i + len ≤ k)
        → slice_index (stored m i len value) k ≡ slice_index m k }
    ensures size { (m : List ℕ) (i len value : ℕ) → i + len ≤ length m → length (stored m i len value) ≡ length m }
{}

/// A load where a store was gives the low bits of what it stored, and one beside it gives what it gave before.
pub fn load_after_store()
    ensures same { (m : List ℕ) (i len value : ℕ) → i + len ≤ length m
        → loaded (stored m i len value) i len ≡ value % 2 ^ (8 * len) }
    ensures beside { (m : List ℕ) (i len value at size : ℕ) → i + len ≤ length m → (at + size ≤ i) ⊎ (i + len ≤ at)
        → loaded (stored m i len value) at size ≡ loaded m at size }
{}

/// A load beside a write gives what it gave before.
pub fn load_after_write()
    ensures { (m : List ℕ) (i : ℕ) (bytes : List ℕ) (at size : ℕ) → i + length bytes ≤ length m → (at + size ≤ i)
        ⊎ (i + length bytes ≤ at)
        → loaded (written m i bytes) at size ≡ loaded m at size }
{}

/// A load of bytes has no bit above theirs.
pub fn load_fits()
    ensures { (m : List ℕ) (i len : ℕ) → ((k : ℕ) → k < len → slice_index m (i + k) < 256)
        → loaded m i len < 2 ^ (8 * len) }
{}

/// A page that was written has the bytes that were written, and the others have theirs.
pub fn page_after_write()
    ensures same { (m : List ℕ) (page : ℕ) (bytes : List ℕ) → IsPage m page → length bytes ≡ PAGE_SIZE
        → page_of (written m (page * PAGE_SIZE) bytes) page ≡ bytes }
    ensures others { (m : List ℕ) (page : ℕ) (bytes : List ℕ) (other : ℕ) → IsPage m page → length bytes ≡ PAGE_SIZE
        → other ≢ page
        → page_of (written m (page * PAGE_SIZE) bytes) other ≡ page_of m other }
{}

/// The bytes of a page are those of the memory from its first place on.
pub fn page_is_its_bytes()
    ensures { (m : List ℕ) (page k : ℕ) → k < PAGE_SIZE → slice_index (page_of m page) k ≡ slice_index m
        (page * PAGE_SIZE + k) }
{}

/// The same bytes written at one index of two memories of one length are the same writes, wherever the index is. So are
/// no writes, and the same writes one after another. Memories that agree go on to agree behind them.
pub fn memories_are_written_alike()
    ensures none { (p q : List ℕ) → SameWrites p p q q }
    ensures bytes { (p q : List ℕ) (i : ℕ) (bytes : List ℕ) → length q ≡ length p
        → SameWrites p (written p i bytes) q (written q i bytes) }
    ensures more { (p p1 p2 q q1 q2 : List ℕ) → SameWrites p p1 q q1 → SameWrites p1 p2 q1 q2 → SameWrites p p2 q q2 }
    ensures agree { (indices p p1 q q1 : List ℕ) → SameWrites p p1 q q1 → AgreeOn indices p q → AgreeOn indices p1 q1 }
{}
