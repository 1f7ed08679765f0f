//! Laws of the fields: the spelling of a value reads back as that value, whatever follows it, and where a value is read
//! its spelling stands. Laws of calls that read: what they say of the input as it is, and of what was given before a
//! fault.

ghost use Rattle.std.specs.Prelude.{◌≡◌, ℕ, ◌^◌, ◌<◌, List, [], ◌∷◌, ◌++◌, length, Option, Result, Ok, Err};
ghost use Rattle.std.specs.Int.{w32, to_le_bytes};
ghost use Rattle.cx_codec.specs.Place.{Buffered, Place, Reader, Takes, behind_text, end_of, seen};
ghost use Rattle.cx_codec.specs.Reads.{Cut, Gives, Met, Reads, Standing, over, place_in};
ghost use Rattle.cx_codec.specs.Blocks.{HasFront};
ghost use Rattle.cx_codec.specs.Fields.{bytes_at, byte_at, word_at, varint_at};
ghost use Rattle.cx_codec.specs.Varint.{varint};
ghost use Rattle.cx_map.specs.Bytes.{AreBytes};

/// Bytes that stand at a place are read there.
pub fn bytes_read_back()
    ensures { (p after : Place) (bytes : List ℕ) → Takes p bytes after → bytes_at (length bytes) p ≡ Ok (bytes, after) }
{}

/// A byte that stands at a place is read there.
pub fn byte_reads_back()
    ensures { (p after : Place) (b : ℕ) → Takes p (b ∷ []) after → byte_at p ≡ Ok (b, after) }
{}

/// A word whose bytes stand at a place is read there.
pub fn word_reads_back()
    ensures { (p after : Place) (n : ℕ) → n < 2 ^ 32 → Takes p (to_le_bytes w32 n) after → word_at p ≡ Ok (n, after) }
{}

/// A number whose varint stands at a place is read there.
pub fn varint_reads_back()
    ensures { (p after : Place) (n : ℕ) → n < 2 ^ 64 → Takes p (varint n) after → varint_at p ≡ Ok (n, after) }
{}

/// Where bytes are read, these bytes stand, as many as were asked for.
pub fn bytes_have_one_spelling()
    ensures count { (n : ℕ) (p after : Place) (bytes : List ℕ) → bytes_at n p ≡ Ok (bytes, after) → length bytes ≡ n }
    ensures stand { (n : ℕ) (p after : Place) (bytes : List ℕ) → bytes_at n p ≡ Ok (bytes, after)
        → Takes p bytes after }
{}

/// Where a byte is read, it stands.
pub fn byte_has_one_spelling()
    ensures { (p after : Place) (b : ℕ) → byte_at p ≡ Ok (b, after) → Takes p (b ∷ []) after }
{}

/// Where a word is read, its four bytes stand.
pub fn word_has_one_spelling()
    ensures stands { (p after : Place) (n : ℕ) → AreBytes p.ahead → word_at p ≡ Ok (n, after)
        → Takes p (to_le_bytes w32 n) after }
    ensures fits { (p after : Place) (n : ℕ) → AreBytes p.ahead → word_at p ≡ Ok (n, after) → n < 2 ^ 32 }
{}

/// Where a number is read as a varint, its one spelling stands.
pub fn varint_has_one_spelling()
    ensures { (p after : Place) (n : ℕ) → AreBytes p.ahead → varint_at p ≡ Ok (n, after) → Takes p (varint n) after }
{}

/// A text of two parts stands where the second stands behind the first.
pub fn texts_stand_part_by_part()
    ensures first { (p after : Place) (a b : List ℕ) → Takes p (a ++ b) after
        → Takes p a (behind_text p a (b ++ after.ahead)) }
    ensures second { (p after : Place) (a b : List ℕ) → Takes p (a ++ b) after
        → Takes (behind_text p a (b ++ after.ahead)) b after }
    ensures both { (p mid after : Place) (a b : List ℕ) → Takes p a mid → Takes mid b after → Takes p (a ++ b) after }
    ensures nothing { (p : Place) → Takes p [] p }
    ensures bytes { (p after : Place) (text : List ℕ) → AreBytes p.ahead → Takes p text after → AreBytes after.ahead }
{}

/// What a call that reads says of the input as it is, whose bytes are all known.
pub fn reads_tell_of_the_input<X, Y, E>()
    ensures { (met : E → Met) (view : X → Y) (reader : Reader Y) (b c : Buffered) (left more : Option (List ℕ))
        (given gave : List ℕ)
        (result : Result X E) → Reads met view reader (over b left given) (over c more gave) result
        → Gives met view (reader (seen b left)) (seen c more) result }
{}

/// What it says where the source failed: of what was given, reading is bad at the very end.
pub fn cut_reads_are_bad_at_the_end<X, Y, E>()
    ensures { (met : E → Met) (view : X → Y) (reader : Reader Y) (old new : Standing) (e : E) → met e ≡ Cut
        → Reads met view reader old new (Err e)
        → reader (place_in old new.given) ≡ Err (end_of (place_in old new.given)) }
{}

/// A front of a text is a front of any longer one.
pub fn fronts_of_longer_texts()
    ensures { (base held : Option (List ℕ)) (text more : List ℕ) → HasFront base text held
        → HasFront base (text ++ more) held }
{}
