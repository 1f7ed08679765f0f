//! Putting the parts of a slice.

ghost use Rattle.std.specs.Prelude.{◌≡◌, [], ◌∷◌, ◌++◌, IsTrue};
ghost use Rattle.cx_codec.specs.Puts.{Puts, onto};
ghost use Rattle.cx_codec.specs.Varint.{varint};
ghost use Rattle.cx_slicefmt.specs.Engine.{items_in};
ghost use Rattle.cx_slicefmt.specs.Text.{
  bit,
  given_text,
  items_text,
  mask_of,
  masked_text,
  present_text,
  word_text,
};

use crate::items::GroupItems;
use crate::stretches::put_runs;
use cx_codec::{Out, OutFault};
use cx_io::Sink;

/// Puts what a group or the end begins with: its tag, and how far it is from the last index.
pub(crate) fn put_entry<T: Sink>(
    out: &mut Out,
    tag: u8,
    distance: u64,
    sink: &mut T,
) -> Result<(), OutFault>
    requires { IsTrue out.old.live }
    ensures { Puts OutFault.WriteFault ((tag ∷ []) ++ varint distance)
        (onto out.old (T.held sink.old) (T.faults sink.old)) (onto out.new (T.held sink.new) (T.faults sink.new))
        result }
{
    out.put_byte(tag, sink)?;
    out.put_varint(distance, sink)
}

// 1 where there is a word, else 0.
fn bit(word: Option<u32>) -> u8
    ensures { result ≡ bit word }
{
    match word {
        None => 0,
        Some(_) => 1,
    }
}

// A bit for each word, which says whether it is there: the lowest for the first.
fn mask_of(words: &[Option<u32>; 32]) -> u32
    ensures { result ≡ mask_of words.now }
{
    let mut mask = 0u32;
    let mut left = 32;
    while left > 0 {
        left -= 1;
        mask = mask * 2 + u32::from(bit(words[left]));
    }
    mask
}

// Puts a word where it is there.
fn put_word_if<T: Sink>(out: &mut Out, word: Option<u32>, sink: &mut T) -> Result<(), OutFault>
    requires { IsTrue out.old.live }
    ensures { Puts OutFault.WriteFault (word_text word)
        (onto out.old (T.held sink.old) (T.faults sink.old)) (onto out.new (T.held sink.new) (T.faults sink.new))
        result }
{
    match word {
        None => Ok(()),
        Some(word) => out.put_word(word, sink),
    }
}

// Puts the words that are there.
fn put_present<T: Sink>(out: &mut Out, words: &[Option<u32>], sink: &mut T) -> Result<(), OutFault>
    requires { IsTrue out.old.live }
    ensures { Puts OutFault.WriteFault (present_text words.now)
        (onto out.old (T.held sink.old) (T.faults sink.old)) (onto out.new (T.held sink.new) (T.faults sink.new))
        result }
{
    for word in words {
        put_word_if(out, *word, sink)?;
    }
    Ok(())
}

// Puts a mask, and the words that it announces.
fn put_masked<T: Sink>(
    out: &mut Out,
    words: &[Option<u32>; 32],
    sink: &mut T,
) -> Result<(), OutFault>
    requires { IsTrue out.old.live }
    ensures { Puts OutFault.WriteFault (masked_text words.now)
        (onto out.old (T.held sink.old) (T.faults sink.old)) (onto out.new (T.held sink.new) (T.faults sink.new))
        result }
{
    out.put_word(mask_of(words), sink)?;
    put_present(out, words, sink)
}

// Puts what is given from outside: a flag, and the word where it is there.
fn put_given<T: Sink>(out: &mut Out, given: Option<u32>, sink: &mut T) -> Result<(), OutFault>
    requires { IsTrue out.old.live }
    ensures { Puts OutFault.WriteFault (given_text given)
        (onto out.old (T.held sink.old) (T.faults sink.old)) (onto out.new (T.held sink.new) (T.faults sink.new))
        result }
{
    out.put_byte(bit(given), sink)?;
    put_word_if(out, given, sink)
}

/// Puts the items of a step: its words, its bytes in runs, and what it is given.
pub(crate) fn put_items<T: Sink>(
    out: &mut Out,
    items: &GroupItems,
    sink: &mut T,
) -> Result<(), OutFault>
    requires { IsTrue out.old.live }
    ensures { Puts OutFault.WriteFault (items_text (items_in items.now))
        (onto out.old (T.held sink.old) (T.faults sink.old)) (onto out.new (T.held sink.new) (T.faults sink.new))
        result }
{
    put_masked(out, &items.words, sink)?;
    put_runs(out, items.bytes.as_slice(), sink)?;
    put_given(out, items.given, sink)
}
