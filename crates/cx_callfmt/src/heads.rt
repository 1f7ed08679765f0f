//! Putting the words and bytes of a head.

ghost use Rattle.std.specs.Prelude.{◌≡◌, IsTrue};
ghost use Rattle.cx_slicefmt.specs.Text.{bit, head_text, mask_of, masked_text, present_text, word_text};

use crate::runs::put_runs;
use crate::target::{Target, put_word};
use cx_codec::OutFault;

// 1 where there is a word, else 0.
fn bit(word: Option<u32>) -> u8
    ensures { result ≡ bit word }
{
    match word {
        None => 0,
        Some(_) => 1,
    }
}

// A bit for each word, which says whether it is there: the lowest for the first.
fn mask_of(words: &[Option<u32>; 32]) -> u32
    ensures { result ≡ mask_of words.now }
{
    let mut mask = 0u32;
    let mut left = 32;
    while left > 0 {
        left -= 1;
        mask = mask * 2 + u32::from(bit(words[left]));
    }
    mask
}

// Puts a word where it is there.
fn put_word_if<T, O: Target<T>>(out: &mut O, word: Option<u32>, to: &mut T) -> Result<(), OutFault>
    requires { IsTrue (O.live out.old) }
    ensures { O.puts (word_text word) out.old to.old out.new to.new result }
{
    match word {
        None => Ok(()),
        Some(word) => put_word(out, word, to),
    }
}

// Puts the words that are there.
fn put_present<T, O: Target<T>>(
    out: &mut O,
    words: &[Option<u32>],
    to: &mut T,
) -> Result<(), OutFault>
    requires { IsTrue (O.live out.old) }
    ensures { O.puts (present_text words.now) out.old to.old out.new to.new result }
{
    for word in words {
        put_word_if(out, *word, to)?;
    }
    Ok(())
}

// Puts a mask, and the words that it announces.
fn put_masked<T, O: Target<T>>(
    out: &mut O,
    words: &[Option<u32>; 32],
    to: &mut T,
) -> Result<(), OutFault>
    requires { IsTrue (O.live out.old) }
    ensures { O.puts (masked_text words.now) out.old to.old out.new to.new result }
{
    put_word(out, mask_of(words), to)?;
    put_present(out, words, to)
}

/// Puts a head: its words, and its bytes in runs.
pub(crate) fn put_head<T, O: Target<T>>(
    out: &mut O,
    words: &[Option<u32>; 32],
    bytes: &[(u32, u8)],
    to: &mut T,
) -> Result<(), OutFault>
    requires { IsTrue (O.live out.old) }
    ensures { O.puts (head_text (record { words = words.now; bytes = bytes.now })) out.old to.old out.new to.new result }
{
    put_masked(out, words, to)?;
    put_runs(out, bytes, to)
}
