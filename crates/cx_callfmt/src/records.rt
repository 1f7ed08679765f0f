//! Putting the records of a call slice.

ghost use Rattle.std.specs.Prelude.{◌≡◌, ◌-◌, ◌≤◌, [], ◌∷◌, ◌++◌, IsTrue};
ghost use Rattle.cx_codec.specs.Varint.{varint};
ghost use Rattle.cx_placing.specs.Records.{Async, Calls, Value};
ghost use Rattle.cx_callfmt.specs.Text.{call_end_text, payload, record_text};

use crate::heads::put_head;
use crate::target::{Target, put_byte, put_varint, put_word};
use cx_codec::OutFault;

/// The tag of the end.
const END_TAG: u8 = 0;

/// The tag of a call.
const CALL_TAG: u8 = 1;

/// The tag of words and bytes that come before a step.
const ASYNC_TAG: u8 = 2;

/// The tag of a value that a step is given.
const VALUE_TAG: u8 = 3;

// Puts what an entry begins with: its tag, and how far it is from the last index.
fn put_entry<T, O: Target<T>>(
    out: &mut O,
    tag: u8,
    distance: u64,
    to: &mut T,
) -> Result<(), OutFault>
    requires { IsTrue (O.live out.old) }
    ensures { O.puts ((tag ∷ []) ++ varint distance) out.old to.old out.new to.new result }
{
    put_byte(out, tag, to)?;
    put_varint(out, distance, to)
}

/// Puts the words and bytes that come before a step.
pub(crate) fn put_async<T, O: Target<T>>(
    out: &mut O,
    before: u64,
    index: u64,
    words: &[Option<u32>; 32],
    bytes: &[(u32, u8)],
    to: &mut T,
) -> Result<(), OutFault>
    requires live { IsTrue (O.live out.old) }
    requires order { before ≤ index }
    ensures { O.puts (record_text before
        (record { index = index; what = Async (record { words = words.now; bytes = bytes.now }) }))
        out.old to.old out.new to.new result }
{
    put_entry(out, ASYNC_TAG, index - before, to)?;
    put_head(out, words, bytes, to)
}

/// Puts the value that a step is given.
pub(crate) fn put_value<T, O: Target<T>>(
    out: &mut O,
    before: u64,
    index: u64,
    word: u32,
    to: &mut T,
) -> Result<(), OutFault>
    requires live { IsTrue (O.live out.old) }
    requires order { before ≤ index }
    ensures { O.puts (record_text before (record { index = index; what = Value word }))
        out.old to.old out.new to.new result }
{
    put_entry(out, VALUE_TAG, index - before, to)?;
    put_word(out, word, to)
}

// Puts the number of a call, and the words and bytes that come behind it.
fn put_told<T, O: Target<T>>(
    out: &mut O,
    number: u32,
    words: &[Option<u32>; 32],
    bytes: &[(u32, u8)],
    to: &mut T,
) -> Result<(), OutFault>
    requires { IsTrue (O.live out.old) }
    ensures { O.puts (payload (Calls number (record { words = words.now; bytes = bytes.now })))
        out.old to.old out.new to.new result }
{
    put_word(out, number, to)?;
    put_head(out, words, bytes, to)
}

/// Puts a call, with its number and the words and bytes that come behind it.
pub(crate) fn put_call<T, O: Target<T>>(
    out: &mut O,
    before: u64,
    index: u64,
    number: u32,
    words: &[Option<u32>; 32],
    bytes: &[(u32, u8)],
    to: &mut T,
) -> Result<(), OutFault>
    requires live { IsTrue (O.live out.old) }
    requires order { before ≤ index }
    ensures { O.puts (record_text before
        (record { index = index; what = Calls number (record { words = words.now; bytes = bytes.now }) }))
        out.old to.old out.new to.new result }
{
    put_entry(out, CALL_TAG, index - before, to)?;
    put_told(out, number, words, bytes, to)
}

/// Puts the end, with the number of steps.
pub(crate) fn put_end<T, O: Target<T>>(
    out: &mut O,
    before: u64,
    count: u64,
    to: &mut T,
) -> Result<(), OutFault>
    requires live { IsTrue (O.live out.old) }
    requires order { before ≤ count }
    ensures { O.puts (call_end_text before count) out.old to.old out.new to.new result }
{
    put_entry(out, END_TAG, count - before, to)
}
