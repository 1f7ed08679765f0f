//! Handing the items of a step to a program.

ghost use Rattle.std.specs.Prelude.{◌≡◌, is_some};
ghost use Rattle.cx_program.specs.Knowing.{known_by};
ghost use Rattle.cx_shadow.specs.Cells.{byte_of};
ghost use Rattle.cx_slicefmt.specs.Engine.{items_in};
ghost use Rattle.cx_slices.specs.Bytes.{all_there, byte_found, none_stands};
ghost use Rattle.cx_slices.specs.Words.{all_change, changed, is_change};
ghost use Rattle.cx_alone.specs.Steps.{IsHanded};

use crate::fault::Stop;
use cx_program::{Standing, has_byte};
use cx_shadow::Shadow;
use cx_slicefmt::GroupItems;

// Whether a new word is another than the one that stands.
#[inline]
fn is_change(stands: u32, item: Option<u32>) -> bool
    ensures { result ≡ is_change stands item }
{
    match item {
        None => true,
        Some(word) => stands != word,
    }
}

/// Whether no new word is the one that stands.
pub fn all_change(stands: &[u32; 32], items: &[Option<u32>; 32]) -> bool
    ensures { result ≡ all_change stands.now items.now }
{
    let mut at = 0;
    while at < 32 {
        if !is_change(stands[at], items[at]) {
            return false;
        }
        at += 1;
    }
    true
}

/// The words, with the new ones where there are some.
pub fn changed(stands: &[u32; 32], items: &[Option<u32>; 32]) -> [u32; 32]
    ensures { result ≡ changed stands.now items.now }
{
    let mut words = [0; 32];
    let mut at = 0;
    while at < 32 {
        words[at] = items[at].unwrap_or(stands[at]);
        at += 1;
    }
    words
}

/// Whether none of the bytes stands.
pub fn none_stands(shadow: &Shadow, bytes: &[(u32, u8)]) -> bool
    ensures { result ≡ none_stands (byte_of shadow.now) bytes.now }
{
    for byte in bytes {
        if has_byte(shadow, byte.0, byte.1) {
            return false;
        }
    }
    true
}

/// Whether one of the bytes is at an address.
pub fn is_there(bytes: &[(u32, u8)], va: u32) -> bool
    ensures { result ≡ is_some (byte_found bytes.now va) }
{
    for byte in bytes {
        if byte.0 == va {
            return true;
        }
    }
    false
}

/// Whether each of the items is at the address of one of the bytes.
pub fn all_there(bytes: &[(u32, u8)], items: &[(u32, u8)]) -> bool
    ensures { result ≡ all_there bytes.now items.now }
{
    for item in items {
        if !is_there(bytes, item.0) {
            return false;
        }
    }
    true
}

/// Hands items to a program. `Broken` comes exactly where one of them stands already; nothing has changed then.
/// `NoMemory` is free.
pub(crate) fn hand(standing: &mut Standing, items: &GroupItems) -> Result<(), Stop>
    ensures { IsHanded (known_by standing.old) (items_in items.now) (known_by standing.new) result }
{
    if !all_change(&standing.words, &items.words)
        || !none_stands(&standing.shadow, items.bytes.as_slice())
    {
        return Err(Stop::Broken);
    }
    standing.shadow.hold_all(items.bytes.as_slice())?;
    standing.shadow.put_all(items.bytes.as_slice());
    standing.words = changed(&standing.words, &items.words);
    Ok(())
}
