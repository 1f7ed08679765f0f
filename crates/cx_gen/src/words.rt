//! Words in a page.

ghost use Rattle.std.specs.Prelude.{◌+◌, ◌≤◌};
ghost use Rattle.cx_map.specs.declared.TheConstants.{PAGE_SIZE};

use byteorder::{ByteOrder, LittleEndian};
use cx_map::PAGE_SIZE;

/// Lays a word at an offset in a page, its low byte first.
pub(crate) fn lay_word(page: &mut [u8; PAGE_SIZE], offset: usize, word: u32)
    requires { offset + 4 ≤ PAGE_SIZE }
{
    LittleEndian::write_u32(&mut page[offset..offset + 4], word);
}
