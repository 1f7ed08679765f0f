//! The text of an image.

ghost use Rattle.std.specs.Prelude.{◌≡◌, ◌+◌, ◌*◌, ◌^◌, ◌<◌, ◌≤◌, [], ◌∷◌, length, ◌++◌, IfOk, OnOk};
ghost use Rattle.cx_codec.specs.Varint.{varint};
ghost use Rattle.cx_log.specs.Text.{page_count, page_text, pages_text};
ghost use Rattle.cx_live.specs.Text.{image_text, memory_text, pieces_text};
ghost use Rattle.cx_map.specs.Map.{size_of_pages};
ghost use Rattle.cx_gen.specs.Made.{plain_image};
ghost use Rattle.cx_map.specs.declared.TheConstants.{PAGE_SIZE};

use cx_block::SECTOR_SIZE;
use cx_ram::{NoMemory, Ram};
use std::alloc::Global;

/// Appends a byte.
pub(crate) fn push(text: &mut Vec<u8>, byte: u8) -> Result<(), NoMemory>
    ensures { OnOk result (text.new.items ≡ text.old.items ++ byte ∷ []) }
{
    match text.push(byte) {
        Ok(()) => Ok(()),
        Err(_) => Err(NoMemory),
    }
}

/// Appends a number as a varint of one or two bytes.
#[tactic(auto, unfolding(cx_codec::specs::Varint::varint))]
fn put_number(text: &mut Vec<u8>, number: u32) -> Result<(), NoMemory>
    requires { number < 2 ^ 14 }
    ensures { OnOk result (text.new.items ≡ text.old.items ++ varint number) }
{
    if number < 128 {
        return push(text, number as u8);
    }
    push(text, (128 + number % 128) as u8)?;
    push(text, (number / 128) as u8)
}

/// How many of the pages aren't all zero: none of this one, or one.
fn count_page(ram: &Ram, page: u32) -> u32
    requires { page * PAGE_SIZE + PAGE_SIZE ≤ length ram.now.memory }
    ensures count { page_count ram.now.memory (page + 1) ≡ page_count ram.now.memory page + result }
    ensures most { result ≤ 1 }
{
    if ram.is_zero(page) { 0 } else { 1 }
}

/// How many pages aren't all zero.
fn count_pages(ram: &Ram, pages: u32) -> u32
    requires { length ram.now.memory ≡ size_of_pages pages }
    ensures count { result ≡ page_count ram.now.memory pages }
    ensures most { result ≤ pages }
{
    let mut count = 0;
    for page in 0..pages {
        count += count_page(ram, page);
    }
    count
}

/// Appends a page, where it isn't all zero.
fn put_page(text: &mut Vec<u8>, ram: &Ram, page: u32) -> Result<(), NoMemory>
    requires inside { page * PAGE_SIZE + PAGE_SIZE ≤ length ram.now.memory }
    requires small { page < 2 ^ 14 }
    ensures { OnOk result (text.new.items ≡ text.old.items ++ page_text ram.now.memory page) }
{
    if ram.is_zero(page) {
        return Ok(());
    }
    put_number(text, page)?;
    text.extend_from_slice(ram.page_bytes(page))?;
    Ok(())
}

/// Appends the pages that aren't all zero, behind their number.
fn put_memory(text: &mut Vec<u8>, ram: &Ram, pages: u32) -> Result<(), NoMemory>
    requires size { length ram.now.memory ≡ size_of_pages pages }
    requires few { pages < 2 ^ 14 }
    ensures { OnOk result (text.new.items ≡ text.old.items ++ memory_text pages ram.now.memory) }
{
    put_number(text, count_pages(ram, pages))?;
    for page in 0..pages {
        put_page(text, ram, page)?;
    }
    Ok(())
}

/// Appends pieces of some size, behind their number.
fn put_pieces(text: &mut Vec<u8>, size: usize, bytes: &[u8]) -> Result<(), NoMemory>
    requires size { 1 ≤ size }
    requires few { length bytes.now < 2 ^ 14 }
    ensures { OnOk result (text.new.items ≡ text.old.items ++ pieces_text size bytes.now) }
{
    put_number(text, (bytes.len() / size) as u32)?;
    text.extend_from_slice(bytes)?;
    Ok(())
}

/// The text of an image of version 1 with this RAM and this disk, and these bytes for the console.
#[tactic(auto, unfolding(cx_live::specs::Text::image_text))]
pub(crate) fn image_text(
    alloc: Global,
    ram: &Ram,
    pages: u32,
    disk: &[u8],
    console: &[u8],
) -> Result<Vec<u8>, NoMemory>
    requires ram { length ram.now.memory ≡ size_of_pages pages }
    requires few { pages < 2 ^ 14 }
    requires disk { length disk.now < 2 ^ 14 }
    requires console { length console.now < 2 ^ 14 }
    ensures { IfOk result (λ t. t.items ≡ image_text (plain_image pages ram.now.memory disk.now console.now)) }
{
    let mut text = Vec::new(alloc);
    text.extend_from_slice(b"CXI1")?;
    put_number(&mut text, pages)?;
    put_memory(&mut text, ram, pages)?;
    put_pieces(&mut text, SECTOR_SIZE, disk)?;
    put_pieces(&mut text, 1, console)?;
    Ok(text)
}
