//! Bytes of RAM in a row.

ghost use Rattle.std.specs.Prelude.{◌≡◌, ◌+◌, ◌%◌, ◌≤◌, length, take, drop};
ghost use Rattle.cx_map.specs.Map.{IsInRam, ram_index};

use cx_map::{PAGE_SIZE, RAM_START};
use cx_ram::Ram;

// Copies bytes that lie in one page.
fn copy_in_page(ram: &Ram, index: usize, into: &mut [u8])
    requires page { index % PAGE_SIZE + length into.old ≤ PAGE_SIZE }
    requires some { 1 ≤ length into.old }
    requires ram { index + length into.old ≤ length ram.now.memory }
    ensures { into.new ≡ take (length into.old) (drop index ram.now.memory) }
{
    ram.pages();
    let at = index % PAGE_SIZE;
    let end = at + into.len();
    into.copy_from_slice(&ram.page_bytes((index / PAGE_SIZE) as u32)[at..end]);
}

/// Copies the bytes of RAM from a place on, 1 to 4,096 of them.
pub(crate) fn copy_from_ram(ram: &Ram, place: u32, into: &mut [u8])
    requires ram { IsInRam (length ram.now.memory) place (length into.old) }
    requires some { 1 ≤ length into.old }
    requires most { length into.old ≤ PAGE_SIZE }
    ensures { into.new ≡ take (length into.old) (drop (ram_index place) ram.now.memory) }
{
    let index = (place - RAM_START) as usize;
    let here = PAGE_SIZE - index % PAGE_SIZE;
    if into.len() <= here {
        copy_in_page(ram, index, into);
    } else {
        let (first, second) = into.split_at_mut(here);
        copy_in_page(ram, index, first);
        copy_in_page(ram, index + here, second);
    }
}
