//! Page tables (Privileged Architecture 1.12, 4.3).

ghost use Rattle.std.specs.Prelude.{◌+◌, ◌≤◌};
ghost use Rattle.cx_map.specs.declared.TheConstants.{PAGE_SIZE};

use crate::layout::{BOARD, BOARD_PAGE, FIRST_ROOT, FIRST_TABLE, PROGRAM, PROGRAM_PAGE};
use crate::words::lay_word;
use cx_csr::fields::SATP_MODE;
use cx_map::{PAGE_SIZE, RAM_START};

// The bits of an entry.

/// It is valid.
const VALID: u32 = 1;
/// The page may be read,
const READABLE: u32 = 1 << 1;
/// written,
const WRITABLE: u32 = 1 << 2;
/// and its words may be carried out.
const EXECUTABLE: u32 = 1 << 3;
/// User mode may do so.
const USER: u32 = 1 << 4;
/// The page was accessed,
const ACCESSED: u32 = 1 << 6;
/// and written.
const DIRTY: u32 = 1 << 7;

/// The bits of a page of data.
pub(crate) const PAGE_OF_DATA: u32 = VALID | READABLE | WRITABLE | USER | ACCESSED | DIRTY;
/// The bits of a page of instructions.
const PAGE_OF_CODE: u32 = VALID | READABLE | EXECUTABLE | USER | ACCESSED;

/// The number of RAM's first page among all pages of the machine.
const FIRST_PAGE: u32 = RAM_START >> 12;

/// An entry for a page of RAM.
fn entry(page: u32, bits: u32) -> u32 {
    (FIRST_PAGE.wrapping_add(page) << 10) | bits
}

/// Where a table has the entry of the page at an address.
fn entry_offset(address: u32) -> usize
    ensures { result + 4 ≤ PAGE_SIZE }
{
    ((address >> 12) & 0x3ff) as usize * 4
}

/// Where a root has the entry of the table for an address.
fn root_offset(address: u32) -> usize
    ensures { result + 4 ≤ PAGE_SIZE }
{
    (address >> 22) as usize * 4
}

/// What satp has while the process of this number runs: Sv32, and its root.
pub(crate) fn satp_of(process: u32) -> u32 {
    1 << SATP_MODE | FIRST_PAGE.wrapping_add(FIRST_ROOT).wrapping_add(process)
}

/// The root of the process of this number, which has one table.
pub(crate) fn root_of(process: u32) -> [u8; PAGE_SIZE] {
    let mut root = [0; PAGE_SIZE];
    lay_word(
        &mut root,
        root_offset(PROGRAM),
        entry(FIRST_TABLE.wrapping_add(process), VALID),
    );
    root
}

/// The table of each process at first: the program and the board. Pages of the heap come later.
pub(crate) fn first_table() -> [u8; PAGE_SIZE] {
    let mut table = [0; PAGE_SIZE];
    lay_word(
        &mut table,
        entry_offset(PROGRAM),
        entry(PROGRAM_PAGE, PAGE_OF_CODE),
    );
    lay_word(
        &mut table,
        entry_offset(BOARD),
        entry(BOARD_PAGE, PAGE_OF_DATA),
    );
    table
}
