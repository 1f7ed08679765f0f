//! The page of the kernel's data: the records of the processes, and the kernel's own words.

ghost use Rattle.std.specs.Prelude.{◌+◌, ◌*◌, ◌<◌, ◌≤◌};

use crate::layout::{
    ANSWER_AT, FIRST_FREE, FIRST_TABLE, FREE_AT, KERNEL_WORDS, MOST_PROCESSES, NEXT_AT, PC_AT,
    PROGRAM, RECORD_SIZE, RECORDS, SATP_AT, TABLE_AT,
};
use crate::tables::satp_of;
use crate::words::lay_word;
use cx_map::{PAGE_SIZE, RAM_START};

/// The place of a page of RAM.
fn place_of(page: u32) -> u32 {
    RAM_START.wrapping_add(page.wrapping_mul(PAGE_SIZE as u32))
}

/// The place of the record of the process of this number.
fn record_of(process: u32) -> u32 {
    RECORDS.wrapping_add(process.wrapping_mul(RECORD_SIZE))
}

/// Lays the record of a process that begins its program with its number in a0, and behind which the process of the
/// number `next` gets its turn.
fn lay_record(page: &mut [u8; PAGE_SIZE], process: u32, next: u32)
    requires { process < 8 }
{
    let record = process as usize * RECORD_SIZE as usize;
    lay_word(page, record + PC_AT as usize, PROGRAM);
    lay_word(page, record + ANSWER_AT as usize, process);
    lay_word(page, record + SATP_AT as usize, satp_of(process));
    lay_word(
        page,
        record + TABLE_AT as usize,
        place_of(FIRST_TABLE.wrapping_add(process)),
    );
    lay_word(page, record + NEXT_AT as usize, record_of(next));
}

/// The page of the kernel's data, for so many processes.
pub(crate) fn data_page(processes: u32) -> [u8; PAGE_SIZE]
    requires { processes ≤ 8 }
{
    let mut page = [0; PAGE_SIZE];
    for process in 0..processes {
        let next = if process + 1 < processes {
            process + 1
        } else {
            0
        };
        lay_record(&mut page, process, next);
    }
    let words = (KERNEL_WORDS - RECORDS) as usize;
    lay_word(&mut page, words + FREE_AT as usize, place_of(FIRST_FREE));
    page
}
