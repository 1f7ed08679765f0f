//! Where everything lies: what the kernel, the processes and their page tables agree on.

use cx_map::{PAGE_SIZE, RAM_START};

/// The bytes of a page.
const PAGE: u32 = PAGE_SIZE as u32;

/// The pages of RAM.
pub(crate) const RAM_PAGES: u32 = 256;
/// The sectors of the disk.
pub(crate) const SECTORS: u32 = 16;
/// The bytes that come to the console.
pub(crate) const CONSOLE_SIZE: u32 = 64;
/// The most processes that there are.
pub(crate) const MOST_PROCESSES: u32 = 8;

// Pages of RAM, by their numbers.

/// The kernel's instructions, at which the machine starts.
pub(crate) const KERNEL_PAGE: u32 = 0;
/// The records of the processes, and the kernel's own words.
pub(crate) const DATA_PAGE: u32 = 1;
/// The instructions of the program.
pub(crate) const PROGRAM_PAGE: u32 = 2;
/// The board.
pub(crate) const BOARD_PAGE: u32 = 3;
/// The root of the first process; those of the others follow.
pub(crate) const FIRST_ROOT: u32 = 8;
/// The table below the root of the first process; those of the others follow.
pub(crate) const FIRST_TABLE: u32 = FIRST_ROOT + MOST_PROCESSES;
/// The first page that the kernel hands out; all behind it follow.
pub(crate) const FIRST_FREE: u32 = 32;

// Places in RAM.

/// The records of the processes, one behind the other.
pub(crate) const RECORDS: u32 = RAM_START + DATA_PAGE * PAGE;
/// The kernel's own words.
pub(crate) const KERNEL_WORDS: u32 = RECORDS + MOST_PROCESSES * RECORD_SIZE;
/// The end of RAM.
pub(crate) const RAM_END: u32 = RAM_START + RAM_PAGES * PAGE;

// The record of a process. It begins with pc and x1 to x31, a word each.

/// How many bytes it takes.
pub(crate) const RECORD_SIZE: u32 = 256;
/// Where pc stands in it.
pub(crate) const PC_AT: i32 = 0;
/// Where x10 stands: the first operand of a call, and its answer.
pub(crate) const ANSWER_AT: i32 = 40;
/// Where x31 stands.
pub(crate) const LAST_AT: i32 = 124;
/// Its satp.
pub(crate) const SATP_AT: i32 = 128;
/// The place of the table below its root.
pub(crate) const TABLE_AT: i32 = 132;
/// The place of the record of the next process; the last one has that of the first.
pub(crate) const NEXT_AT: i32 = 136;
/// Whether it waits for the disk: 0 or 1.
pub(crate) const WAITS_AT: i32 = 140;

// The kernel's own words.

/// The place of the next page that nobody has.
pub(crate) const FREE_AT: i32 = 0;
/// The place of the record of the process that waits for the disk, or 0.
pub(crate) const WAITER_AT: i32 = 4;

// Addresses of a process. All are below one entry of its root.

/// The program.
pub(crate) const PROGRAM: u32 = 0x0040_0000;
/// The heap, whose pages come as they are needed.
pub(crate) const HEAP: u32 = 0x0041_0000;
/// How many bytes the heap has.
pub(crate) const HEAP_SIZE: u32 = 16 * PAGE;
/// The page of the heap that a sector is read into.
pub(crate) const BUFFER: u32 = HEAP + PAGE;
/// The first page of the heap once more.
pub(crate) const TWIN: u32 = HEAP + HEAP_SIZE;
/// The board: a page that all processes share.
pub(crate) const BOARD: u32 = TWIN + PAGE;

// Calls, by their numbers in a7. Operands are in a0 and a1, and so is the answer, in a0.

/// Others get their turn.
pub(crate) const YIELD: i32 = 0;
/// A sector, whose number is in a1, is read to the address in a0. The answer is 1, or 0 where the disk is busy.
pub(crate) const READ_SECTOR: i32 = 1;
/// The next byte of the console, or -1 where none waits.
pub(crate) const GET_BYTE: i32 = 2;
/// The byte in a0 is printed.
pub(crate) const PUT_BYTE: i32 = 3;
/// The page at the address in a0 gets the frame of that at the address in a1.
pub(crate) const SHARE: i32 = 4;
