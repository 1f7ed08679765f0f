//! What is on the disk, and what comes to the console.

ghost use Rattle.std.specs.Prelude.{◌≡◌, ◌<◌, ◌^◌, IfOk};
ghost use Rattle.cx_gen.specs.Made.{console_of, disk_of};

use crate::layout::{CONSOLE_SIZE, SECTORS};
use crate::text::push;
use cx_block::SECTOR_SIZE;
use cx_ram::NoMemory;
use std::alloc::Global;

/// The disk of a number.
pub(crate) fn disk(alloc: Global, n: u32) -> Result<Vec<u8>, NoMemory>
    ensures { IfOk result (λ v. v.items ≡ disk_of n) }
{
    let mut disk = Vec::new(alloc);
    for index in 0..SECTORS as u64 * SECTOR_SIZE as u64 {
        push(&mut disk, ((index * 7 + n as u64) % 256) as u8)?;
    }
    Ok(disk)
}

/// What comes to the console of a number: letters.
pub(crate) fn console(alloc: Global, n: u32) -> Result<Vec<u8>, NoMemory>
    ensures { IfOk result (λ v. v.items ≡ console_of n) }
{
    let mut console = Vec::new(alloc);
    for index in 0..CONSOLE_SIZE as u64 {
        push(&mut console, (97 + (index + n as u64) % 26) as u8)?;
    }
    Ok(console)
}
