//! The image of a number.

ghost use Rattle.std.specs.Prelude.{◌≡◌, ◌+◌, ◌%◌, IfOk};
ghost use Rattle.cx_gen.specs.Made.{IsMade};

use crate::content::{console, disk};
use crate::layout::RAM_PAGES;
use crate::memory::made_memory;
use crate::text::image_text;
use cx_io::NoMemory;
use cx_ram::are_bytes;
use std::alloc::Global;

/// How many processes the kernel of a number runs.
fn processes_of(n: u32) -> u32
    ensures { result ≡ n % 7 + 2 }
{
    n % 7 + 2
}

/// The image of a number.
fn made(alloc: Global, n: u32) -> Result<Vec<u8>, cx_ram::NoMemory>
    ensures { IfOk result (λ bytes. IsMade n bytes.items) }
{
    let ram = made_memory(alloc, processes_of(n))?;
    let disk = disk(alloc, n)?;
    let console = console(alloc, n)?;
    ram.pages();
    are_bytes(&disk);
    are_bytes(&console);
    image_text(alloc, &ram, RAM_PAGES, &disk, &console)
}

/// The image of a number: the text of one in version 1, which keeps the rules, with 256 pages of RAM. Its disk has 16
/// sectors, of which byte i is i times 7 plus `n`, modulo 256; and 64 letters come to its console, of which letter i is
/// that of the number i plus `n`, modulo 26, from a on. Its kernel runs `n` mod 7 + 2 processes, each under a root of
/// its own, and no clause tells of them. `NoMemory` is free.
pub fn make_image(alloc: Global, n: u32) -> Result<Vec<u8>, NoMemory>
    ensures { IfOk result (λ bytes. IsMade n bytes.items) }
{
    match made(alloc, n) {
        Ok(image) => Ok(image),
        Err(_) => Err(NoMemory),
    }
}
