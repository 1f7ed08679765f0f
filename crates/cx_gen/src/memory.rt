//! What RAM has at the start.

ghost use Rattle.std.specs.Prelude.{◌≡◌, ◌<◌, ◌≤◌, length, IfOk};
ghost use Rattle.cx_map.specs.Map.{size_of_pages};

use crate::assembler::assemble;
use crate::kernel::KERNEL;
use crate::layout::{
    DATA_PAGE, FIRST_ROOT, FIRST_TABLE, KERNEL_PAGE, PROGRAM, PROGRAM_PAGE, RAM_PAGES,
};
use crate::program::Program;
use crate::records::data_page;
use crate::tables::{first_table, root_of};
use crate::user::ROUTINES;
use cx_map::{PAGE_SIZE, RAM_START};
use cx_ram::{NoMemory, Ram};
use std::alloc::Global;

/// Writes a page.
fn put(ram: &mut Ram, page: u32, bytes: &[u8; PAGE_SIZE]) -> Result<(), NoMemory>
    requires page { page < 256 }
    requires size { length ram.old.memory ≡ size_of_pages 256 }
    ensures size { length ram.new.memory ≡ size_of_pages 256 }
{
    ram.reserve(1)?;
    ram.set_page(page, bytes);
    Ok(())
}

/// Writes the page tables of the processes.
fn put_tables(ram: &mut Ram, processes: u32) -> Result<(), NoMemory>
    requires count { processes ≤ 8 }
    requires size { length ram.old.memory ≡ size_of_pages 256 }
    ensures size { length ram.new.memory ≡ size_of_pages 256 }
{
    for process in 0..processes {
        put(ram, FIRST_ROOT + process, &root_of(process))?;
        put(ram, FIRST_TABLE + process, &first_table())?;
    }
    Ok(())
}

/// Writes the instructions of the kernel and of the program.
fn put_code(ram: &mut Ram) -> Result<(), NoMemory>
    requires size { length ram.old.memory ≡ size_of_pages 256 }
    ensures size { length ram.new.memory ≡ size_of_pages 256 }
{
    let kernel = Program {
        routines: &KERNEL,
        start: RAM_START,
    };
    put(ram, KERNEL_PAGE, &assemble(&kernel))?;
    let program = Program {
        routines: &ROUTINES,
        start: PROGRAM,
    };
    put(ram, PROGRAM_PAGE, &assemble(&program))
}

/// RAM with the kernel and so many processes.
pub(crate) fn made_memory(alloc: Global, processes: u32) -> Result<Ram, NoMemory>
    requires { processes ≤ 8 }
    ensures { IfOk result (λ r. length r.memory ≡ size_of_pages 256) }
{
    let mut ram = Ram::new(alloc, RAM_PAGES)?;
    put_code(&mut ram)?;
    put(&mut ram, DATA_PAGE, &data_page(processes))?;
    put_tables(&mut ram, processes)?;
    Ok(ram)
}
