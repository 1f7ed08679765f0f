//! What stands in front of the records of a recording in version 2.

ghost use Rattle.std.specs.Prelude.{◌≡◌, ◌+◌, ◌*◌, ◌<◌, ◌≤◌, if◌then◌else◌, length, IfOk, OnOk, IsTrue};
ghost use Rattle.cx_codec.specs.Puts.{Puts, Starts, onto};
ghost use Rattle.cx_log.specs.Engine.{output_of};
ghost use Rattle.cx_log.specs.Order.{IsHeader, at_start};
ghost use Rattle.cx_log.specs.Text.{page_count, page_text, pages_text};
ghost use Rattle.cx_map.specs.Map.{size_of_pages};
ghost use Rattle.cx_map.specs.declared.TheConstants.{PAGE_SIZE};
ghost use Rattle.cx_commands.specs.Upgrade.{front_text, upgraded_header};

use cx_codec::OutFault;
use cx_io::Sink;
use cx_log::{Header, LogWriter};
use cx_map::PAGE_SIZE;
use cx_ram::Ram;
use std::alloc::Global;

// None for a page of zeros, and one for any other.
fn count_page(ram: &Ram, page: u32) -> u32
    requires { page * PAGE_SIZE + PAGE_SIZE ≤ length ram.now.memory }
    ensures count { page_count ram.now.memory (page + 1) ≡ page_count ram.now.memory page + result }
    ensures most { result ≤ 1 }
{
    if ram.is_zero(page) { 0 } else { 1 }
}

// How many pages aren't all zero.
fn count_pages(ram: &Ram, pages: u32) -> u32
    requires { length ram.now.memory ≡ size_of_pages pages }
    ensures count { result ≡ page_count ram.now.memory pages }
    ensures within { result ≤ pages }
{
    let mut count = 0;
    for page in 0..pages {
        count += count_page(ram, page);
    }
    count
}

// The header of version 2.
fn upgraded(header: &Header, ram: &Ram) -> Header
    requires rules { IsHeader header.now }
    requires size { length ram.now.memory ≡ size_of_pages header.now.pages }
    ensures header { result ≡ upgraded_header header.now ram.now.memory }
    ensures rules { IsHeader result }
{
    Header {
        version: 2,
        split: header.split,
        pages: header.pages,
        base: header.base,
        start: header.start,
        count: count_pages(ram, header.pages),
    }
}

// Writes a page, where it isn't all zero.
fn put_page<T: Sink>(
    ram: &Ram,
    page: u32,
    writer: &mut LogWriter,
    sink: &mut T,
) -> Result<(), OutFault>
    requires size { length ram.now.memory ≡ size_of_pages writer.old.header.pages }
    requires inside { page < writer.old.header.pages }
    requires live { IsTrue writer.old.output.live }
    requires rising { writer.old.least ≤ page }
    requires owed { writer.old.left + page_count ram.now.memory page ≡ page_count ram.now.memory
        writer.old.header.pages }
    ensures puts { Puts OutFault.WriteFault (page_text ram.now.memory page)
        (onto writer.old.output (T.held sink.old) (T.faults sink.old)) (onto writer.new.output (T.held sink.new)
        (T.faults sink.new)) result }
    ensures header { writer.new.header ≡ writer.old.header }
    ensures behind { writer.new.behind ≡ writer.old.behind }
    ensures left { OnOk result (writer.new.left + page_count ram.now.memory (page + 1) ≡ page_count ram.now.memory
        writer.old.header.pages) }
    ensures next { OnOk result (writer.new.least ≤ page + 1) }
{
    if ram.is_zero(page) {
        return Ok(());
    }
    let mut bytes = [0u8; PAGE_SIZE];
    ram.page(page, &mut bytes);
    writer.page(page, &bytes, sink)
}

// Writes the pages.
fn put_pages<T: Sink>(
    ram: &Ram,
    pages: u32,
    writer: &mut LogWriter,
    sink: &mut T,
) -> Result<(), OutFault>
    requires size { length ram.now.memory ≡ size_of_pages pages }
    requires pages { writer.old.header.pages ≡ pages }
    requires live { IsTrue writer.old.output.live }
    requires first { writer.old.least ≡ 0 }
    requires owed { writer.old.left ≡ page_count ram.now.memory pages }
    ensures puts { Puts OutFault.WriteFault (pages_text ram.now.memory pages)
        (onto writer.old.output (T.held sink.old) (T.faults sink.old)) (onto writer.new.output (T.held sink.new)
        (T.faults sink.new)) result }
    ensures header { writer.new.header ≡ writer.old.header }
    ensures behind { writer.new.behind ≡ writer.old.behind }
    ensures left { OnOk result (writer.new.left ≡ 0) }
{
    for page in 0..pages {
        put_page(ram, page, writer, sink)?;
    }
    Ok(())
}

/// Begins a recording of version 2 with this header, and with the pages of this RAM. `WriteFault` comes only where the
/// sink's count of faults rose, and `NoMemory` where memory is refused.
pub fn start_upgraded<T: Sink>(
    alloc: Global,
    header: &Header,
    ram: &Ram,
    sink: &mut T,
) -> Result<LogWriter, OutFault>
    requires rules { IsHeader header.now }
    requires size { length ram.now.memory ≡ size_of_pages header.now.pages }
    ensures starts { Starts OutFault.WriteFault (front_text header.now ram.now.memory) output_of
        (T.held sink.old) (T.held sink.new) (T.faults sink.old) (T.faults sink.new) result }
    ensures pages { IfOk result (λ w. w.header.pages ≡ header.now.pages) }
    ensures behind { IfOk result (λ w. w.behind ≡ at_start header.now.base header.now.start) }
    ensures left { IfOk result (λ w. w.left ≡ 0) }
{
    let mut writer = LogWriter::start(alloc, &upgraded(header, ram), sink)?;
    put_pages(ram, header.pages, &mut writer, sink)?;
    Ok(writer)
}
