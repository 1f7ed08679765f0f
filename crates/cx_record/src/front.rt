//! What stands in front of the records: the header, and the pages of RAM.

ghost use Rattle.std.specs.Prelude.{◌≡◌, ◌+◌, ◌<◌, ◌≤◌, IfOk, OnOk, IsTrue};
ghost use Rattle.cx_codec.specs.Puts.{Puts, Starts, onto};
ghost use Rattle.cx_live.specs.Image.{IsImage};
ghost use Rattle.cx_live.specs.Run.{reset_state};
ghost use Rattle.cx_log.specs.Engine.{output_of};
ghost use Rattle.cx_log.specs.Order.{IsHeader, at_start};
ghost use Rattle.cx_log.specs.Text.{page_count, page_text, pages_text};
ghost use Rattle.cx_record.specs.Promise.{front_text, header_at_reset};

use cx_codec::OutFault;
use cx_io::Sink;
use cx_live::Image;
use cx_log::{Header, LogWriter};
use cx_map::PAGE_SIZE;
use cx_ram::is_all_zero;
use std::alloc::Global;

// None for a page of zeros, and one for any other.
fn count_page(image: &Image, page: u32) -> u32
    requires { page < image.now.pages }
    ensures count { page_count image.now.memory (page + 1) ≡ page_count image.now.memory page + result }
    ensures most { result ≤ 1 }
{
    let mut bytes = [0u8; PAGE_SIZE];
    image.page(page, &mut bytes);
    if is_all_zero(&bytes) { 0 } else { 1 }
}

// How many pages aren't all zero.
fn count_pages(image: &Image) -> u32
    ensures count { result ≡ page_count image.now.memory image.now.pages }
    ensures within { result ≤ image.now.pages }
{
    let mut count = 0;
    for page in 0..image.pages() {
        count += count_page(image, page);
    }
    count
}

// The header of a recording that begins at reset.
fn header(image: &Image) -> Header
    requires { IsImage image.now }
    ensures header { result ≡ header_at_reset image.now }
    ensures rules { IsHeader result }
{
    Header {
        version: image.version(),
        split: image.split(),
        pages: image.pages(),
        base: 0,
        start: image.start(),
        count: count_pages(image),
    }
}

// Writes a page, where it isn't all zero.
fn put_page<T: Sink>(
    image: &Image,
    page: u32,
    writer: &mut LogWriter,
    sink: &mut T,
) -> Result<(), OutFault>
    requires pages { writer.old.header.pages ≡ image.now.pages }
    requires inside { page < image.now.pages }
    requires live { IsTrue writer.old.output.live }
    requires rising { writer.old.least ≤ page }
    requires owed { writer.old.left + page_count image.now.memory page ≡ page_count image.now.memory image.now.pages }
    ensures puts { Puts OutFault.WriteFault (page_text image.now.memory page)
        (onto writer.old.output (T.held sink.old) (T.faults sink.old)) (onto writer.new.output (T.held sink.new)
        (T.faults sink.new)) result }
    ensures header { writer.new.header ≡ writer.old.header }
    ensures behind { writer.new.behind ≡ writer.old.behind }
    ensures left { OnOk result (writer.new.left + page_count image.now.memory (page + 1) ≡ page_count image.now.memory
        image.now.pages) }
    ensures next { OnOk result (writer.new.least ≤ page + 1) }
{
    let mut bytes = [0u8; PAGE_SIZE];
    image.page(page, &mut bytes);
    if is_all_zero(&bytes) {
        return Ok(());
    }
    writer.page(page, &bytes, sink)
}

// Writes the pages.
fn put_pages<T: Sink>(image: &Image, writer: &mut LogWriter, sink: &mut T) -> Result<(), OutFault>
    requires pages { writer.old.header.pages ≡ image.now.pages }
    requires live { IsTrue writer.old.output.live }
    requires first { writer.old.least ≡ 0 }
    requires owed { writer.old.left ≡ page_count image.now.memory image.now.pages }
    ensures puts { Puts OutFault.WriteFault (pages_text image.now.memory image.now.pages)
        (onto writer.old.output (T.held sink.old) (T.faults sink.old)) (onto writer.new.output (T.held sink.new)
        (T.faults sink.new)) result }
    ensures header { writer.new.header ≡ writer.old.header }
    ensures behind { writer.new.behind ≡ writer.old.behind }
    ensures left { OnOk result (writer.new.left ≡ 0) }
{
    for page in 0..image.pages() {
        put_page(image, page, writer, sink)?;
    }
    Ok(())
}

/// Begins the recording of an image's run with its header and its pages. `WriteFault` comes only where the sink's count
/// of faults rose, and `NoMemory` where memory is refused.
pub(crate) fn start<T: Sink>(
    alloc: Global,
    image: &Image,
    sink: &mut T,
) -> Result<LogWriter, OutFault>
    requires { IsImage image.now }
    ensures starts { Starts OutFault.WriteFault (front_text image.now) output_of
        (T.held sink.old) (T.held sink.new) (T.faults sink.old) (T.faults sink.new) result }
    ensures pages { IfOk result (λ w. w.header.pages ≡ image.now.pages) }
    ensures behind { IfOk result (λ w. w.behind ≡ at_start 0 reset_state) }
    ensures left { IfOk result (λ w. w.left ≡ 0) }
{
    let mut writer = LogWriter::start(alloc, &header(image), sink)?;
    put_pages(image, &mut writer, sink)?;
    Ok(writer)
}
