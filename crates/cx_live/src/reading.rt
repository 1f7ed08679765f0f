//! Reading an image, field by field.

ghost use Rattle.std.specs.Prelude.{◌≡◌, ◌*◌, ◌%◌, ◌≤◌, ◌<◌, ◌^◌, length, replicate, true, IfOk, OnOk, IsSome, IsTrue};
ghost use Rattle.cx_codec.specs.Fields.{bytes_at};
ghost use Rattle.cx_codec.specs.Reads.{Goes, Reads, always, over};
ghost use Rattle.cx_io.specs.Cause.{HasCause};
ghost use Rattle.cx_log.specs.Fault.{log_met};
ghost use Rattle.cx_log.specs.Order.{IsVersion};
ghost use Rattle.cx_log.specs.Reading.{pages_at};
ghost use Rattle.cx_map.specs.Map.{IsPageCount, size_of_pages};
ghost use Rattle.cx_live.specs.Reading.{given_flag_at, image_at, ram_at, pieces_at, split_at, version_at};
ghost use Rattle.cx_live.specs.Run.{reset_state};

use crate::image::Image;
use crate::limits::MOST_CONSOLE;
use crate::reset::reset_state;
use cx_block::{MOST_SECTORS, SECTOR_SIZE};
use cx_codec::Bytes;
use cx_hart::Machine;
use cx_io::{NoMemory, Source};
use cx_log::{LogFault, flag, page, varint_between};
use cx_map::{MOST_PAGES, PAGE_SIZE};
use std::alloc::Global;

// The version that the magic tells.
fn version<S: Source>(bytes: &mut Bytes, source: &mut S) -> Result<u8, LogFault>
    requires { IsTrue bytes.old.live }
    ensures reads { IsSome (S.left source.old) → Reads log_met (λ v. v) version_at
        (over bytes.old (S.left source.old) (S.given source.old))
        (over bytes.new (S.left source.new) (S.given source.new)) result }
    ensures goes { Goes LogFault.ReadFault bytes.old bytes.new (S.faults source.old) (S.faults source.new) result }
    ensures range { IfOk result (λ v. (1 ≤ v) × (v ≤ 2)) }
{
    let start = bytes.at();
    let mut field = [0u8; 4];
    bytes.take(&mut field, source)?;
    if field == *b"CXI1" {
        return Ok(1);
    }
    if field == *b"CXI2" {
        return Ok(2);
    }
    bytes.refuse();
    Err(LogFault::Format(start))
}

// The flag of the hart.
fn given_flag<S: Source>(bytes: &mut Bytes, source: &mut S) -> Result<bool, LogFault>
    requires { IsTrue bytes.old.live }
    ensures reads { IsSome (S.left source.old) → Reads log_met (λ s. s) given_flag_at
        (over bytes.old (S.left source.old) (S.given source.old))
        (over bytes.new (S.left source.new) (S.given source.new)) result }
    ensures goes { Goes LogFault.ReadFault bytes.old bytes.new (S.faults source.old) (S.faults source.new) result }
{
    let flag = flag(bytes, source)?;
    Ok(flag == 1)
}

// The flag of the hart, which version 1 hasn't.
fn split<S: Source>(version: u8, bytes: &mut Bytes, source: &mut S) -> Result<bool, LogFault>
    requires live { IsTrue bytes.old.live }
    requires range { (1 ≤ version) × (version ≤ 2) }
    ensures reads { IsSome (S.left source.old) → Reads log_met (λ s. s) (split_at version)
        (over bytes.old (S.left source.old) (S.given source.old))
        (over bytes.new (S.left source.new) (S.given source.new)) result }
    ensures goes { Goes LogFault.ReadFault bytes.old bytes.new (S.faults source.old) (S.faults source.new) result }
    ensures version { IfOk result (IsVersion version) }
{
    let _ = bytes.at();
    if version == 1 {
        return Ok(false);
    }
    given_flag(bytes, source)
}

// Zeros, for bytes to be read into.
fn zeros(alloc: Global, count: usize) -> Result<Vec<u8>, NoMemory>
    ensures { IfOk result (λ v. length v.items ≡ count) }
{
    match vec![in alloc; 0u8; count] {
        Ok(zeros) => Ok(zeros),
        Err(_) => Err(NoMemory),
    }
}

// Fills a vector with the bytes that stand here.
fn take<S: Source>(bytes: &mut Bytes, into: &mut Vec<u8>, source: &mut S) -> Result<(), LogFault>
    requires { IsTrue bytes.old.live }
    ensures reads { IsSome (S.left source.old)
        → Reads log_met (always into.new.items) (bytes_at (length into.old.items))
        (over bytes.old (S.left source.old) (S.given source.old))
        (over bytes.new (S.left source.new) (S.given source.new)) result }
    ensures goes { Goes LogFault.ReadFault bytes.old bytes.new (S.faults source.old) (S.faults source.new) result }
    ensures size { length into.new.items ≡ length into.old.items }
{
    bytes.take(into, source)?;
    Ok(())
}

// Pieces of some size, at most so many, behind their number.
fn pieces<S: Source>(
    alloc: Global,
    bytes: &mut Bytes,
    most: usize,
    size: usize,
    source: &mut S,
) -> Result<Vec<u8>, LogFault>
    requires live { IsTrue bytes.old.live }
    requires small { (most < 2 ^ 32) × (size < 2 ^ 16) }
    ensures reads { IsSome (S.left source.old) → Reads log_met (λ v. v.items) (pieces_at most size)
        (over bytes.old (S.left source.old) (S.given source.old))
        (over bytes.new (S.left source.new) (S.given source.new)) result }
    ensures live { OnOk result (IsTrue bytes.new.live) }
    ensures cause { HasCause LogFault.ReadFault (S.faults source.old) (S.faults source.new) result }
    ensures size { IfOk result (λ v. length v.items ≤ most * size) }
    ensures whole { IfOk result (λ v. length v.items % size ≡ 0) }
{
    let count = varint_between(bytes, 0, most as u64, source)? as usize;
    let mut pieces = zeros(alloc, count * size)?;
    take(bytes, &mut pieces, source)?;
    Ok(pieces)
}

// Makes sure that a page can be written.
fn reserve(machine: &mut Machine) -> Result<(), NoMemory>
    ensures room { OnOk result (2 ≤ machine.new.spare) }
    ensures same { machine.new ≡ record machine.old { spare = machine.new.spare } }
{
    match machine.reserve(2) {
        Ok(()) => Ok(()),
        Err(_) => Err(NoMemory),
    }
}

// Reads so many pages into the machine's memory.
fn fill<S: Source>(
    machine: &mut Machine,
    count: u32,
    pages: u32,
    bytes: &mut Bytes,
    source: &mut S,
) -> Result<(), LogFault>
    requires live { IsTrue bytes.old.live }
    requires pages { 1 ≤ pages }
    requires size { length machine.old.memory ≡ size_of_pages pages }
    ensures reads { IsSome (S.left source.old) → Reads log_met (always machine.new.memory)
        (pages_at pages count 0 machine.old.memory)
        (over bytes.old (S.left source.old) (S.given source.old))
        (over bytes.new (S.left source.new) (S.given source.new)) result }
    ensures live { OnOk result (IsTrue bytes.new.live) }
    ensures state { machine.new.state ≡ machine.old.state }
    ensures split { machine.new.split ≡ machine.old.split }
    ensures size { length machine.new.memory ≡ length machine.old.memory }
    ensures cause { HasCause LogFault.ReadFault (S.faults source.old) (S.faults source.new) result }
{
    let mut block = [0u8; PAGE_SIZE];
    let mut left = count;
    let mut least = 0;
    while left > 0 {
        let number = page(bytes, pages, least, &mut block, source)?;
        reserve(machine)?;
        machine.fill(number, &block);
        least = number + 1;
        left -= 1;
    }
    Ok(())
}

// A machine at reset, with nothing in its memory yet.
fn blank_machine(alloc: Global, pages: u32, split: bool) -> Result<Machine, NoMemory>
    requires { IsPageCount pages }
    ensures state { IfOk result (λ m. m.state ≡ reset_state) }
    ensures memory { IfOk result (λ m. m.memory ≡ replicate (size_of_pages pages) 0) }
    ensures split { IfOk result (λ m. m.split ≡ split) }
{
    match Machine::with_split(alloc, pages, reset_state(pages), split) {
        Ok(machine) => Ok(machine),
        Err(_) => Err(NoMemory),
    }
}

// The machine, with the pages of RAM that aren't all zero.
fn memory<S: Source>(
    alloc: Global,
    pages: u32,
    split: bool,
    bytes: &mut Bytes,
    source: &mut S,
) -> Result<Machine, LogFault>
    requires live { IsTrue bytes.old.live }
    requires pages { IsPageCount pages }
    ensures reads { IsSome (S.left source.old) → Reads log_met (λ m. m.memory) (ram_at pages)
        (over bytes.old (S.left source.old) (S.given source.old))
        (over bytes.new (S.left source.new) (S.given source.new)) result }
    ensures live { OnOk result (IsTrue bytes.new.live) }
    ensures state { IfOk result (λ m. m.state ≡ reset_state) }
    ensures split { IfOk result (λ m. m.split ≡ split) }
    ensures size { IfOk result (λ m. length m.memory ≡ size_of_pages pages) }
    ensures cause { HasCause LogFault.ReadFault (S.faults source.old) (S.faults source.new) result }
{
    let count = varint_between(bytes, 0, pages as u64, source)? as u32;
    let mut machine = blank_machine(alloc, pages, split)?;
    fill(&mut machine, count, pages, bytes, source)?;
    Ok(machine)
}

/// The image that stands here.
pub(crate) fn image<S: Source>(
    alloc: Global,
    bytes: &mut Bytes,
    source: &mut S,
) -> Result<Image, LogFault>
    requires live { IsTrue bytes.old.live }
    ensures reads { IsSome (S.left source.old) → Reads log_met (λ i. i) image_at
        (over bytes.old (S.left source.old) (S.given source.old))
        (over bytes.new (S.left source.new) (S.given source.new)) result }
    ensures live { OnOk result (IsTrue bytes.new.live) }
    ensures cause { HasCause LogFault.ReadFault (S.faults source.old) (S.faults source.new) result }
{
    let version = version(bytes, source)?;
    let split = split(version, bytes, source)?;
    let pages = varint_between(bytes, 1, MOST_PAGES as u64, source)? as u32;
    let machine = memory(alloc, pages, split, bytes, source)?;
    let disk = pieces(alloc, bytes, MOST_SECTORS, SECTOR_SIZE, source)?;
    let console = pieces(alloc, bytes, MOST_CONSOLE, 1, source)?;
    Ok(Image {
        version,
        split,
        machine,
        disk,
        console,
    })
}
