//! What stands before the records of a recording.

ghost use Rattle.std.specs.Prelude.{◌≡◌, ◌^◌, ◌≤◌, [], length, replicate, true, IfOk, OnOk, IsSome, IsTrue};
ghost use Rattle.cx_io.specs.Cause.{HasCause};
ghost use Rattle.cx_codec.specs.Reads.{Opens, Reads, always, over};
ghost use Rattle.cx_log.specs.Fault.{log_met};
ghost use Rattle.cx_log.specs.Order.{IsHeader};
ghost use Rattle.cx_machine.specs.Machine.{IsMemory};
ghost use Rattle.cx_map.specs.Map.{size_of_pages};
ghost use Rattle.cx_replay.specs.LogRecords.{IsBegun};
ghost use Rattle.cx_commands.specs.Opening.{begun_at, behind_magic_at, kind_at, turned_pages_at};

use cx_codec::Bytes;
use cx_commands::Magic;
use cx_hart::Machine;
use cx_io::{NoMemory, Source};
use cx_log::{Header, LogFault, LogReader};
use cx_map::PAGE_SIZE;
use std::alloc::Global;

/// A recording that was read up to its records.
#[derive(Drop)]
pub struct Opening {
    /// The reader, before the first record.
    pub reader: LogReader,
    /// The machine before the first step.
    pub machine: Machine,
}

/// Reads the magic, four bytes as one field. `Format` comes exactly where they aren't there, or are those of none of
/// the three. `ReadFault` comes only where the source's count of faults rose.
pub fn read_magic<S: Source>(bytes: &mut Bytes, source: &mut S) -> Result<Magic, LogFault>
    requires { IsTrue bytes.old.live }
    ensures reads { IsSome (S.left source.old) → Reads log_met (λ m. m) kind_at
        (over bytes.old (S.left source.old) (S.given source.old))
        (over bytes.new (S.left source.new) (S.given source.new)) result }
    ensures live { OnOk result (IsTrue bytes.new.live) }
    ensures cause { HasCause LogFault.ReadFault (S.faults source.old) (S.faults source.new) result }
{
    let start = bytes.at();
    let mut field = [0u8; 4];
    bytes.take(&mut field, source)?;
    if field == *b"CXR1" {
        return Ok(Magic::Recording);
    }
    if field == *b"CXP1" {
        return Ok(Magic::Process);
    }
    if field == *b"CXC1" {
        return Ok(Magic::Calls);
    }
    Err(LogFault::Format(start))
}

// A machine that starts as the header says, with nothing in its memory yet.
fn blank_machine(alloc: Global, header: &Header) -> Result<Machine, NoMemory>
    requires { IsHeader header.now }
    ensures state { IfOk result (λ m. m.state ≡ header.now.start) }
    ensures memory { IfOk result (λ m. m.memory ≡ replicate (size_of_pages header.now.pages) 0) }
    ensures split { IfOk result (λ m. m.split ≡ header.now.split) }
{
    match Machine::with_split(alloc, header.pages, header.start, header.split) {
        Ok(machine) => Ok(machine),
        Err(_) => Err(NoMemory),
    }
}

// Makes sure that a page can be written.
fn reserve(machine: &mut Machine) -> Result<(), NoMemory>
    ensures room { OnOk result (2 ≤ machine.new.spare) }
    ensures same { machine.new ≡ record machine.old { spare = machine.new.spare } }
{
    match machine.reserve(2) {
        Ok(()) => Ok(()),
        Err(_) => Err(NoMemory),
    }
}

// Reads the pages that are left into the machine's memory.
fn fill<S: Source>(
    reader: &mut LogReader,
    machine: &mut Machine,
    source: &mut S,
) -> Result<(), LogFault>
    requires live { IsTrue reader.old.input.live }
    requires size { length machine.old.memory ≡ size_of_pages reader.old.header.pages }
    ensures reads { IsSome (S.left source.old) → Reads log_met (always machine.new.memory)
        (turned_pages_at reader.old.header.pages reader.old.left reader.old.least machine.old.memory)
        (over reader.old.input (S.left source.old) (S.given source.old))
        (over reader.new.input (S.left source.new) (S.given source.new)) result }
    ensures left { OnOk result (reader.new.left ≡ 0) }
    ensures live { OnOk result (IsTrue reader.new.input.live) }
    ensures header { reader.new.header ≡ reader.old.header }
    ensures behind { reader.new.behind ≡ reader.old.behind }
    ensures ended { reader.new.ended ≡ reader.old.ended }
    ensures state { machine.new.state ≡ machine.old.state }
    ensures split { machine.new.split ≡ machine.old.split }
    ensures size { length machine.new.memory ≡ length machine.old.memory }
    ensures cause { HasCause LogFault.ReadFault (S.faults source.old) (S.faults source.new) result }
{
    let mut page = [0u8; PAGE_SIZE];
    while let Some(number) = reader.next_page(&mut page, source)? {
        reserve(machine)?;
        machine.fill(number, &page);
    }
    Ok(())
}

// The RAM of so many pages is memory: its type says that its bytes are bytes.
fn is_memory(pages: u32, machine: &Machine)
    requires { length machine.now.memory ≡ size_of_pages pages }
    ensures { IsMemory pages machine.now.memory }
{
    let _ = machine.ram().pages();
}

/// Reads the header and the pages of a recording, behind its magic. `Format` comes exactly where a field of these is
/// bad: it isn't whole, breaks its rule, or is too great. `ReadFault` comes only where the source's count of faults
/// rose, and `NoMemory` where memory for the reader or for the machine's RAM is refused.
pub fn open_behind<S: Source>(
    alloc: Global,
    bytes: Bytes,
    source: &mut S,
) -> Result<Opening, LogFault>
    requires { IsTrue bytes.live }
    ensures opens { IsSome (S.left source.old) → Opens log_met
        (λ o. record { header = o.reader.header; memory = o.machine.memory }) (λ o. o.reader.input) behind_magic_at
        (over bytes (S.left source.old) (S.given source.old)) (S.left source.new) (S.given source.new) result }
    ensures begun { IfOk result (λ o. IsBegun o.reader) }
    ensures state { IfOk result (λ o. o.machine.state ≡ o.reader.header.start) }
    ensures memory { IfOk result (λ o. IsMemory o.reader.header.pages o.machine.memory) }
    ensures split { IfOk result (λ o. o.machine.split ≡ o.reader.header.split) }
    ensures cause { HasCause LogFault.ReadFault (S.faults source.old) (S.faults source.new) result }
{
    let mut reader = LogReader::open(alloc, bytes, source)?;
    let mut machine = blank_machine(alloc, reader.header())?;
    fill(&mut reader, &mut machine, source)?;
    is_memory(reader.header().pages, &machine);
    Ok(Opening { reader, machine })
}

/// Reads the magic, the header and the pages of a recording. Another magic is `Format` at 0.
pub fn open<S: Source>(alloc: Global, source: &mut S) -> Result<Opening, LogFault>
    ensures opens { IsSome (S.left source.old) → Opens log_met
        (λ o. record { header = o.reader.header; memory = o.machine.memory }) (λ o. o.reader.input) begun_at
        (over (record { ready = []; at = 0; limit = 2 ^ 60; live = true }) (S.left source.old) (S.given source.old))
        (S.left source.new) (S.given source.new) result }
    ensures begun { IfOk result (λ o. IsBegun o.reader) }
    ensures state { IfOk result (λ o. o.machine.state ≡ o.reader.header.start) }
    ensures memory { IfOk result (λ o. IsMemory o.reader.header.pages o.machine.memory) }
    ensures split { IfOk result (λ o. o.machine.split ≡ o.reader.header.split) }
    ensures cause { HasCause LogFault.ReadFault (S.faults source.old) (S.faults source.new) result }
{
    let mut bytes = Bytes::new(alloc)?;
    let magic = read_magic(&mut bytes, source)?;
    match magic {
        Magic::Recording => open_behind(alloc, bytes, source),
        Magic::Process => Err(LogFault::Format(0)),
        Magic::Calls => Err(LogFault::Format(0)),
    }
}
