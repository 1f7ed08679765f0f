//! A window that is cut from a run, and its recording.

ghost use Rattle.std.specs.Prelude.{◌≡◌, ◌+◌, ◌<◌, ◌≤◌, false, not, ◌&&◌, slice_index_or, if◌then◌else◌, OnOk, OnErr};
ghost use Rattle.std.specs.Prelude.{ℕ, List, [], IsSome, IsTrue};
ghost use Rattle.std.specs.Io.KnownBytes.{Appends};
ghost use Rattle.cx_io.specs.Cause.{HasCause};
ghost use Rattle.cx_codec.specs.Blocks.{HasFront};
ghost use Rattle.cx_codec.specs.Puts.{Puts, onto};
ghost use Rattle.cx_ram.specs.PhysicalMemory.{is_zero, page_of};
ghost use Rattle.cx_log.specs.Order.{IsHeader};
ghost use Rattle.cx_log.specs.Text.{header_of, page_count, page_text, pages_text, recording_text};
ghost use Rattle.cx_replay.specs.KeptRecords.{HasKept, scan_of};
ghost use Rattle.cx_replay.specs.Replaying.{Stands};
ghost use Rattle.cx_window.specs.Slice.{IsHeld, IsWhole, memory_at, opened_of, written_of};

use cx_codec::OutFault;
use cx_hart::{Machine, Moment};
use cx_io::Sink;
use cx_log::{Header, LogWriter};
use cx_map::PAGE_SIZE;
use cx_ram::is_all_zero;
use cx_replay::{KeptEvents, KeptReader, Replay};
use std::alloc::Global;
use std::marker::Model;

/// A window that is ready to be written, and to be run again: what stands in front of its pages, the step behind its
/// last, the machine with a moment of it before the window's first step, for each page whether a step of the window
/// read a byte of it, and the events of its steps.
#[derive(Drop)]
pub struct Slice {
    header: Header,
    to: u64,
    machine: Machine,
    moment: Moment,
    marks: Vec<bool>,
    events: KeptEvents,
}

impl Model for Slice {
    ghost use Rattle.cx_window.specs.Slice.{IsHeld, IsWhole, Sliced, memory_at};

    ghost Value = { Sliced };

    ghost view = { λ s. record {
      header = s.header;
      to = s.to;
      memory = memory_at s.machine.saved s.moment;
      marks = s.marks.items;
      events = s.events;
    } };

    ghost invariant = { λ s. IsWhole (record {
      header = s.header;
      to = s.to;
      memory = memory_at s.machine.saved s.moment;
      marks = s.marks.items;
      events = s.events;
    }) × IsHeld s.header s.machine s.moment };
}

// One, where it holds.
fn one_if(holds: bool) -> u32
    ensures value { result ≡ (if holds then 1 else 0) }
    ensures most { result ≤ 1 }
{
    if holds { 1 } else { 0 }
}

impl Slice {
    /// A slice of these parts.
    pub(crate) fn of(
        header: Header,
        to: u64,
        machine: Machine,
        moment: Moment,
        marks: Vec<bool>,
        events: KeptEvents,
    ) -> Slice
        requires whole { IsWhole (record {
          header = header;
          to = to;
          memory = memory_at machine.saved moment;
          marks = marks.items;
          events =
              events;
        }) }
        requires held { IsHeld header machine moment }
        ensures { result ≡ record {
          header = header;
          to = to;
          memory = memory_at machine.saved moment;
          marks = marks.items;
          events =
              events;
        } }
    {
        Slice {
            header,
            to,
            machine,
            moment,
            marks,
            events,
        }
    }

    // The bytes of a page.
    fn page(&self, page: u32) -> &[u8; PAGE_SIZE]
        requires { page < self.now.header.pages }
        ensures { result.now ≡ page_of self.now.memory page }
    {
        self.machine.moment_page(&self.moment, page)
    }

    // Whether a page is written: it was read, and isn't all zero.
    #[tactic(auto, using(std::proofs::lemmas::List::get_or_read))]
    fn keeps(&self, page: u32) -> bool
        requires { page < self.now.header.pages }
        ensures { result ≡ (slice_index_or self.now.marks page false && not (is_zero (page_of self.now.memory page))) }
    {
        self.marks[page as usize] && !is_all_zero(self.page(page))
    }

    // How many pages are written.
    fn count(&self) -> u32
        ensures count { result ≡ page_count (written_of self.now).memory self.now.header.pages }
        ensures within { result ≤ self.now.header.pages }
    {
        let mut count = 0;
        for page in 0..self.header.pages {
            count += one_if(self.keeps(page));
        }
        count
    }

    // What stands in front of the pages.
    fn front(&self) -> Header
        ensures header { result ≡ header_of (written_of self.now) }
        ensures rules { IsHeader result }
    {
        Header {
            version: self.header.version,
            split: self.header.split,
            pages: self.header.pages,
            base: self.header.base,
            start: self.header.start,
            count: self.count(),
        }
    }

    // Writes a page, where it is written.
    fn put_page<T: Sink>(
        &self,
        page: u32,
        writer: &mut LogWriter,
        sink: &mut T,
    ) -> Result<(), OutFault>
        requires whole { IsWhole self.now }
        requires inside { page < self.now.header.pages }
        requires live { IsTrue writer.old.output.live }
        requires pages { writer.old.header.pages ≡ self.now.header.pages }
        requires rising { writer.old.least ≤ page }
        requires owed { writer.old.left + page_count (written_of self.now).memory page ≡ page_count
            (written_of self.now).memory self.now.header.pages }
        ensures puts { Puts OutFault.WriteFault (page_text (written_of self.now).memory page)
            (onto writer.old.output (T.held sink.old) (T.faults sink.old)) (onto writer.new.output (T.held sink.new)
            (T.faults sink.new)) result }
        ensures header { writer.new.header ≡ writer.old.header }
        ensures behind { writer.new.behind ≡ writer.old.behind }
        ensures left { OnOk result (writer.new.left + page_count (written_of self.now).memory (page + 1) ≡ page_count
            (written_of self.now).memory self.now.header.pages) }
        ensures next { OnOk result (writer.new.least ≤ page + 1) }
    {
        if self.keeps(page) {
            return writer.page(page, self.page(page), sink);
        }
        Ok(())
    }

    // Writes the pages.
    fn put_pages<T: Sink>(&self, writer: &mut LogWriter, sink: &mut T) -> Result<(), OutFault>
        requires live { IsTrue writer.old.output.live }
        requires pages { writer.old.header.pages ≡ self.now.header.pages }
        requires first { writer.old.least ≡ 0 }
        requires owed { writer.old.left ≡ page_count (written_of self.now).memory self.now.header.pages }
        ensures puts { Puts OutFault.WriteFault (pages_text (written_of self.now).memory self.now.header.pages)
            (onto writer.old.output (T.held sink.old) (T.faults sink.old)) (onto writer.new.output (T.held sink.new)
            (T.faults sink.new)) result }
        ensures header { writer.new.header ≡ writer.old.header }
        ensures behind { writer.new.behind ≡ writer.old.behind }
        ensures left { OnOk result (writer.new.left ≡ 0) }
    {
        for page in 0..self.header.pages {
            self.put_page(page, writer, sink)?;
        }
        Ok(())
    }

    /// Writes the recording of the window. `WriteFault` comes only where the sink's count of faults rose, and
    /// `NoMemory` where memory is refused, here or by the sink. After a refusal the sink holds a front of the
    /// recording.
    pub fn write<T: Sink>(&self, alloc: Global, sink: &mut T) -> Result<(), OutFault>
        ensures told { IsSome (T.held sink.old) → IsSome (T.held sink.new) }
        ensures written { OnOk result (Appends (T.held sink.old) (T.held sink.new)
            (recording_text (written_of self.now))) }
        ensures refused { OnErr result (HasFront (T.held sink.old) (recording_text (written_of self.now))
            (T.held sink.new)) }
        ensures cause { HasCause OutFault.WriteFault (T.faults sink.old) (T.faults sink.new) result }
    {
        let mut writer = LogWriter::start(alloc, &self.front(), sink)?;
        self.put_pages(&mut writer, sink)?;
        self.events.put(self.to, &mut writer, sink)?;
        writer.end(self.to, sink)
    }

    /// A replay of the window's steps, from the machine before the first of them on. Its memory is whole, also where no
    /// step reads it.
    pub fn replay(self, alloc: Global) -> Replay<KeptReader>
        ensures live { IsTrue result.live }
        ensures at { result.progress.at ≡ self.header.base }
        ensures stands { (given input : List ℕ) (offset : ℕ)
            → Stands (opened_of self) (scan_of self.events self.to) [] result.machine result.progress
            result.records.bytes (HasKept result.records given input offset) }
    {
        let Slice {
            header,
            to,
            mut machine,
            moment,
            events,
            ..
        } = self;
        machine.restore(&moment);
        machine.forget(moment);
        Replay::of_kept(alloc, machine, &header, events, to)
    }
}
