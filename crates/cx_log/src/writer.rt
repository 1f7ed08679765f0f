//! Writing a recording to a sink, record by record.

ghost use Rattle.std.specs.Prelude.{◌≡◌, ◌+◌, ◌<◌, ◌≤◌, [], ◌++◌, false, OnOk, OnErr, IfOk, IsTrue};
ghost use Rattle.cx_codec.specs.Puts.{Finishes, Puts, Starts, onto};
ghost use Rattle.cx_codec.specs.Varint.{varint};
ghost use Rattle.cx_ram.specs.PhysicalMemory.{is_zero};
ghost use Rattle.cx_log.specs.Engine.{IsStarted, output_of};
ghost use Rattle.cx_log.specs.Item.{MayStand, behind_entry, dma_event, entry_of, entry_text, is_end};
ghost use Rattle.cx_log.specs.Order.{IsHeader, MayEnd, MayFollow, behind_it};
ghost use Rattle.cx_log.specs.Text.{end_text, header_text, record_text};
ghost use Rattle.cx_log.specs.declared.limits.TheConstants.{MARK_DISTANCE, STEP_LIMIT};

use crate::header::Header;
use crate::item::{Item, What};
use crate::kind::Kind;
use crate::order::Behind;
use crate::text::{put_dma, put_header, put_page, put_start, put_what};
use cx_codec::{Out, OutFault};
use cx_io::Sink;
use cx_map::PAGE_SIZE;
use std::alloc::Global;
use std::marker::Model;

/// A writer of one recording: its header, its pages, its records, and End. After a refusal it has ended, and the sink
/// holds a front of what was put. `WriteFault` comes only where the sink's count of faults rose, and `NoMemory` where
/// memory is refused, to `start` or by the sink.
#[derive(Drop)]
pub struct LogWriter {
    out: Out,
    header: Header,
    left: u32,
    least: u32,
    behind: Behind,
}

impl Model for LogWriter {
    ghost use Rattle.cx_log.specs.Engine.{IsAmong, Writing};

    ghost Value = { Writing };

    ghost view = { λ w. record {
      output = w.out;
      header = w.header;
      left = w.left;
      least = w.least;
      behind =
          w.behind;
    } };

    ghost invariant = { λ w. IsAmong w.header w.least w.behind };
}

impl LogWriter {
    /// Begins a recording with its magic and header; the pages that it counts follow, then the records.
    pub fn start<T: Sink>(
        alloc: Global,
        header: &Header,
        sink: &mut T,
    ) -> Result<LogWriter, OutFault>
        requires { IsHeader header.now }
        ensures starts { Starts OutFault.WriteFault (header_text header.now) output_of
            (T.held sink.old) (T.held sink.new) (T.faults sink.old) (T.faults sink.new) result }
        ensures started { IfOk result (IsStarted header.now) }
    {
        let mut out = Out::new(alloc)?;
        put_header(&mut out, header, sink)?;
        Ok(LogWriter {
            out,
            header: *header,
            left: header.count,
            least: 0,
            behind: Behind::at_start(header.base, &header.start),
        })
    }

    /// Whether it goes on: it does until a call is refused.
    pub fn live(&self) -> bool
        ensures { result ≡ self.now.output.live }
    {
        self.out.live()
    }

    /// What the records so far leave.
    pub fn behind(&self) -> &Behind
        ensures behind { result.now ≡ self.now.behind }
        ensures mark { self.now.behind.mark ≤ STEP_LIMIT + MARK_DISTANCE }
    {
        &self.behind
    }

    /// Writes the next page, which isn't all zero and lies above the last one.
    pub fn page<T: Sink>(
        &mut self,
        number: u32,
        bytes: &[u8; PAGE_SIZE],
        sink: &mut T,
    ) -> Result<(), OutFault>
        requires live { IsTrue self.old.output.live }
        requires owed { 0 < self.old.left }
        requires rising { self.old.least ≤ number }
        requires below { number < self.old.header.pages }
        requires some { is_zero bytes.now ≡ false }
        ensures puts { Puts OutFault.WriteFault (varint number ++ bytes.now)
            (onto self.old.output (T.held sink.old) (T.faults sink.old)) (onto self.new.output (T.held sink.new)
            (T.faults sink.new)) result }
        ensures turned { OnOk result ((self.new.least ≡ number + 1) × (self.new.left + 1 ≡ self.old.left)) }
        ensures refused { OnErr result ((self.new.least ≡ self.old.least) × (self.new.left ≡ self.old.left)) }
        ensures same { (self.new.header ≡ self.old.header) × (self.new.behind ≡ self.old.behind) }
    {
        put_page(&mut self.out, number, bytes, sink)?;
        self.left -= 1;
        self.least = number + 1;
        Ok(())
    }

    /// Writes a Dma, behind all pages that were owed.
    pub fn dma<T: Sink>(
        &mut self,
        step: u64,
        place: u32,
        bytes: &[u8],
        sink: &mut T,
    ) -> Result<(), OutFault>
        requires live { IsTrue self.old.output.live }
        requires none_owed { self.old.left ≡ 0 }
        requires rules { MayFollow self.old.header.pages self.old.behind (record {
          step = step;
          event =
              dma_event bytes.now place;
        }) }
        ensures puts { Puts OutFault.WriteFault (record_text self.old.behind.step (record {
          step = step;
          event =
              dma_event bytes.now place;
        }))
            (onto self.old.output (T.held sink.old) (T.faults sink.old)) (onto self.new.output (T.held sink.new)
            (T.faults sink.new)) result }
        ensures behind { OnOk result (self.new.behind ≡ behind_it self.old.behind (record {
          step = step;
          event =
              dma_event bytes.now place;
        })) }
        ensures refused { OnErr result (self.new.behind ≡ self.old.behind) }
        ensures same { (self.new.header ≡ self.old.header) × (self.new.left ≡ self.old.left)
            × (self.new.least ≡ self.old.least) }
    {
        let distance = step - self.behind.step;
        put_start(&mut self.out, Kind::Dma, distance, sink)?;
        put_dma(&mut self.out, place, bytes, sink)?;
        self.behind = self.behind.after(&Item {
            step,
            what: What::Dma(place),
        });
        Ok(())
    }

    /// Writes any other record but End, behind all pages that were owed.
    pub fn event<T: Sink>(&mut self, item: &Item, sink: &mut T) -> Result<(), OutFault>
        requires live { IsTrue self.old.output.live }
        requires none_owed { self.old.left ≡ 0 }
        requires more { is_end item.now.what ≡ false }
        requires rules { MayStand self.old.header.pages self.old.behind (entry_of [] item.now) }
        ensures puts { Puts OutFault.WriteFault (entry_text self.old.behind.step (entry_of [] item.now))
            (onto self.old.output (T.held sink.old) (T.faults sink.old)) (onto self.new.output (T.held sink.new)
            (T.faults sink.new)) result }
        ensures behind { OnOk result (self.new.behind ≡ behind_entry self.old.behind (entry_of [] item.now)) }
        ensures refused { OnErr result (self.new.behind ≡ self.old.behind) }
        ensures same { (self.new.header ≡ self.old.header) × (self.new.left ≡ self.old.left)
            × (self.new.least ≡ self.old.least) }
    {
        let distance = item.step - self.behind.step;
        put_start(&mut self.out, item.what.kind(), distance, sink)?;
        put_what(&mut self.out, &item.what, sink)?;
        self.behind = self.behind.after(item);
        Ok(())
    }

    /// Writes End at a step, behind all pages that were owed, and hands all to the sink.
    pub fn end<T: Sink>(self, end: u64, sink: &mut T) -> Result<(), OutFault>
        requires live { IsTrue self.output.live }
        requires none_owed { self.left ≡ 0 }
        requires rules { MayEnd self.behind end }
        ensures { Finishes OutFault.WriteFault (end_text self.behind.step end)
            (onto self.output (T.held sink.old) (T.faults sink.old)) (T.held sink.new) (T.faults sink.new) result }
    {
        let distance = end - self.behind.step;
        let mut out = self.out;
        put_start(&mut out, Kind::End, distance, sink)?;
        out.finish(sink)
    }
}
