//! Reading a recording from a source, record by record.

ghost use Rattle.std.specs.Prelude.{◌≡◌, ◌+◌, ◌<◌, ◌≤◌, [], false, is_ok, unwrap_or, IfOk, OnOk, IsSome, IsTrue};
ghost use Rattle.cx_io.specs.Cause.{HasCause};
ghost use Rattle.cx_codec.specs.Reads.{Ends, Goes, Opens, Reads, always, over};
ghost use Rattle.cx_log.specs.Engine.{Gave, IsOpened, SameRecording, Turns, header_read, input_of, opened_header_at};
ghost use Rattle.cx_log.specs.Engine.{option_page_with, turned_page_at};
ghost use Rattle.cx_log.specs.Fault.{log_met};
ghost use Rattle.cx_log.specs.Item.{entry_of};
ghost use Rattle.cx_log.specs.Order.{IsHeader};
ghost use Rattle.cx_log.specs.Records.{record_at};
ghost use Rattle.cx_codec.specs.Checks.{close_at};

use crate::fault::LogFault;
use crate::header::Header;
use crate::item::Item;
use crate::kind::Kind;
use crate::order::Behind;
use crate::reading::{begin_behind, close, header, page};
use crate::records::{kind, step, what};
use crate::transfer::TransferBytes;
use cx_codec::Bytes;
use cx_io::Source;
use cx_map::PAGE_SIZE;
use std::alloc::Global;
use std::marker::Model;

/// A reader of one recording: its header, its pages, and its records up to End. It keeps the rules between the records
/// itself. After a refusal it has ended.
#[derive(Drop)]
pub struct LogReader {
    bytes: Bytes,
    header: Header,
    left: u32,
    least: u32,
    behind: Behind,
    transfer: TransferBytes,
    ended: bool,
}

impl Model for LogReader {
    ghost use Rattle.cx_log.specs.Engine.{IsAmong, Reading};

    ghost Value = { Reading };

    ghost view = { λ r. record {
      input = r.bytes;
      header = r.header;
      left = r.left;
      least = r.least;
      behind =
          r.behind;
      bytes = r.transfer;
      ended = r.ended;
    } };

    ghost invariant = { λ r. IsAmong r.header r.least r.behind };
}

impl LogReader {
    /// Reads the header of a recording, of either version, behind its magic. `Format` comes exactly where a field of it
    /// is bad: it isn't whole, breaks its rule, or is too great. `ReadFault` comes only where the source's count of
    /// faults rose, and `NoMemory` where memory for the bytes of a Dma is refused; nothing was read then.
    pub fn open<S: Source>(
        alloc: Global,
        bytes: Bytes,
        source: &mut S,
    ) -> Result<LogReader, LogFault>
        requires { IsTrue bytes.live }
        ensures opens { IsSome (S.left source.old) → Opens log_met header_read input_of opened_header_at
            (over bytes (S.left source.old) (S.given source.old)) (S.left source.new) (S.given source.new) result }
        ensures opened { IfOk result IsOpened }
        ensures cause { HasCause LogFault.ReadFault (S.faults source.old) (S.faults source.new) result }
    {
        let transfer = TransferBytes::new(alloc)?;
        let mut bytes = bytes;
        let header = header(&mut bytes, source)?;
        begin_behind(&mut bytes, header.count);
        Ok(LogReader {
            bytes,
            header,
            left: header.count,
            least: 0,
            behind: Behind::at_start(header.base, &header.start),
            transfer,
            ended: false,
        })
    }

    /// Whether it goes on: it does until a call is refused.
    pub fn live(&self) -> bool
        ensures { result ≡ self.now.input.live }
    {
        self.bytes.live()
    }

    /// The header that was read.
    pub fn header(&self) -> &Header
        ensures header { result.now ≡ self.now.header }
        ensures rules { IsHeader result.now }
    {
        &self.header
    }

    /// Reads the next page: its bytes into `into`, and answers its number; None exactly behind the last page. Behind
    /// the last page the records begin, which have a limit of 2^40 bytes. `Format` comes exactly where its number isn't
    /// above the last page's or isn't below the count of pages, where its bytes are all zero, and where the input ends
    /// inside it. `ReadFault` comes only where the source's count of faults rose.
    pub fn next_page<S: Source>(
        &mut self,
        into: &mut [u8; PAGE_SIZE],
        source: &mut S,
    ) -> Result<Option<u32>, LogFault>
        requires { IsTrue self.old.input.live }
        ensures reads { IsSome (S.left source.old)
            → Reads log_met (option_page_with into.new) (turned_page_at self.old.header.pages self.old.left
            self.old.least)
            (over self.old.input (S.left source.old) (S.given source.old)) (over self.new.input (S.left source.new)
            (S.given source.new)) result }
        ensures turns { IfOk result (Turns self.old self.new into.new) }
        ensures same { (self.new.header ≡ self.old.header) × (self.new.behind ≡ self.old.behind)
            × (self.new.ended ≡ self.old.ended) }
        ensures live { self.new.input.live ≡ is_ok result }
        ensures cause { HasCause LogFault.ReadFault (S.faults source.old) (S.faults source.new) result }
    {
        if self.left == 0 {
            return Ok(None);
        }
        let number = page(&mut self.bytes, self.header.pages, self.least, into, source)?;
        self.least = number + 1;
        self.left -= 1;
        begin_behind(&mut self.bytes, self.left);
        Ok(Some(number))
    }

    /// Reads the next record. The bytes of a Dma are those of `dma_bytes` then, until the next call. `Format` comes
    /// exactly where a field of it is bad: the tag is none, the record may not stand at its step behind those before
    /// it, it writes bytes outside RAM, its lines are those that stand or such as no device has, or it isn't whole.
    /// `ReadFault` comes only where the source's count of faults rose. It takes no memory.
    pub fn next<S: Source>(&mut self, source: &mut S) -> Result<Item, LogFault>
        requires live { IsTrue self.old.input.live }
        requires pages { self.old.left ≡ 0 }
        requires more { self.old.ended ≡ false }
        ensures reads { IsSome (S.left source.old)
            → Reads log_met (entry_of self.new.bytes) (record_at self.old.header.pages self.old.behind)
            (over self.old.input (S.left source.old) (S.given source.old)) (over self.new.input (S.left source.new)
            (S.given source.new)) result }
        ensures gave { IfOk result (Gave self.old self.new) }
        ensures same { SameRecording self.old self.new }
        ensures at { OnOk result (self.old.input.at < self.new.input.at) }
        ensures goes { Goes LogFault.ReadFault self.old.input self.new.input (S.faults source.old) (S.faults source.new)
            result }
    {
        let kind = kind(&mut self.bytes, source)?;
        let step = step(&mut self.bytes, &self.behind, kind, source)?;
        let what = what(
            &mut self.bytes,
            self.header.pages,
            &self.behind,
            step,
            kind,
            &mut self.transfer,
            source,
        )?;
        let item = Item { step, what };
        self.behind = self.behind.after(&item);
        self.ended = kind == Kind::End;
        Ok(item)
    }

    /// The bytes of the last Dma.
    pub fn dma_bytes(&self) -> &[u8]
        ensures { result.now ≡ self.now.bytes }
    {
        self.transfer.bytes()
    }

    /// Sees that nothing follows End: the source has nothing left then. `Format` comes exactly where a byte does, and
    /// tells its offset. `ReadFault` comes only where the source's count of faults rose.
    pub fn close<S: Source>(&mut self, source: &mut S) -> Result<(), LogFault>
        requires { IsTrue self.old.input.live }
        ensures ends { IsSome (S.left source.old) → Ends log_met (always tt) tt close_at
            (over self.old.input (S.left source.old) (S.given source.old)) (over self.new.input (S.left source.new)
            (S.given source.new)) result }
        ensures spent { IsSome (S.left source.old) → OnOk result (unwrap_or (S.left source.new) [] ≡ []) }
        ensures same { self.new ≡ record self.old { input = self.new.input } }
        ensures goes { Goes LogFault.ReadFault self.old.input self.new.input (S.faults source.old) (S.faults source.new)
            result }
    {
        close(&mut self.bytes, source)
    }
}
