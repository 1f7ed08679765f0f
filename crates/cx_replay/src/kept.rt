//! Events that are kept, to be written or read again.

ghost use Rattle.std.specs.Prelude.{◌≡◌, ◌↔◌, ℕ, ◌+◌, ◌^◌, ◌<◌, ◌≤◌, [], ◌∷◌, ◌++◌, false, IsTrue, IfOk, OnOk, OnErr};
ghost use Rattle.std.specs.Prelude.{length, slice_index_or, take};
ghost use Rattle.cx_codec.specs.Puts.{Puts, onto};
ghost use Rattle.cx_log.specs.Item.{entry_of, is_end};
ghost use Rattle.cx_log.specs.Order.{InOrder, MayFollow, behind_it};
ghost use Rattle.cx_log.specs.Recording.{Recorded};
ghost use Rattle.cx_log.specs.Records.{Put};
ghost use Rattle.cx_log.specs.Text.{record_text};
ghost use Rattle.cx_run.specs.StepEvents.{line_events, mark_events, step_events, transfer_events, value_events};
ghost use Rattle.cx_replay.specs.Events.{bytes_of, last_bytes, recorded_of};
ghost use Rattle.cx_run.specs.SoFar.{behind_all, events_text};

use crate::due::DueRecords;
use cx_codec::OutFault;
use cx_csr::Lines;
use cx_io::{NoMemory, Sink};
use cx_log::{Behind, Item, LogWriter, MARK_DISTANCE, STEP_LIMIT, What};
use cx_map::MOST_PAGES;
use std::alloc::Global;
use std::marker::Model;

/// An event that is kept: a record other than End. The bytes of a Dma stand beside the item.
#[derive(Drop)]
struct KeptEvent {
    item: Item,
    bytes: Vec<u8>,
}

impl Model for KeptEvent {
    ghost use Rattle.std.specs.Prelude.{◌≡◌, false};
    ghost use Rattle.cx_log.specs.Item.{is_end};
    ghost use Rattle.cx_log.specs.Recording.{Recorded};
    ghost use Rattle.cx_replay.specs.Events.{recorded_of};

    ghost Value = { Recorded };

    ghost view = { λ k. recorded_of k.bytes.items k.item };

    ghost invariant = { λ k. is_end k.item.what ≡ false };
}

impl KeptEvent {
    // An item, with a copy of the bytes of a Dma.
    fn copy(alloc: Global, item: &Item, bytes: &[u8]) -> Result<KeptEvent, NoMemory>
        requires { is_end item.now.what ≡ false }
        ensures { IfOk result (λ k. k ≡ recorded_of bytes.now item.now) }
    {
        let mut copy = Vec::new(alloc);
        match copy.extend_from_slice(bytes) {
            Ok(()) => Ok(KeptEvent {
                item: *item,
                bytes: copy,
            }),
            Err(_) => Err(NoMemory),
        }
    }

    // The item.
    fn item(&self) -> Item
        ensures { entry_of (bytes_of self.now.event) result ≡ Put self.now }
    {
        self.item
    }

    // The bytes of a Dma; any other event has none.
    fn bytes(&self) -> &[u8]
        ensures { result.now ≡ bytes_of self.now.event }
    {
        match self.item.what {
            What::Dma(_) => &self.bytes,
            What::Lines(_) | What::Value(_) | What::Mark | What::End => &[],
        }
    }

    // Whether it may stand behind the records so far.
    fn may_follow(&self, pages: u32, behind: &Behind) -> bool
        requires { pages ≤ MOST_PAGES }
        ensures { IsTrue result ↔ MayFollow pages behind.now self.now }
    {
        behind.may_follow(pages, &self.item, &self.bytes)
    }

    // What it leaves for the next one.
    fn leaves(&self, behind: &Behind) -> Behind
        requires { behind.now.mark < 2 ^ 63 }
        ensures { result ≡ behind_it behind.now self.now }
    {
        behind.after(&self.item)
    }

    // Writes it.
    fn put<T: Sink>(&self, writer: &mut LogWriter, sink: &mut T) -> Result<(), OutFault>
        requires live { IsTrue writer.old.output.live }
        requires none_owed { writer.old.left ≡ 0 }
        requires rules { MayFollow writer.old.header.pages writer.old.behind self.now }
        ensures puts { Puts OutFault.WriteFault (record_text writer.old.behind.step self.now)
            (onto writer.old.output (T.held sink.old) (T.faults sink.old))
            (onto writer.new.output (T.held sink.new) (T.faults sink.new)) result }
        ensures behind { OnOk result (writer.new.behind ≡ behind_it writer.old.behind self.now) }
        ensures header { writer.new.header ≡ writer.old.header }
        ensures left { writer.new.left ≡ writer.old.left }
    {
        match self.item.what {
            What::Dma(place) => writer.dma(self.item.step, place, &self.bytes, sink),
            _ => writer.event(&self.item, sink),
        }
    }
}

/// The events of some steps, one behind another.
#[derive(Drop)]
pub struct KeptEvents {
    alloc: Global,
    events: Vec<KeptEvent>,
}

impl Model for KeptEvents {
    ghost use Rattle.std.specs.Prelude.{List};
    ghost use Rattle.cx_log.specs.Recording.{Recorded};

    ghost Value = { List Recorded };

    ghost view = { λ k. k.events.items };
}

impl KeptEvents {
    /// None yet.
    pub fn new(alloc: Global) -> KeptEvents
        ensures { result ≡ [] }
    {
        KeptEvents {
            alloc,
            events: Vec::new(alloc),
        }
    }

    /// How many there are.
    pub(crate) fn count(&self) -> usize
        ensures { result ≡ length self.now }
    {
        self.events.len()
    }

    /// One of them, as an item.
    pub(crate) fn item(&self, index: usize) -> Item
        requires { index < length self.now }
        ensures { (d : Recorded) → entry_of (bytes_of (slice_index_or self.now index d).event) result
            ≡ Put (slice_index_or self.now index d) }
    {
        self.events[index].item()
    }

    /// The bytes of the last of the first `count`, if it is a Dma.
    pub(crate) fn last_bytes(&self, count: usize) -> &[u8]
        requires { count ≤ length self.now }
        ensures { result.now ≡ last_bytes (take count self.now) }
    {
        if count == 0 {
            return &[];
        }
        self.events[count - 1].bytes()
    }

    // Keeps an event, with these bytes where it is a Dma. `NoMemory` is free, and nothing is kept then.
    fn push(&mut self, item: &Item, bytes: &[u8]) -> Result<(), NoMemory>
        requires { is_end item.now.what ≡ false }
        ensures kept { OnOk result (self.new ≡ self.old ++ recorded_of bytes.now item.now ∷ []) }
        ensures refused { OnErr result (self.new ≡ self.old) }
    {
        let event = KeptEvent::copy(self.alloc, item, bytes)?;
        match self.events.push(event) {
            Ok(()) => Ok(()),
            Err(_) => Err(NoMemory),
        }
    }

    // Keeps the mark of a step.
    fn push_mark(&mut self, step: u64, marked: bool) -> Result<(), NoMemory>
        ensures { OnOk result (self.new ≡ self.old ++ mark_events step marked) }
    {
        if marked {
            let what = What::Mark;
            return self.push(&Item { step, what }, &[]);
        }
        Ok(())
    }

    // Keeps what devices write before a step.
    fn push_transfers(&mut self, step: u64, due: &DueRecords) -> Result<(), NoMemory>
        ensures { OnOk result (self.new ≡ self.old ++ transfer_events step due.now.transfers) }
    {
        for index in 0..due.dmas() {
            let what = What::Dma(due.dma_place(index));
            self.push(&Item { step, what }, due.dma_bytes(index))?;
        }
        Ok(())
    }

    // Keeps the lines from a step on.
    fn push_lines(&mut self, step: u64, lines: Option<Lines>) -> Result<(), NoMemory>
        ensures { OnOk result (self.new ≡ self.old ++ line_events step lines) }
    {
        if let Some(lines) = lines {
            let what = What::Lines(lines);
            return self.push(&Item { step, what }, &[]);
        }
        Ok(())
    }

    // Keeps the value that a step asks for.
    fn push_value(&mut self, step: u64, value: Option<u32>) -> Result<(), NoMemory>
        ensures { OnOk result (self.new ≡ self.old ++ value_events step value) }
    {
        if let Some(value) = value {
            let what = What::Value(value);
            return self.push(&Item { step, what }, &[]);
        }
        Ok(())
    }

    /// Keeps the events of a step: its mark, and what was due to it. `NoMemory` is free.
    pub fn push_step(&mut self, step: u64, marked: bool, due: &DueRecords) -> Result<(), NoMemory>
        ensures { OnOk result (self.new ≡ self.old ++ step_events step marked due.now) }
    {
        self.push_mark(step, marked)?;
        self.push_transfers(step, due)?;
        self.push_lines(step, due.lines())?;
        self.push_value(step, due.value())
    }

    /// Whether they may stand in a recording with so many pages of RAM, behind this and up to an end.
    pub fn are_in_order(&self, pages: u32, start: &Behind, end: u64) -> bool
        requires pages { pages ≤ MOST_PAGES }
        requires mark { start.now.mark ≤ STEP_LIMIT + MARK_DISTANCE }
        ensures { IsTrue result ↔ InOrder pages start.now self.now end }
    {
        let mut behind = *start;
        for index in 0..self.events.len() {
            let event = &self.events[index];
            if !event.may_follow(pages, &behind) {
                return false;
            }
            behind = event.leaves(&behind);
        }
        let last = Item {
            step: end,
            what: What::End,
        };
        behind.may_follow(pages, &last, &[])
    }

    /// Writes them, up to an end.
    pub fn put<T: Sink>(
        &self,
        end: u64,
        writer: &mut LogWriter,
        sink: &mut T,
    ) -> Result<(), OutFault>
        requires live { IsTrue writer.old.output.live }
        requires none_owed { writer.old.left ≡ 0 }
        requires rules { InOrder writer.old.header.pages writer.old.behind self.now end }
        ensures puts { Puts OutFault.WriteFault (events_text writer.old.behind self.now)
            (onto writer.old.output (T.held sink.old) (T.faults sink.old))
            (onto writer.new.output (T.held sink.new) (T.faults sink.new)) result }
        ensures behind { OnOk result (writer.new.behind ≡ behind_all writer.old.behind self.now) }
        ensures header { writer.new.header ≡ writer.old.header }
        ensures left { OnOk result (writer.new.left ≡ 0) }
    {
        let _ = end;
        for index in 0..self.events.len() {
            self.events[index].put(writer, sink)?;
        }
        Ok(())
    }
}
