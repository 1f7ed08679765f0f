//! The records of events that were kept, as they are read again.

ghost use Rattle.std.specs.Prelude.{◌≡◌, false};
ghost use Rattle.cx_log.specs.Item.{entry_of};
ghost use Rattle.cx_log.specs.Order.{InOrder};
ghost use Rattle.cx_replay.specs.KeptRecords.{GivesKept, HasKept, kept_from, seen_again};
ghost use Rattle.cx_replay.specs.Records.{GaveItem};

use crate::kept::KeptEvents;
use crate::records::Records;
use cx_io::Source;
use cx_log::{Behind, Item, LogFault, What};
use std::marker::Model;

/// A reader of events that were kept, and of an End behind them. It asks its source for nothing, and no call of it is
/// refused.
#[derive(Drop)]
pub struct KeptReader {
    pages: u32,
    events: KeptEvents,
    next: usize,
    last: u64,
    end: u64,
    ended: bool,
}

impl Model for KeptReader {
    ghost use Rattle.std.specs.Prelude.{◌≤◌, drop, length, take};
    ghost use Rattle.cx_replay.specs.Events.{last_bytes};
    ghost use Rattle.cx_replay.specs.KeptRecords.{IsOrdered, Rereading};

    ghost Value = { Rereading };

    ghost view = { λ r. record {
      pages = r.pages;
      last = r.last;
      bytes = last_bytes (take r.next r.events);
      ahead = drop r.next r.events;
      end = r.end;
      ended = r.ended;
    } };

    ghost invariant = { λ r. (r.next ≤ length r.events)
        × IsOrdered r.ended r.pages r.last (drop r.next r.events) r.end };
}

impl KeptReader {
    /// A reader of these events, which stand in order behind `start` in a recording with so many pages of RAM, up to
    /// its end.
    pub fn new(pages: u32, start: &Behind, events: KeptEvents, end: u64) -> KeptReader
        requires { InOrder pages start.now events end }
        ensures { result ≡ kept_from pages start.now.step events end }
    {
        KeptReader {
            pages,
            events,
            next: 0,
            last: start.step,
            end,
            ended: false,
        }
    }

    // The next record.
    fn pass(&mut self) -> Item
        requires { self.old.ended ≡ false }
        ensures gives { GivesKept self.old self.new (entry_of self.new.bytes result) }
        ensures gave { GaveItem (seen_again self.old) (seen_again self.new) result }
        ensures end { self.new.end ≡ self.old.end }
        ensures pages { self.new.pages ≡ self.old.pages }
    {
        if self.next < self.events.count() {
            let item = self.events.item(self.next);
            self.next += 1;
            self.last = item.step;
            return item;
        }
        self.ended = true;
        Item {
            step: self.end,
            what: What::End,
        }
    }
}

impl Records for KeptReader {
    ghost seen = { seen_again };

    ghost has = { HasKept };

    ghost leaves = { λ left. Unit {0} };

    fn next_record<S: Source>(&mut self, _source: &mut S) -> Result<Item, LogFault> {
        Ok(self.pass())
    }

    fn record_bytes(&self) -> &[u8] {
        self.events.last_bytes(self.next)
    }

    fn see_end<S: Source>(&mut self, _source: &mut S) -> Result<(), LogFault> {
        Ok(())
    }
}
