//! The records of a recording, as they are read from its text.

ghost use Rattle.std.specs.Prelude.{◌≡◌, [], unwrap_or};
ghost use Rattle.cx_replay.specs.LogRecords.{HasAhead, seen_of};

use crate::records::Records;
use cx_io::Source;
use cx_log::{Item, LogFault, LogReader};

impl Records for LogReader {
    ghost seen = { seen_of };

    ghost has = { HasAhead };

    ghost leaves = { λ left. unwrap_or left [] ≡ [] };

    fn next_record<S: Source>(&mut self, source: &mut S) -> Result<Item, LogFault> {
        self.next(source)
    }

    fn record_bytes(&self) -> &[u8] {
        self.dma_bytes()
    }

    fn see_end<S: Source>(&mut self, source: &mut S) -> Result<(), LogFault> {
        self.close(source)
    }
}
