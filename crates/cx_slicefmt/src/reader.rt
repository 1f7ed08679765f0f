//! Reading a slice from a source, group by group.

ghost use Rattle.std.specs.Prelude.{◌≡◌, None, IfOk, IsSome, IsTrue};
ghost use Rattle.cx_codec.specs.Reads.{Goes, over};
ghost use Rattle.cx_slicefmt.specs.Engine.{Leaves, Nexts};

use crate::fault::SliceFault;
use crate::items::Either;
use crate::reading::{close, entry};
use cx_codec::Bytes;
use cx_io::Source;
use std::marker::Model;

/// A reader of one slice, behind its magic: its groups in order, then its end. It ends with the end, or with the first
/// refusal. It keeps no memory of its own.
#[derive(Drop)]
pub struct GroupReader {
    bytes: Bytes,
    least: u64,
    ended: Option<u64>,
}

impl Model for GroupReader {
    ghost use Rattle.std.specs.Prelude.{◌≤◌, ◌^◌};
    ghost use Rattle.cx_slicefmt.specs.Engine.{SliceReading};

    ghost Value = { SliceReading };

    ghost view = { λ r. record { input = r.bytes; least = r.least; ended = r.ended } };

    ghost invariant = { λ r. r.least ≤ 2 ^ 48 };
}

impl GroupReader {
    /// A reader of what stands behind the magic of a slice. Nothing is read yet.
    pub fn open(bytes: Bytes) -> GroupReader
        ensures { result ≡ record { input = bytes; least = 0; ended = None } }
    {
        GroupReader {
            bytes,
            least: 0,
            ended: None,
        }
    }

    /// Whether it goes on: it does until a call is refused.
    pub fn live(&self) -> bool
        ensures { result ≡ self.now.input.live }
    {
        self.bytes.live()
    }

    /// Reads the next group, or the end, and then sees that nothing follows it. `Format` comes exactly where a field is
    /// bad: the tag is none that may stand there, an index isn't above the last one or is too great, runs aren't apart
    /// or are too many, too long or past the last address, a flag is none, a group has no item, a field isn't whole, or
    /// a byte follows the end. `ReadFault` comes only where the source's count of faults rose. It takes no memory.
    pub fn next<S: Source>(&mut self, source: &mut S) -> Result<Either, SliceFault>
        requires live { IsTrue self.old.input.live }
        requires open { self.old.ended ≡ None }
        ensures reads { IsSome (S.left source.old) → Nexts self.old.least
            (over self.old.input (S.left source.old) (S.given source.old))
            (over self.new.input (S.left source.new) (S.given source.new)) result }
        ensures leaves { IfOk result (Leaves self.old self.new) }
        ensures goes { Goes SliceFault.ReadFault self.old.input self.new.input (S.faults source.old)
            (S.faults source.new) result }
    {
        let found = entry(&mut self.bytes, self.least, source)?;
        match found {
            Either::Group(index, items) => {
                self.least = index + 1;
                Ok(Either::Group(index, items))
            }
            Either::End(count) => {
                close(&mut self.bytes, source)?;
                self.ended = Some(count);
                Ok(Either::End(count))
            }
        }
    }
}
