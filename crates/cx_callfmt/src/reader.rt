//! Reading a call slice from a source, record by record, and the bytes of its heads one by one.

ghost use Rattle.std.specs.Prelude.{◌≡◌, ◌≤◌, ◌^◌, false, None, IfOk, IsSome, IsTrue};
ghost use Rattle.cx_codec.specs.Reads.{Goes, Reads, over};
ghost use Rattle.cx_slicefmt.specs.Fault.{slice_met};
ghost use Rattle.cx_callfmt.specs.Beginning.{head_begun_at};
ghost use Rattle.cx_callfmt.specs.Engine.{CallNexts, LeavesCall, NoneLeft, PendingShrinks, byte_left, head_in};
ghost use Rattle.cx_callfmt.specs.Handing.{before_runs, next_byte_at};
ghost use Rattle.cx_callfmt.specs.Rules.{behind_start};

use crate::found::{CallFound, HeadFound};
use crate::handing::{Rest, next_byte};
use crate::reading::{begin, close, head};
use cx_codec::Bytes;
use cx_io::Source;
use cx_slicefmt::SliceFault;
use std::marker::Model;

/// A reader of one call slice, behind its magic: the start's head, its records in order, then its end. The bytes of a
/// head are handed out one by one, so it keeps no memory of its own. It ends with the end, or with the first refusal.
#[derive(Drop)]
pub struct CallReader {
    bytes: Bytes,
    index: u64,
    least: u8,
    rest: Rest,
    ended: Option<u64>,
}

impl Model for CallReader {
    ghost use Rattle.std.specs.Prelude.{◌<◌, ◌^◌};
    ghost use Rattle.cx_callfmt.specs.Engine.{CallReading, pending_in};
    ghost use Rattle.cx_callfmt.specs.ReaderFits.{ReaderFits};

    ghost Value = { CallReading };

    ghost view = { λ r. record {
      input = r.bytes;
      behind = record { index = r.index; least = r.least };
      pending = pending_in r.rest;
      ended = r.ended;
    } };

    ghost invariant = { λ r. ReaderFits r.index r.rest };
}

// Runs that are all to come.
fn all_of(runs: u64) -> Rest
    ensures { result ≡ record { va = 0; size = 0; runs = runs; least = 0 } }
{
    Rest {
        va: 0,
        size: 0,
        runs,
        least: 0,
    }
}

impl CallReader {
    /// A reader of what stands behind the magic of a slice. Nothing is read yet.
    pub fn open(bytes: Bytes) -> CallReader
        ensures { result ≡ record { input = bytes; behind = behind_start; pending = before_runs 0; ended = None } }
    {
        CallReader {
            bytes,
            index: 0,
            least: 0,
            rest: all_of(0),
            ended: None,
        }
    }

    /// Whether it goes on: it does until a call is refused.
    pub fn live(&self) -> bool
        ensures { result ≡ self.now.input.live }
    {
        self.bytes.live()
    }

    /// The offset here: how many bytes were taken since the start.
    pub fn at(&self) -> u64
        ensures at { result ≡ self.now.input.at }
        ensures within { result ≤ self.now.input.limit }
    {
        self.bytes.at()
    }

    // Ends the reading, where what was read can't be kept.
    pub(crate) fn refuse(&mut self)
        requires { IsTrue self.old.input.live }
        ensures { self.new ≡ record self.old { input = record self.old.input { live = false } } }
    {
        self.bytes.refuse();
    }

    /// Reads what the start's head begins with, which comes first. `Format` comes exactly where a field is bad: there are
    /// too many runs, or a field isn't whole. `ReadFault` comes only where the source's count of faults rose.
    pub fn head<S: Source>(&mut self, source: &mut S) -> Result<HeadFound, SliceFault>
        requires live { IsTrue self.old.input.live }
        ensures reads { IsSome (S.left source.old) → Reads slice_met head_in (head_begun_at false)
            (over self.old.input (S.left source.old) (S.given source.old))
            (over self.new.input (S.left source.new) (S.given source.new)) result }
        ensures pending { IfOk result (λ h. self.new.pending ≡ before_runs h.runs) }
        ensures behind { self.new.behind ≡ self.old.behind }
        ensures ended { self.new.ended ≡ self.old.ended }
        ensures goes { Goes SliceFault.ReadFault self.old.input self.new.input (S.faults source.old)
            (S.faults source.new) result }
    {
        let found = head(&mut self.bytes, false, source)?;
        self.rest = all_of(found.runs);
        Ok(found)
    }

    /// Reads what the next record begins with, or the end, and then sees that nothing follows it. All bytes of the last
    /// head were handed out. `Format` comes exactly where a field is bad: the tag is none, the index isn't one that may
    /// come next or is too great, there are too many runs, items that come before a step are none, a field isn't whole,
    /// or a byte follows the end. `ReadFault` comes only where the source's count of faults rose.
    pub fn next<S: Source>(&mut self, source: &mut S) -> Result<CallFound, SliceFault>
        requires live { IsTrue self.old.input.live }
        requires none { NoneLeft self.old.pending }
        requires open { self.old.ended ≡ None }
        ensures reads { IsSome (S.left source.old) → CallNexts self.old.behind
            (over self.old.input (S.left source.old) (S.given source.old))
            (over self.new.input (S.left source.new) (S.given source.new)) result }
        ensures leaves { IfOk result (LeavesCall self.old self.new) }
        ensures goes { Goes SliceFault.ReadFault self.old.input self.new.input (S.faults source.old)
            (S.faults source.new) result }
    {
        let found = begin(&mut self.bytes, self.index, self.least, source)?;
        match found {
            CallFound::Items(index, head) => {
                self.index = index;
                self.least = 1;
                self.rest = all_of(head.runs);
                Ok(CallFound::Items(index, head))
            }
            CallFound::Value(index, word) => {
                self.index = index;
                self.least = 2;
                self.rest = all_of(0);
                Ok(CallFound::Value(index, word))
            }
            CallFound::Call(index, number, head) => {
                self.index = index;
                self.least = 3;
                self.rest = all_of(head.runs);
                Ok(CallFound::Call(index, number, head))
            }
            CallFound::End(count) => {
                close(&mut self.bytes, source)?;
                self.rest = all_of(0);
                self.ended = Some(count);
                Ok(CallFound::End(count))
            }
        }
    }

    /// Hands out the next byte of a head, with its address, or none where all were. `Format` comes exactly where a field
    /// is bad: an address isn't above the last run's with a gap, a run is empty or passes the last address, or a field
    /// isn't whole. `ReadFault` comes only where the source's count of faults rose.
    pub fn next_byte<S: Source>(&mut self, source: &mut S) -> Result<Option<(u32, u8)>, SliceFault>
        requires live { IsTrue self.old.input.live }
        ensures reads { IsSome (S.left source.old) → Reads slice_met (byte_left self.new.pending)
            (next_byte_at (2 ^ 32) self.old.pending)
            (over self.old.input (S.left source.old) (S.given source.old))
            (over self.new.input (S.left source.new) (S.given source.new)) result }
        ensures none { IfOk result (λ b. b ≡ None → NoneLeft self.new.pending) }
        ensures less { IfOk result (PendingShrinks self.old.pending self.new.pending) }
        ensures behind { self.new.behind ≡ self.old.behind }
        ensures ended { self.new.ended ≡ self.old.ended }
        ensures goes { Goes SliceFault.ReadFault self.old.input self.new.input (S.faults source.old)
            (S.faults source.new) result }
    {
        match next_byte(&mut self.bytes, self.rest, source)? {
            None => Ok(None),
            Some(next) => {
                self.rest = next.left;
                Ok(Some((next.va, next.byte)))
            }
        }
    }
}
