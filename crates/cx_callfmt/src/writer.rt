//! Writing a call slice to a sink, record by record.

ghost use Rattle.std.specs.Prelude.{◌≡◌, true, false, OnErr, OnOk, IfOk, IsTrue};
ghost use Rattle.cx_codec.specs.Puts.{Finishes, Puts, Starts, onto};
ghost use Rattle.cx_placing.specs.Records.{Async, Calls, Value};
ghost use Rattle.cx_slices.specs.Bytes.{BytesRise};
ghost use Rattle.cx_slicefmt.specs.Rules.{is_empty};
ghost use Rattle.cx_slicefmt.specs.Text.{head_text};
ghost use Rattle.cx_callfmt.specs.Rules.{MayEnd, behind_start, may_come};
ghost use Rattle.cx_callfmt.specs.Text.{call_end_text, call_magic, record_text};
ghost use Rattle.cx_callfmt.specs.Writing.{AreKept, call_output_of};

use crate::heads::put_head;
use crate::kept::KeptRecords;
use crate::records::{put_async, put_call, put_end, put_value};
use cx_codec::{Out, OutFault};
use cx_io::Sink;
use std::alloc::Global;
use std::marker::Model;

/// A writer of one call slice: its magic, the start's head, its records in order, and its end. Runs of bytes are made
/// as they are put, with no memory of its own. After a refusal it has ended, and the sink holds a front of what was put.
/// `WriteFault` comes only where the sink's count of faults rose, and `NoMemory` where memory is refused, to `start` or
/// by the sink.
#[derive(Drop)]
pub struct CallWriter {
    out: Out,
    index: u64,
    least: u8,
}

impl Model for CallWriter {
    ghost use Rattle.cx_callfmt.specs.Writing.{CallWriting};

    ghost Value = { CallWriting };

    ghost view = { λ w. record { output = w.out; behind = record { index = w.index; least = w.least } } };
}

impl CallWriter {
    /// Begins a slice with its magic. The start's head comes next.
    pub fn start<T: Sink>(alloc: Global, sink: &mut T) -> Result<CallWriter, OutFault>
        ensures starts { Starts OutFault.WriteFault call_magic call_output_of
            (T.held sink.old) (T.held sink.new) (T.faults sink.old) (T.faults sink.new) result }
        ensures behind { IfOk result (λ w. w.behind ≡ behind_start) }
    {
        let mut out = Out::new(alloc)?;
        out.put_bytes(b"CXC1", sink)?;
        Ok(CallWriter {
            out,
            index: 0,
            least: 0,
        })
    }

    /// Whether it goes on: it does until a call is refused.
    pub fn live(&self) -> bool
        ensures { result ≡ self.now.output.live }
    {
        self.out.live()
    }

    /// Writes the start's head: the words and bytes that come before the first step.
    pub fn head<T: Sink>(
        &mut self,
        words: &[Option<u32>; 32],
        bytes: &[(u32, u8)],
        sink: &mut T,
    ) -> Result<(), OutFault>
        requires live { IsTrue self.old.output.live }
        requires rises { BytesRise 0 bytes.now }
        ensures puts { Puts OutFault.WriteFault (head_text (record { words = words.now; bytes = bytes.now }))
            (onto self.old.output (T.held sink.old) (T.faults sink.old))
            (onto self.new.output (T.held sink.new) (T.faults sink.new)) result }
        ensures behind { self.new.behind ≡ self.old.behind }
    {
        put_head(&mut self.out, words, bytes, sink)
    }

    /// Writes the words and bytes that come before the step at an index; there is one of them at least.
    pub fn items<T: Sink>(
        &mut self,
        index: u64,
        words: &[Option<u32>; 32],
        bytes: &[(u32, u8)],
        sink: &mut T,
    ) -> Result<(), OutFault>
        requires live { IsTrue self.old.output.live }
        requires comes { may_come self.old.behind 0 index ≡ true }
        requires rises { BytesRise 0 bytes.now }
        requires some { is_empty (record { words = words.now; bytes = bytes.now }) ≡ false }
        ensures puts { Puts OutFault.WriteFault (record_text self.old.behind.index
            (record { index = index; what = Async (record { words = words.now; bytes = bytes.now }) }))
            (onto self.old.output (T.held sink.old) (T.faults sink.old))
            (onto self.new.output (T.held sink.new) (T.faults sink.new)) result }
        ensures behind { OnOk result (self.new.behind ≡ record { index = index; least = 1 }) }
        ensures refused { OnErr result (self.new.behind ≡ self.old.behind) }
    {
        put_async(&mut self.out, self.index, index, words, bytes, sink)?;
        self.index = index;
        self.least = 1;
        Ok(())
    }

    /// Writes the value that the step at an index is given.
    pub fn value<T: Sink>(&mut self, index: u64, word: u32, sink: &mut T) -> Result<(), OutFault>
        requires live { IsTrue self.old.output.live }
        requires comes { may_come self.old.behind 1 index ≡ true }
        ensures puts { Puts OutFault.WriteFault
            (record_text self.old.behind.index (record { index = index; what = Value word }))
            (onto self.old.output (T.held sink.old) (T.faults sink.old))
            (onto self.new.output (T.held sink.new) (T.faults sink.new)) result }
        ensures behind { OnOk result (self.new.behind ≡ record { index = index; least = 2 }) }
        ensures refused { OnErr result (self.new.behind ≡ self.old.behind) }
    {
        put_value(&mut self.out, self.index, index, word, sink)?;
        self.index = index;
        self.least = 2;
        Ok(())
    }

    /// Writes the call at an index, with its number, and the words and bytes that come behind it.
    pub fn call<T: Sink>(
        &mut self,
        index: u64,
        number: u32,
        words: &[Option<u32>; 32],
        bytes: &[(u32, u8)],
        sink: &mut T,
    ) -> Result<(), OutFault>
        requires live { IsTrue self.old.output.live }
        requires comes { may_come self.old.behind 2 index ≡ true }
        requires rises { BytesRise 0 bytes.now }
        ensures puts { Puts OutFault.WriteFault (record_text self.old.behind.index
            (record { index = index; what = Calls number (record { words = words.now; bytes = bytes.now }) }))
            (onto self.old.output (T.held sink.old) (T.faults sink.old))
            (onto self.new.output (T.held sink.new) (T.faults sink.new)) result }
        ensures behind { OnOk result (self.new.behind ≡ record { index = index; least = 3 }) }
        ensures refused { OnErr result (self.new.behind ≡ self.old.behind) }
    {
        put_call(&mut self.out, self.index, index, number, words, bytes, sink)?;
        self.index = index;
        self.least = 3;
        Ok(())
    }

    /// Writes records that were kept.
    pub fn kept<T: Sink>(&mut self, kept: &KeptRecords, sink: &mut T) -> Result<(), OutFault>
        requires live { IsTrue self.old.output.live }
        requires rules { AreKept self.old.behind kept.now }
        ensures puts { Puts OutFault.WriteFault kept.now.text
            (onto self.old.output (T.held sink.old) (T.faults sink.old))
            (onto self.new.output (T.held sink.new) (T.faults sink.new)) result }
        ensures behind { OnOk result (self.new.behind ≡ kept.now.behind) }
        ensures refused { OnErr result (self.new.behind ≡ self.old.behind) }
    {
        self.out.put_bytes(kept.text(), sink)?;
        self.index = kept.index();
        self.least = kept.least();
        Ok(())
    }

    /// Writes the end, with the number of steps, which is above the index of the last record, and hands all to the
    /// sink.
    pub fn end<T: Sink>(self, count: u64, sink: &mut T) -> Result<(), OutFault>
        requires live { IsTrue self.output.live }
        requires rules { MayEnd self.behind count }
        ensures { Finishes OutFault.WriteFault (call_end_text self.behind.index count)
            (onto self.output (T.held sink.old) (T.faults sink.old)) (T.held sink.new) (T.faults sink.new) result }
    {
        let mut out = self.out;
        put_end(&mut out, self.index, count, sink)?;
        out.finish(sink)
    }
}
