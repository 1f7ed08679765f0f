//! Writing a slice to a sink, group by group.

ghost use Rattle.std.specs.Prelude.{◌≡◌, ◌+◌, OnErr, OnOk, IfOk, IsTrue};
ghost use Rattle.cx_codec.specs.Puts.{Finishes, Puts, Starts, onto};
ghost use Rattle.cx_slicefmt.specs.Engine.{items_in};
ghost use Rattle.cx_slicefmt.specs.Writing.{slice_output_of};
ghost use Rattle.cx_slicefmt.specs.Rules.{IsEnd, IsGroup, process};
ghost use Rattle.cx_slicefmt.specs.Text.{group_text, slice_end_text, slice_magic};

use crate::fields::last_before;
use crate::items::GroupItems;
use crate::text::{put_entry, put_items};
use cx_codec::{Out, OutFault};
use cx_io::Sink;
use std::alloc::Global;
use std::marker::Model;

/// The tag of the end.
const END_TAG: u8 = 0;

/// The tag of a group.
const GROUP_TAG: u8 = 1;

/// A writer of one process slice: its magic, its groups in order, and its end. After a refusal it has ended, and the
/// sink holds a front of what was put. `WriteFault` comes only where the sink's count of faults rose, and `NoMemory`
/// where memory is refused, to `start` or by the sink.
#[derive(Drop)]
pub struct GroupWriter {
    out: Out,
    least: u64,
}

impl Model for GroupWriter {
    ghost use Rattle.cx_slicefmt.specs.Engine.{SliceWriting};

    ghost Value = { SliceWriting };

    ghost view = { λ w. record { output = w.out; least = w.least } };
}

impl GroupWriter {
    /// Begins a slice with its magic. The first group may have any index.
    pub fn start<T: Sink>(alloc: Global, sink: &mut T) -> Result<GroupWriter, OutFault>
        ensures starts { Starts OutFault.WriteFault slice_magic slice_output_of
            (T.held sink.old) (T.held sink.new) (T.faults sink.old) (T.faults sink.new) result }
        ensures least { IfOk result (λ w. w.least ≡ 0) }
    {
        let mut out = Out::new(alloc)?;
        out.put_bytes(b"CXP1", sink)?;
        Ok(GroupWriter { out, least: 0 })
    }

    /// Whether it goes on: it does until a call is refused.
    pub fn live(&self) -> bool
        ensures { result ≡ self.now.output.live }
    {
        self.out.live()
    }

    /// Writes the group of a step, which has an item, and stands behind the last group.
    pub fn group<T: Sink>(
        &mut self,
        index: u64,
        items: &GroupItems,
        sink: &mut T,
    ) -> Result<(), OutFault>
        requires live { IsTrue self.old.output.live }
        requires rules { IsGroup process self.old.least (record { index = index; items = items_in items.now }) }
        ensures puts { Puts OutFault.WriteFault
            (group_text self.old.least (record { index = index; items = items_in items.now }))
            (onto self.old.output (T.held sink.old) (T.faults sink.old))
            (onto self.new.output (T.held sink.new) (T.faults sink.new)) result }
        ensures least { OnOk result (self.new.least ≡ index + 1) }
        ensures refused { OnErr result (self.new.least ≡ self.old.least) }
    {
        put_entry(
            &mut self.out,
            GROUP_TAG,
            index - last_before(self.least),
            sink,
        )?;
        put_items(&mut self.out, items, sink)?;
        self.least = index + 1;
        Ok(())
    }

    /// Writes the end, with the number of steps, and hands all to the sink. There is a group, and the number is above
    /// the index of the last.
    pub fn end<T: Sink>(self, count: u64, sink: &mut T) -> Result<(), OutFault>
        requires live { IsTrue self.output.live }
        requires rules { IsEnd self.least count }
        ensures { Finishes OutFault.WriteFault (slice_end_text self.least count)
            (onto self.output (T.held sink.old) (T.faults sink.old)) (T.held sink.new) (T.faults sink.new) result }
    {
        let distance = count - last_before(self.least);
        let mut out = self.out;
        put_entry(&mut out, END_TAG, distance, sink)?;
        out.finish(sink)
    }
}
