//! The records of a recording, written again.

ghost use Rattle.std.specs.Prelude.{◌≡◌, ◌==◌, [], ◌∷◌, false, IsTrue};
ghost use Rattle.cx_io.specs.Cause.{HasCause};
ghost use Rattle.cx_log.specs.Item.{is_end};
ghost use Rattle.cx_run.specs.StepEvents.{line_events, mark_events, step_events, transfer_events, value_events};
ghost use Rattle.cx_replay.specs.Events.{recorded_of};
ghost use Rattle.cx_record.specs.Putting.{PutsEvents};

use crate::front::start_upgraded;
use cx_codec::OutFault;
use cx_csr::Lines;
use cx_hart::{Machine, StepRec};
use cx_io::Sink;
use cx_log::{Behind, Header, Item, LogWriter, What};
use cx_replay::DueRecords;
use cx_telling::Teller;
use std::alloc::Global;
use std::marker::Model;

/// Writes the records of each step again, behind the header and the pages.
#[derive(Drop)]
pub struct Upgrade {
    writer: LogWriter,
    pages: u32,
    behind: Behind,
}

impl Model for Upgrade {
    ghost use Rattle.std.specs.Prelude.{IsTrue};
    ghost use Rattle.cx_log.specs.Engine.{Writing};
    ghost use Rattle.cx_commands.specs.Upgrade.{IsUpgrading};

    ghost Value = { Writing };

    ghost view = { λ u. u.writer };

    ghost invariant = { λ u. IsTrue u.writer.output.live → IsUpgrading u.writer u.pages u.behind };
}

impl Upgrade {
    // Writes a record, with these bytes where it is a Dma. The reader has judged each, so none is out of order here;
    // one that were would end the output as want of memory does.
    fn put<T: Sink>(&mut self, item: &Item, bytes: &[u8], sink: &mut T) -> Result<(), OutFault>
        requires live { IsTrue self.old.output.live }
        requires more { is_end item.now.what ≡ false }
        ensures puts { PutsEvents (recorded_of bytes.now item.now ∷ []) self.old (T.held sink.old) self.new
            (T.held sink.new) result }
        ensures cause { HasCause OutFault.WriteFault (T.faults sink.old) (T.faults sink.new) result }
    {
        let _ = &self.writer;
        if !self.behind.may_follow(self.pages, item, bytes) {
            return Err(OutFault::NoMemory);
        }
        let after = self.behind.after(item);
        match item.what {
            What::Dma(place) => self.writer.dma(item.step, place, bytes, sink)?,
            _ => self.writer.event(item, sink)?,
        }
        self.behind = after;
        Ok(())
    }

    // Writes the mark of a step, where one has to stand there.
    fn put_mark<T: Sink>(&mut self, step: u64, sink: &mut T) -> Result<(), OutFault>
        requires live { IsTrue self.old.output.live }
        ensures puts { PutsEvents (mark_events step (step == self.old.behind.mark)) self.old (T.held sink.old) self.new
            (T.held sink.new) result }
        ensures cause { HasCause OutFault.WriteFault (T.faults sink.old) (T.faults sink.new) result }
    {
        if step == self.behind.mark {
            let what = What::Mark;
            return self.put(&Item { step, what }, &[], sink);
        }
        Ok(())
    }

    // Writes what devices write before a step.
    fn put_transfers<T: Sink>(
        &mut self,
        step: u64,
        due: &DueRecords,
        sink: &mut T,
    ) -> Result<(), OutFault>
        requires live { IsTrue self.old.output.live }
        ensures puts { PutsEvents (transfer_events step due.now.transfers) self.old (T.held sink.old) self.new
            (T.held sink.new) result }
        ensures cause { HasCause OutFault.WriteFault (T.faults sink.old) (T.faults sink.new) result }
    {
        for index in 0..due.dmas() {
            let what = What::Dma(due.dma_place(index));
            self.put(&Item { step, what }, due.dma_bytes(index), sink)?;
        }
        Ok(())
    }

    // Writes the lines from a step on.
    fn put_lines<T: Sink>(
        &mut self,
        step: u64,
        lines: Option<Lines>,
        sink: &mut T,
    ) -> Result<(), OutFault>
        requires live { IsTrue self.old.output.live }
        ensures puts { PutsEvents (line_events step lines) self.old (T.held sink.old) self.new
            (T.held sink.new) result }
        ensures cause { HasCause OutFault.WriteFault (T.faults sink.old) (T.faults sink.new) result }
    {
        if let Some(lines) = lines {
            let what = What::Lines(lines);
            return self.put(&Item { step, what }, &[], sink);
        }
        Ok(())
    }

    // Writes the value that a step asks for.
    fn put_value<T: Sink>(
        &mut self,
        step: u64,
        value: Option<u32>,
        sink: &mut T,
    ) -> Result<(), OutFault>
        requires live { IsTrue self.old.output.live }
        ensures puts { PutsEvents (value_events step value) self.old (T.held sink.old) self.new
            (T.held sink.new) result }
        ensures cause { HasCause OutFault.WriteFault (T.faults sink.old) (T.faults sink.new) result }
    {
        if let Some(value) = value {
            let what = What::Value(value);
            return self.put(&Item { step, what }, &[], sink);
        }
        Ok(())
    }

    // Writes the records of a step.
    fn put_step<T: Sink>(
        &mut self,
        step: u64,
        due: &DueRecords,
        sink: &mut T,
    ) -> Result<(), OutFault>
        requires live { IsTrue self.old.output.live }
        ensures puts { PutsEvents (step_events step (step == self.old.behind.mark) due.now) self.old (T.held sink.old)
            self.new (T.held sink.new) result }
        ensures cause { HasCause OutFault.WriteFault (T.faults sink.old) (T.faults sink.new) result }
    {
        self.put_mark(step, sink)?;
        self.put_transfers(step, due, sink)?;
        self.put_lines(step, due.lines(), sink)?;
        self.put_value(step, due.value(), sink)
    }
}

impl Teller for Upgrade {
    ghost use Rattle.std.specs.Prelude.{false, true, IsTrue};
    ghost use Rattle.cx_commands.specs.Growing.{never_missing, upgrade_grows};
    ghost use Rattle.cx_commands.specs.Upgrade.{HasUpgraded, upgrade_full, upgrade_text};

    type Asked = ();

    ghost text = { λ asked. upgrade_text };

    ghost full = { λ asked. upgrade_full };

    ghost seeks = { false };

    ghost there = { λ asked records. true };

    ghost waiting = { λ w. w.output.bytes };

    ghost keeps = { λ w asked o whole given. HasUpgraded o whole given w };

    ghost ready = { λ w. IsTrue w.output.live };

    ghost found = { λ w. true };

    ghost grows = { λ asked. upgrade_grows };

    ghost unwritten = { λ asked o whole given never. never_missing never };

    fn start<T: Sink>(
        alloc: Global,
        _asked: (),
        header: &Header,
        machine: &Machine,
        sink: &mut T,
    ) -> Result<Upgrade, OutFault> {
        let writer = start_upgraded(alloc, header, machine.ram(), sink)?;
        Ok(Upgrade {
            writer,
            pages: header.pages,
            behind: Behind::at_start(header.base, &header.start),
        })
    }

    fn tell<T: Sink>(
        &mut self,
        step: u64,
        _rec: &StepRec,
        due: &DueRecords,
        sink: &mut T,
    ) -> Result<(), OutFault> {
        self.put_step(step, due, sink)
    }

    fn is_there(&self) -> bool {
        true
    }

    fn finish<T: Sink>(self, end: u64, sink: &mut T) -> Result<(), OutFault> {
        let Upgrade {
            writer,
            pages,
            behind,
        } = self;
        let step = end;
        let what = What::End;
        if !behind.may_follow(pages, &Item { step, what }, &[]) {
            return Err(OutFault::NoMemory);
        }
        writer.end(end, sink)
    }
}
