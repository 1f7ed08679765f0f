//! What is kept of a run for its window.

ghost use Rattle.std.specs.Prelude.{◌≡◌, ◌≤◌, ◌==◌, ◌++◌, length, true, IfOk, OnOk, Some};
ghost use Rattle.cx_map.specs.Map.{size_of_pages};
ghost use Rattle.cx_window.specs.Marks.{AddsMarks};
ghost use Rattle.cx_log.specs.Order.{IsHeader};
ghost use Rattle.cx_window.specs.Slice.{Finishes};
ghost use Rattle.cx_window.specs.Slicing.{IsFit, is_within, nothing_kept, window_events, window_reads};

use crate::marks::{blank, mark_reads};
use crate::slice::Slice;
use cx_hart::{Machine, Moment, StepRec};
use cx_io::NoMemory;
use cx_log::{Behind, Header, STEP_LIMIT};
use cx_replay::{DueRecords, KeptEvents};
use std::alloc::Global;
use std::marker::Model;

/// A slicer of the window from one step up to but not including another. It is handed a moment of the machine before
/// the window's first step, and shown the record of each step of the window; it marks the pages that these steps read,
/// and keeps their events.
#[derive(Drop)]
pub struct Slicer {
    alloc: Global,
    from: u64,
    to: u64,
    moment: Option<Moment>,
    marks: Vec<bool>,
    events: KeptEvents,
}

impl Model for Slicer {
    ghost use Rattle.cx_window.specs.Slicing.{Slicing};

    ghost Value = { Slicing };

    ghost view = { λ s. record {
      from = s.from;
      to = s.to;
      moment = s.moment;
      marks = s.marks.items;
      events = s.events;
    } };
}

impl Slicer {
    /// A slicer of RAM of so many pages, which was shown nothing yet.
    pub fn new(alloc: Global, pages: u32, from: u64, to: u64) -> Result<Slicer, NoMemory>
        ensures { IfOk result (λ s. s ≡ nothing_kept pages from to) }
    {
        let marks = blank(alloc, pages)?;
        Ok(Slicer {
            alloc,
            from,
            to,
            moment: None,
            marks,
            events: KeptEvents::new(alloc),
        })
    }

    /// Whether the window's first step is this one.
    pub fn starts_at(&self, step: u64) -> bool
        ensures { result ≡ (step == self.now.from) }
    {
        step == self.from
    }

    /// Whether this step is one of the window.
    pub fn has_step(&self, step: u64) -> bool
        ensures { result ≡ is_within self.now step }
    {
        self.from <= step && step < self.to
    }

    /// Hands it the moment of the machine before the window's first step.
    pub fn keep(&mut self, moment: Moment)
        ensures { self.new ≡ record self.old { moment = Some moment } }
    {
        self.moment = Some(moment);
    }

    /// Shows it the record of a step of the window, whether a mark stands at the step, and what was due to it. It takes
    /// memory where an event is kept.
    pub fn feed(
        &mut self,
        step: u64,
        rec: &StepRec,
        marked: bool,
        due: &DueRecords,
    ) -> Result<(), NoMemory>
        requires walked { rec.now.walked ≤ 6 }
        requires within { is_within self.old step ≡ true }
        ensures marks { AddsMarks self.old.marks self.new.marks (window_reads self.old step rec.now) }
        ensures events { OnOk result (self.new.events ≡ self.old.events ++ window_events self.old step marked due.now) }
        ensures same { self.new ≡ record self.old { marks = self.new.marks; events = self.new.events } }
    {
        mark_reads(&mut self.marks, rec);
        self.events
            .push_step(step, step != self.from && marked, due)
    }

    /// What was kept of a window of a recording with this header and of this machine; None exactly where no moment of
    /// the machine was kept before the window's first step, or the events that were kept aren't in order, as those of a
    /// recording are.
    pub(crate) fn finish(self, header: &Header, machine: Machine) -> Option<Slice>
        requires header { IsHeader header.now }
        requires fit { IsFit header.now.pages machine.saved self }
        requires size { length machine.memory ≡ size_of_pages header.now.pages }
        requires split { machine.split ≡ header.now.split }
        ensures { Finishes header.now machine.saved self result }
    {
        let moment = self.moment?;
        if self.from >= STEP_LIMIT {
            return None;
        }
        let start = *moment.state();
        let behind = Behind::at_start(self.from, &start);
        if !self.events.are_in_order(header.pages, &behind, self.to) {
            return None;
        }
        let header = Header {
            version: header.version,
            split: header.split,
            pages: header.pages,
            base: self.from,
            start,
            count: header.count,
        };
        Some(Slice::of(header, self.to, machine, moment, self.marks, self.events))
    }
}
