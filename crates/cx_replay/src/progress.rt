//! How far a replay has come.

ghost use Rattle.std.specs.Prelude.{◌≡◌, ◌+◌, ◌<◌};
ghost use Rattle.cx_replay.specs.Replaying.{begun_at_base, mark_of, mark_of_item, passed_mark};

use cx_log::{Item, What};

/// How far a replay has come: it is one record ahead of the steps and keeps no more of them.
#[derive(Clone, Copy, Debug, PartialEq, Eq)]
pub struct Progress {
    /// The step that comes next.
    pub at: u64,
    /// The steps below this one are settled.
    pub upto: u64,
    /// Whether End was read.
    pub ended: bool,
    /// The record that was read last, while it belongs to a later step. The bytes of a Dma are with the reader.
    pub waiting: Option<Item>,
    /// The step of the last mark that was taken in.
    pub marked: Option<u64>,
}

impl Progress {
    /// Before the first record of a recording with this first step.
    pub(crate) fn at_base(base: u64) -> Progress
        ensures { result ≡ begun_at_base base }
    {
        Progress {
            at: base,
            upto: base,
            ended: false,
            waiting: None,
            marked: None,
        }
    }

    /// The next step was given.
    pub(crate) fn pass(&mut self)
        requires { self.old.at < self.old.upto }
        ensures { self.new ≡ record self.old { at = self.old.at + 1 } }
    {
        let _ = self.upto;
        self.at += 1;
    }

    /// Whether a mark stands at the step that was given last.
    pub(crate) fn passed_mark(&self) -> bool
        ensures { result ≡ passed_mark self.now }
    {
        match self.marked {
            Some(step) => step < self.at && self.at - step == 1,
            None => false,
        }
    }

    /// The step of the last mark, up to the next step and the record that settled the step before it.
    pub(crate) fn mark(&self) -> Option<u64>
        ensures { result ≡ mark_of self.now }
    {
        match self.waiting {
            Some(item) => self.mark_at(&item),
            None => self.marked,
        }
    }

    // The same where this record waits.
    fn mark_at(&self, item: &Item) -> Option<u64>
        ensures { result ≡ mark_of_item self.now.at self.now.marked item.now }
    {
        match item.what {
            What::Mark if item.step == self.at => Some(item.step),
            What::Mark | What::Dma(_) | What::Lines(_) | What::Value(_) | What::End => self.marked,
        }
    }
}
