//! What was due to the steps of a run, as it is kept.

ghost use Rattle.std.specs.Prelude.{◌≡◌, [], length, IfOk, OnOk};
ghost use Rattle.cx_seek.specs.Dues.{due_in, index_behind, noted};

use crate::handed::{Handed, is_nothing};
use cx_io::NoMemory;
use cx_replay::DueRecords;
use std::alloc::Global;
use std::marker::Model;

/// A step, and what was handed to it.
#[derive(Drop)]
struct Note {
    step: u64,
    handed: Handed,
}

impl Model for Note {
    ghost use Rattle.cx_seek.specs.Dues.{Noted};

    ghost Value = { Noted };

    ghost view = { λ n. record { step = n.step; due = n.handed } };
}

impl Note {
    // A note of what was due to a step.
    fn of(alloc: Global, step: u64, due: &DueRecords) -> Result<Note, NoMemory>
        ensures { IfOk result (λ n. n ≡ record { step = step; due = due.now }) }
    {
        let handed = Handed::copy(alloc, due)?;
        Ok(Note { step, handed })
    }

    // The step.
    fn step(&self) -> u64
        ensures { result ≡ self.now.step }
    {
        self.step
    }

    // What was handed to it.
    fn handed(&self) -> &Handed
        ensures { result.now ≡ self.now.due }
    {
        &self.handed
    }
}

/// What was due to the steps of a run to which something was, in order.
#[derive(Drop)]
pub(crate) struct Notes {
    alloc: Global,
    notes: Vec<Note>,
    nothing: Handed,
}

impl Model for Notes {
    ghost use Rattle.std.specs.Prelude.{◌≡◌, List};
    ghost use Rattle.cx_machine.specs.Due.{nothing_due};
    ghost use Rattle.cx_seek.specs.Dues.{Noted};

    ghost Value = { List Noted };

    ghost view = { λ n. n.notes.items };

    ghost invariant = { λ n. n.nothing ≡ nothing_due };
}

impl Notes {
    /// None yet.
    pub(crate) fn new(alloc: Global) -> Notes
        ensures { result ≡ [] }
    {
        Notes {
            alloc,
            notes: Vec::new(alloc),
            nothing: Handed::nothing(alloc),
        }
    }

    /// How many there are.
    pub(crate) fn count(&self) -> usize
        ensures { result ≡ length self.now }
    {
        self.notes.len()
    }

    /// Notes what was due to a step, behind those before it, if something was. `NoMemory` is free.
    pub(crate) fn note(&mut self, step: u64, due: &DueRecords) -> Result<(), NoMemory>
        ensures { OnOk result (self.new ≡ noted step due.now self.old) }
    {
        if is_nothing(due) {
            return Ok(());
        }
        let note = Note::of(self.alloc, step, due)?;
        match self.notes.push(note) {
            Ok(()) => Ok(()),
            Err(_) => Err(NoMemory),
        }
    }

    /// What was due to a step, where the notes below an index are of earlier steps and the others are not.
    pub(crate) fn due(&self, next: usize, step: u64) -> &Handed
        ensures { result.now ≡ due_in self.now next step }
    {
        match self.notes.get(next) {
            Some(note) if note.step() == step => note.handed(),
            _ => &self.nothing,
        }
    }

    /// The index of the first note of a later step.
    pub(crate) fn index_behind(&self, next: usize, step: u64) -> usize
        ensures { result ≡ index_behind self.now next step }
    {
        match self.notes.get(next) {
            Some(note) if note.step() == step => next + 1,
            _ => next,
        }
    }
}
