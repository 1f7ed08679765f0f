//! What the records of a step hand to it.

ghost use Rattle.std.specs.Prelude.{◌≡◌, ◌+◌, ◌<◌, ◌≤◌, ◌++◌, ◌∷◌, [], length, take, IfOk, OnOk, OnErr, slice_index_or};
ghost use Rattle.cx_log.specs.Item.{entry_of};
ghost use Rattle.cx_machine.specs.Due.{nothing_due};
ghost use Rattle.cx_replay.specs.Handing.{handed_by};

use cx_csr::Lines;
use cx_io::NoMemory;
use cx_log::{Item, What};
use std::alloc::Global;
use std::marker::Model;

/// Bytes that a device writes, and the place of the first of them.
#[derive(Drop)]
pub(crate) struct Moved {
    place: u32,
    bytes: Vec<u8>,
}

impl Model for Moved {
    ghost use Rattle.cx_machine.specs.Transfers.{Transfer};

    ghost Value = { Transfer };

    ghost view = { λ m. record { place = m.place; bytes = m.bytes.items } };
}

impl Moved {
    // A copy of these bytes, for this place.
    fn copy(alloc: Global, place: u32, bytes: &[u8]) -> Result<Moved, NoMemory>
        ensures { IfOk result (λ m. m ≡ record { place = place; bytes = bytes.now }) }
    {
        let mut copy = Vec::new(alloc);
        match copy.extend_from_slice(bytes) {
            Ok(()) => Ok(Moved { place, bytes: copy }),
            Err(_) => Err(NoMemory),
        }
    }

    /// The place of the first byte.
    pub(crate) fn place(&self) -> u32
        ensures { result ≡ self.now.place }
    {
        self.place
    }

    /// The bytes.
    pub(crate) fn bytes(&self) -> &[u8]
        ensures { result.now ≡ self.now.bytes }
    {
        &self.bytes
    }
}

/// What the records of a step hand to it: the writes of devices before the step, in order, the lines from this step on
/// where they change, and the value that the step asks for.
#[derive(Drop)]
pub struct DueRecords {
    alloc: Global,
    moves: Vec<Moved>,
    lines: Option<Lines>,
    value: Option<u32>,
}

impl Model for DueRecords {
    ghost use Rattle.cx_machine.specs.Due.{Due};

    ghost Value = { Due };

    ghost view = { λ d. record { transfers = d.moves.items; lines = d.lines; value = d.value } };
}

impl DueRecords {
    /// Nothing yet.
    pub(crate) fn new(alloc: Global) -> DueRecords
        ensures { result ≡ nothing_due }
    {
        DueRecords {
            alloc,
            moves: Vec::new(alloc),
            lines: None,
            value: None,
        }
    }

    /// Nothing again.
    pub(crate) fn clear(&mut self)
        ensures { self.new ≡ nothing_due }
    {
        self.moves.clear();
        self.lines = None;
        self.value = None;
    }

    /// Puts a record behind those that are due already, where a Dma has these bytes.
    pub(crate) fn push(&mut self, item: &Item, bytes: &[u8]) -> Result<(), NoMemory>
        ensures { OnOk result (self.new ≡ handed_by (entry_of bytes.now item.now) self.old) }
    {
        match item.what {
            What::Dma(place) => self.push_move(place, bytes)?,
            What::Lines(lines) => self.lines = Some(self.lines.unwrap_or(lines)),
            What::Value(value) => self.value = Some(self.value.unwrap_or(value)),
            What::Mark | What::End => {}
        }
        Ok(())
    }

    // Puts bytes behind those that are moved already.
    fn push_move(&mut self, place: u32, bytes: &[u8]) -> Result<(), NoMemory>
        ensures moved { OnOk result (self.new ≡ record self.old {
          transfers = self.old.transfers ++ record {
            place =
                place;
            bytes = bytes.now;
          } ∷ [];
        }) }
    {
        let moved = Moved::copy(self.alloc, place, bytes)?;
        match self.moves.push(moved) {
            Ok(()) => Ok(()),
            Err(_) => Err(NoMemory),
        }
    }

    /// What is moved.
    pub(crate) fn moves(&self) -> &[Moved]
        ensures { result.now ≡ self.now.transfers }
    {
        &self.moves
    }

    /// How many devices' writes come before the step.
    pub fn dmas(&self) -> usize
        ensures { result ≡ length self.now.transfers }
    {
        self.moves.len()
    }

    /// The place of the first byte of such a write.
    pub fn dma_place(&self, index: usize) -> u32
        requires { index < length self.now.transfers }
        ensures { result ≡ (slice_index_or self.now.transfers index (record { place = 0; bytes = [] })).place }
    {
        self.moves[index].place()
    }

    /// Its bytes.
    pub fn dma_bytes(&self, index: usize) -> &[u8]
        requires { index < length self.now.transfers }
        ensures { result.now ≡ (slice_index_or self.now.transfers index (record { place = 0; bytes = [] })).bytes }
    {
        self.moves[index].bytes()
    }

    /// The lines from this step on; None leaves them as they are.
    pub fn lines(&self) -> Option<Lines>
        ensures { result ≡ self.now.lines }
    {
        self.lines
    }

    /// The value that the step asks for.
    pub fn value(&self) -> Option<u32>
        ensures { result ≡ self.now.value }
    {
        self.value
    }
}
