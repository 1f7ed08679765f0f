//! What was handed to a step, as it is kept.

ghost use Rattle.std.specs.Bool.{OnTrue};
ghost use Rattle.std.specs.Prelude.{◌≡◌, ◌==◌, ◌&&◌, ◌≤◌, ◌∷◌, [], length, is_none, IfOk, IfSome, IsTrue};
ghost use Rattle.cx_hart.specs.Whole.{machine_of};
ghost use Rattle.cx_machine.specs.Due.{AreLines, nothing_due};
ghost use Rattle.cx_machine.specs.Transfers.{after_transfers};
ghost use Rattle.cx_seek.specs.Dues.{covers, covers_byte, is_nothing};

use cx_csr::{LINE_INTERRUPTS, Lines};
use cx_hart::{Due, Machine};
use cx_io::NoMemory;
use cx_map::PAGE_SIZE;
use cx_replay::DueRecords;
use std::alloc::Global;
use std::marker::Model;

/// Bytes that a device wrote, and the place of the first of them.
#[derive(Drop)]
struct Move {
    place: u32,
    bytes: Vec<u8>,
}

impl Model for Move {
    ghost use Rattle.cx_machine.specs.Transfers.{Transfer};

    ghost Value = { Transfer };

    ghost view = { λ m. record { place = m.place; bytes = m.bytes.items } };
}

impl Move {
    // A copy of these bytes, for this place.
    fn copy(alloc: Global, place: u32, bytes: &[u8]) -> Result<Move, NoMemory>
        ensures { IfOk result (λ m. m ≡ record { place = place; bytes = bytes.now }) }
    {
        let mut copy = Vec::new(alloc);
        match copy.extend_from_slice(bytes) {
            Ok(()) => Ok(Move { place, bytes: copy }),
            Err(_) => Err(NoMemory),
        }
    }

    // Whether the byte at a place is one of them.
    fn covers(&self, place: u32) -> bool
        ensures { result ≡ covers_byte place self.now }
    {
        self.place <= place && u64::from(place) < u64::from(self.place) + self.bytes.len() as u64
    }

    // Writes the bytes to RAM; false where they don't fit it, or memory is refused.
    fn write(&self, machine: &mut Machine) -> bool
        ensures machine { OnTrue result (machine_of machine.new
            ≡ after_transfers (self.now ∷ []) (machine_of machine.old)) }
        ensures size { length machine.new.memory ≡ length machine.old.memory }
        ensures split { machine.new.split ≡ machine.old.split }
        ensures saved { machine.new.saved ≡ machine.old.saved }
    {
        let len = self.bytes.len();
        if len == 0 || PAGE_SIZE < len || !machine.ram().contains(self.place, len as u32) {
            return false;
        }
        if machine.reserve(2).is_err() {
            return false;
        }
        machine.dma(self.place, &self.bytes);
        true
    }
}

/// What was handed to a step: the writes of devices before it, in order, the lines from it on where they change, and
/// the value that it asks for.
#[derive(Drop)]
pub(crate) struct Handed {
    moves: Vec<Move>,
    lines: Option<Lines>,
    value: Option<u32>,
}

impl Model for Handed {
    ghost use Rattle.cx_machine.specs.Due.{Due};

    ghost Value = { Due };

    ghost view = { λ h. record { transfers = h.moves.items; lines = h.lines; value = h.value } };
}

// Copies of the writes of devices.
fn copy_moves(alloc: Global, due: &DueRecords) -> Result<Vec<Move>, NoMemory>
    ensures { IfOk result (λ moves. moves.items ≡ due.now.transfers) }
{
    let mut moves = Vec::new(alloc);
    for index in 0..due.dmas() {
        let copy = Move::copy(alloc, due.dma_place(index), due.dma_bytes(index))?;
        if moves.push(copy).is_err() {
            return Err(NoMemory);
        }
    }
    Ok(moves)
}

/// Whether nothing is handed to a step.
pub(crate) fn is_nothing(due: &DueRecords) -> bool
    ensures { result ≡ is_nothing due.now }
{
    due.dmas() == 0 && due.lines().is_none() && due.value().is_none()
}

// Whether the hart has the lines, where some are handed to it.
fn are_lines(lines: Option<Lines>) -> bool
    ensures { OnTrue result (IfSome lines AreLines) }
{
    match lines {
        Some(lines) => lines.0 & LINE_INTERRUPTS == lines.0,
        None => true,
    }
}

// Writes the bytes of all devices to RAM, in order.
fn write_all(moves: &[Move], machine: &mut Machine) -> bool
    ensures machine { OnTrue result (machine_of machine.new ≡ after_transfers moves.now (machine_of machine.old)) }
    ensures size { length machine.new.memory ≡ length machine.old.memory }
    ensures split { machine.new.split ≡ machine.old.split }
    ensures saved { machine.new.saved ≡ machine.old.saved }
{
    for index in 0..moves.len() {
        if !moves[index].write(machine) {
            return false;
        }
    }
    true
}

impl Handed {
    /// Nothing.
    pub(crate) fn nothing(alloc: Global) -> Handed
        ensures { result ≡ nothing_due }
    {
        Handed {
            moves: Vec::new(alloc),
            lines: None,
            value: None,
        }
    }

    /// A copy of what was due to a step. `NoMemory` is free.
    pub(crate) fn copy(alloc: Global, due: &DueRecords) -> Result<Handed, NoMemory>
        ensures { IfOk result (λ h. h ≡ due.now) }
    {
        let moves = copy_moves(alloc, due)?;
        Ok(Handed {
            moves,
            lines: due.lines(),
            value: due.value(),
        })
    }

    /// Whether a write of a device covers the byte at a place.
    pub(crate) fn covers(&self, place: u32) -> bool
        ensures { result ≡ covers self.now.transfers place }
    {
        self.moves.iter().any(|m| m.covers(place))
    }

    /// What is handed to the step itself, once devices have written.
    pub(crate) fn rest(&self) -> Due
        ensures { result ≡ record { lines = self.now.lines; value = self.now.value } }
    {
        Due {
            lines: self.lines,
            value: self.value,
        }
    }

    /// Writes the bytes of all devices to RAM, in order, and makes room for the step. It answers false where memory is
    /// refused, or where the machine can't be handed this; some bytes may be written then.
    pub(crate) fn prepare(&self, machine: &mut Machine) -> bool
        ensures machine { OnTrue result (machine_of machine.new
            ≡ after_transfers self.now.transfers (machine_of machine.old)) }
        ensures room { OnTrue result (2 ≤ machine.new.spare) }
        ensures lines { OnTrue result (IfSome self.now.lines AreLines) }
        ensures size { length machine.new.memory ≡ length machine.old.memory }
        ensures split { machine.new.split ≡ machine.old.split }
        ensures saved { machine.new.saved ≡ machine.old.saved }
    {
        if !are_lines(self.lines) || !write_all(&self.moves, machine) {
            return false;
        }
        machine.reserve(2).is_ok()
    }
}
