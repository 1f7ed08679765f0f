//! The live machine.

ghost use Rattle.std.specs.Prelude.{◌≡◌, [], false, length, Some, IfErr, IfOk};
ghost use Rattle.cx_live.specs.Run.{live_at_reset};
ghost use Rattle.cx_live.specs.Seen.{due_of, happened};
ghost use Rattle.cx_live.specs.Turn.{live_turn};

use crate::image::Image;
use crate::turn::{Happened, arrive, complete_where, lines_due, store_word, take_step};
use cx_block::Block;
use cx_csr::Lines;
use cx_devices::Devices;
use cx_hart::{Machine, NoMemory, StepRec};
use cx_io::Outside;
use cx_map::PAGE_SIZE;
use std::alloc::Global;
use std::marker::Model;

/// The hart with its RAM, its devices and its block device, between two turns.
#[derive(Drop)]
pub struct Live {
    machine: Machine,
    devices: Devices,
    block: Block,
    console: Vec<u8>,
    arrived: usize,
    buffer: Vec<u8>,
    moved: usize,
}

impl Model for Live {
    ghost use Rattle.std.specs.Prelude.{take, drop};
    ghost use Rattle.cx_hart.specs.Whole.{machine_of};
    ghost use Rattle.cx_live.specs.Seen.{Seen};
    ghost use Rattle.cx_live.specs.Sound.{IsSound};

    ghost Value = { Seen };

    ghost view = { λ l. record {
      live = record {
        machine = machine_of l.machine;
        devices = l.devices;
        block = l.block;
        console = drop l.arrived l.console.items;
      };
      split = l.machine.split;
      spare = l.machine.spare;
      moved = take l.moved l.buffer.items;
    } };

    ghost invariant = { λ l. IsSound l.machine l.block l.console.items l.arrived l.buffer.items l.moved };
}

/// What happened in a turn.
#[derive(Clone, Copy, Debug, PartialEq, Eq)]
pub struct Turn {
    /// The place of the bytes that the block device wrote to RAM before the step, where it did; `Live::dma_bytes` has
    /// them.
    pub dma: Option<u32>,
    /// The interrupt lines from this step on, where they changed.
    pub lines: Option<Lines>,
    /// The value that the devices answered, where the step asked for one.
    pub value: Option<u32>,
    /// The record of the step.
    pub rec: StepRec,
    /// Whether the step turned the machine off.
    pub off: bool,
}

// A buffer for the bytes that a command of the block device moves.
fn page_buffer(alloc: Global) -> Result<Vec<u8>, NoMemory>
    ensures { IfOk result (λ buffer. length buffer.items ≡ PAGE_SIZE) }
{
    match vec![in alloc; 0u8; PAGE_SIZE] {
        Ok(buffer) => Ok(buffer),
        Err(_) => Err(NoMemory),
    }
}

impl Live {
    /// The machine of an image, at reset. `NoMemory` is free.
    pub fn new(alloc: Global, image: Image) -> Result<Live, NoMemory>
        ensures live { IfOk result (λ l. l.live ≡ live_at_reset image) }
        ensures split { IfOk result (λ l. l.split ≡ image.split) }
        ensures moved { IfOk result (λ l. l.moved ≡ []) }
    {
        let Image {
            machine,
            disk,
            console,
            ..
        } = image;
        let block = Block::new(alloc, disk)?;
        let buffer = page_buffer(alloc)?;
        Ok(Live {
            machine,
            devices: Devices::new(),
            block,
            console,
            arrived: 0,
            buffer,
            moved: 0,
        })
    }

    /// One turn, whose step is told in a record of the caller's: what the outside does, then a step, which the devices
    /// answer, then the effect of what it stored to a device. Memory is taken first: where it is refused, nothing
    /// changes.
    #[inline(always)]
    pub fn turn_into(&mut self, out: Outside, rec: &mut StepRec) -> Result<Happened, NoMemory>
        requires on { self.old.live.devices.off ≡ false }
        ensures turn { IfOk result (λ t. live_turn self.old.split out self.old.live ≡ Some (record {
          due = due_of t self.new.moved;
          rec = rec.new;
          live = self.new.live;
        })) }
        ensures off { IfOk result (λ t. t.off ≡ self.new.live.devices.off) }
        ensures split { self.new.split ≡ self.old.split }
        ensures refused { IfErr result (λ e. self.new ≡ self.old) }
    {
        self.machine.reserve(4)?;
        self.devices.pass(out.ticks);
        self.arrived = arrive(&mut self.devices, &self.console, self.arrived, out.console);
        let moved = complete_where(
            out.block,
            &mut self.machine,
            &mut self.block,
            &mut self.buffer,
        );
        self.moved = moved.len;
        let standing = self.machine.state().lines;
        let lines = lines_due(&self.devices, self.block.state(), standing);
        let value = take_step(
            &mut self.machine,
            lines,
            &mut self.devices,
            &self.block,
            rec,
        );
        let pages = self.machine.ram().pages();
        store_word(rec.write, pages, &mut self.devices, &mut self.block);
        Ok(Happened {
            dma: moved.dma,
            lines,
            value,
            off: self.devices.off(),
        })
    }

    /// One turn, with the record of its step.
    pub fn turn(&mut self, out: Outside) -> Result<Turn, NoMemory>
        requires on { self.old.live.devices.off ≡ false }
        ensures turn { IfOk result (λ t. live_turn self.old.split out self.old.live ≡ Some (record {
          due = due_of (happened t) self.new.moved;
          rec = t.rec;
          live = self.new.live;
        })) }
        ensures off { IfOk result (λ t. t.off ≡ self.new.live.devices.off) }
        ensures split { self.new.split ≡ self.old.split }
        ensures refused { IfErr result (λ e. self.new ≡ self.old) }
    {
        let mut rec = StepRec::BLANK;
        let happened = self.turn_into(out, &mut rec)?;
        Ok(Turn {
            dma: happened.dma,
            lines: happened.lines,
            value: happened.value,
            rec,
            off: happened.off,
        })
    }

    /// The bytes that the block device wrote to RAM in the last turn; none where it wrote none.
    pub fn dma_bytes(&self) -> &[u8]
        ensures { result.now ≡ self.now.moved }
    {
        &self.buffer[..self.moved]
    }
}
