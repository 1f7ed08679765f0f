//! The parts of a turn, each on what it changes.

ghost use Rattle.std.specs.Prelude.{◌≡◌, ◌≢◌, ◌==◌, ◌≤◌, ◌<◌, [], ◌∷◌, length, take, drop, IfSome, None, Some};
ghost use Rattle.cx_block.specs.Block.{size_of, with_sectors};
ghost use Rattle.cx_block.specs.Sound.{IsReady};
ghost use Rattle.cx_block.specs.declared.states.TheConstants.{TO_RAM};
ghost use Rattle.cx_devices.specs.Devices.{after_load_at, lines_of};
ghost use Rattle.cx_hart.specs.Step.{NeedsValue, step, without_transfers};
ghost use Rattle.cx_hart.specs.Whole.{machine_of};
ghost use Rattle.cx_hart.specs.declared.answer.Asked.TheVariants.{Device as device};
ghost use Rattle.cx_hart.specs.declared.answer.Went.TheVariants.{Stepped as stepped};
ghost use Rattle.cx_live.specs.Inside.{IsBusyInside};
ghost use Rattle.cx_live.specs.Live.{Live, after_completion, after_console, changed_lines, moved, moves_of, ram_bytes};
ghost use Rattle.cx_live.specs.Live.{transfer_of, transfers_due};
ghost use Rattle.cx_live.specs.Seen.{transfers_of};
ghost use Rattle.cx_live.specs.Stepping.{CameTo, StepIsTaken};
ghost use Rattle.cx_live.specs.Turn.{after_asked, block_after_write, devices_after_write, value_of, word_of};
ghost use Rattle.cx_machine.specs.Due.{AreLines};
ghost use Rattle.cx_machine.specs.Transfers.{after_transfers};
ghost use Rattle.cx_map.specs.Map.{IsInRam, size_of_pages};
ghost use Rattle.cx_walk.specs.Devices.{device_at};

use crate::ram_bytes::copy_from_ram;
use cx_block::{Block, Transfer};
use cx_csr::{Lines, high_half, low_half};
use cx_devices::Devices;
use cx_hart::{Asked, Due, Machine, StepRec, Steps, Touch, Went};
use cx_map::PAGE_SIZE;
use std::marker::Brand;
use std::sync::ledger::{Blank, Ledger};

/// What happened in a turn, beside the record of its step: what was due to the step, and whether it turned the machine
/// off.
#[derive(Clone, Copy, Debug, PartialEq, Eq)]
pub struct Happened {
    /// The place of the bytes that the block device wrote to RAM before the step, where it did; `Live::dma_bytes` has
    /// them.
    pub dma: Option<u32>,
    /// The interrupt lines from this step on, where they changed.
    pub lines: Option<Lines>,
    /// The value that the devices answered, where the step asked for one.
    pub value: Option<u32>,
    /// Whether the step turned the machine off.
    pub off: bool,
}

/// A byte comes to the console, where the outside lets it and one is left; answers how many have come now.
pub(crate) fn arrive(devices: &mut Devices, console: &[u8], arrived: usize, now: bool) -> usize
    requires { arrived ≤ length console.now }
    ensures within { result ≤ length console.now }
    ensures arrive { (l : Live) → l.devices ≡ devices.old → l.console ≡ drop arrived console.now
        → after_console now l ≡ record l { devices = devices.new; console = drop result console.now } }
{
    if !now {
        return arrived;
    }
    match console.get(arrived) {
        Some(byte) => {
            if devices.arrive(*byte) {
                arrived + 1
            } else {
                arrived
            }
        }
        None => arrived,
    }
}

/// What a completed command wrote to RAM: the place, where it did, and how many bytes.
#[derive(Clone, Copy, Debug, PartialEq, Eq)]
pub struct Moved {
    /// The place of the first byte.
    pub dma: Option<u32>,
    /// How many bytes; they stand in front of the buffer.
    pub len: usize,
}

// Nothing was written to RAM.
fn nothing_moved() -> Moved
    ensures { result ≡ record { dma = None; len = 0 } }
{
    Moved { dma: None, len: 0 }
}

// The sectors of a command go to RAM, by way of the buffer.
fn move_to_ram(machine: &mut Machine, block: &Block, buffer: &mut [u8], transfer: Transfer) -> Moved
    requires ready { IsReady block.now.sector block.now.count (length block.now.disk) }
    requires place { transfer.place ≡ block.now.address }
    requires len { transfer.len ≡ size_of block.now }
    requires ram { IsInRam (length machine.old.memory) transfer.place transfer.len }
    requires room { 4 ≤ machine.old.spare }
    requires buffer { length buffer.old ≡ PAGE_SIZE }
    ensures machine { machine_of machine.new
        ≡ after_transfers (transfer_of block.now ∷ []) (machine_of machine.old) }
    ensures moved { transfers_of result.dma (take result.len buffer.new) ≡ transfer_of block.now ∷ [] }
    ensures len { result.len ≤ PAGE_SIZE }
    ensures size { length machine.new.memory ≡ length machine.old.memory }
    ensures split { machine.new.split ≡ machine.old.split }
    ensures room { 2 ≤ machine.new.spare }
{
    let len = transfer.len as usize;
    block.sectors_into(&mut buffer[..len]);
    machine.dma(transfer.place, &buffer[..len]);
    Moved {
        dma: Some(transfer.place),
        len,
    }
}

// The sectors of a command take RAM as it stands, by way of the buffer.
fn move_from_ram(machine: &Machine, block: &mut Block, buffer: &mut [u8], transfer: Transfer)
    requires ready { IsReady block.old.sector block.old.count (length block.old.disk) }
    requires place { transfer.place ≡ block.old.address }
    requires len { transfer.len ≡ size_of block.old }
    requires ram { IsInRam (length machine.now.memory) transfer.place transfer.len }
    requires buffer { length buffer.old ≡ PAGE_SIZE }
    ensures block { block.new ≡ with_sectors (ram_bytes machine.now.memory block.old) block.old }
{
    let len = transfer.len as usize;
    copy_from_ram(machine.ram(), transfer.place, &mut buffer[..len]);
    block.sectors_from(&buffer[..len]);
}

// What a command moves is moved.
#[cold]
#[inline(never)]
fn move_bytes(
    machine: &mut Machine,
    block: &mut Block,
    buffer: &mut [u8],
    transfer: Transfer,
) -> Moved
    requires ready { IsReady block.old.sector block.old.count (length block.old.disk) }
    requires way { transfer.to_ram ≡ (block.old.command == TO_RAM) }
    requires place { transfer.place ≡ block.old.address }
    requires len { transfer.len ≡ size_of block.old }
    requires ram { IsInRam (length machine.old.memory) transfer.place transfer.len }
    requires room { 4 ≤ machine.old.spare }
    requires buffer { length buffer.old ≡ PAGE_SIZE }
    ensures block { block.new ≡ moved machine.old.memory block.old }
    ensures machine { machine_of machine.new ≡ after_transfers (moves_of block.old) (machine_of machine.old) }
    ensures moved { transfers_of result.dma (take result.len buffer.new) ≡ moves_of block.old }
    ensures len { result.len ≤ PAGE_SIZE }
    ensures size { length machine.new.memory ≡ length machine.old.memory }
    ensures split { machine.new.split ≡ machine.old.split }
    ensures room { 2 ≤ machine.new.spare }
{
    if transfer.to_ram {
        return move_to_ram(machine, block, buffer, transfer);
    }
    move_from_ram(machine, block, buffer, transfer);
    nothing_moved()
}

// Completes the command of the block device, where the outside lets it be and there is one, by way of the buffer.
fn complete_by(now: bool, machine: &mut Machine, block: &mut Block, buffer: &mut [u8]) -> Moved
    requires inside { IsBusyInside (length machine.old.memory) block.old }
    requires room { 4 ≤ machine.old.spare }
    requires buffer { length buffer.old ≡ PAGE_SIZE }
    ensures block { block.new ≡ after_completion now machine.old.memory block.old }
    ensures machine { machine_of machine.new ≡ after_transfers (transfers_due now block.old) (machine_of machine.old) }
    ensures moved { transfers_of result.dma (take result.len buffer.new) ≡ transfers_due now block.old }
    ensures inside { IsBusyInside (length machine.old.memory) block.new }
    ensures len { result.len ≤ PAGE_SIZE }
    ensures size { length machine.new.memory ≡ length machine.old.memory }
    ensures split { machine.new.split ≡ machine.old.split }
    ensures room { 2 ≤ machine.new.spare }
{
    if !now {
        return nothing_moved();
    }
    match block.complete() {
        Some(transfer) => move_bytes(machine, block, buffer, transfer),
        None => nothing_moved(),
    }
}

/// Completes the command of the block device, where the outside lets it be and there is one.
#[inline(always)]
pub(crate) fn complete_where(
    now: bool,
    machine: &mut Machine,
    block: &mut Block,
    buffer: &mut Vec<u8>,
) -> Moved
    requires inside { IsBusyInside (length machine.old.memory) block.old }
    requires room { 4 ≤ machine.old.spare }
    requires buffer { length buffer.old.items ≡ PAGE_SIZE }
    ensures block { block.new ≡ after_completion now machine.old.memory block.old }
    ensures machine { machine_of machine.new ≡ after_transfers (transfers_due now block.old) (machine_of machine.old) }
    ensures moved { transfers_of result.dma (take result.len buffer.new.items) ≡ transfers_due now block.old }
    ensures inside { IsBusyInside (length machine.old.memory) block.new }
    ensures len { result.len ≤ PAGE_SIZE }
    ensures buffer { length buffer.new.items ≡ PAGE_SIZE }
    ensures size { length machine.new.memory ≡ length machine.old.memory }
    ensures split { machine.new.split ≡ machine.old.split }
    ensures room { 2 ≤ machine.new.spare }
{
    complete_by(now, machine, block, buffer)
}

/// The lines that are up, where they differ from those of the hart.
pub(crate) fn lines_due(devices: &Devices, block_state: u8, lines: Lines) -> Option<Lines>
    ensures due { result ≡ changed_lines lines (lines_of devices.now block_state) }
    ensures lines { IfSome result AreLines }
{
    let mask = devices.mask(block_state);
    if mask == lines { None } else { Some(mask) }
}

// What the devices answer a step that asks.
fn answer(what: Asked, devices: &mut Devices, block: &Block) -> u32
    ensures value { result ≡ value_of what devices.old block.now }
    ensures devices { devices.new ≡ after_asked (Some what) devices.old }
{
    match what {
        Asked::Device(place) => answer_word(place, devices, block),
        Asked::TimeLow => low_half(devices.time()),
        Asked::TimeHigh => high_half(devices.time()),
    }
}

// The word of a device.
fn answer_word(place: u32, devices: &mut Devices, block: &Block) -> u32
    ensures value { result ≡ value_of (device place) devices.old block.now }
    ensures devices { devices.new ≡ after_load_at (device_at place) devices.old }
{
    let word = devices.load(place, block.state());
    if Block::owns(place) {
        return block.load(place);
    }
    word
}

// Tries to take a step.
fn try_step<L: Ledger>(machine: &mut Machine, due: Due, rec: &mut StepRec, blank: Blank) -> Went
    requires room { 2 ≤ machine.old.spare }
    requires lines { IfSome due.lines AreLines }
    requires name { blank.name ≡ L.name }
    requires parts { blank.parts ≡ L.parts }
    requires one { 0 < blank.parts }
    ensures came { CameTo result rec.new (machine_of machine.old) (machine_of machine.new)
        (step machine.old.split (without_transfers due) (machine_of machine.old)) }
    ensures room { (went : result ≢ stepped) → machine.new ≡ machine.old }
    ensures size { length machine.new.memory ≡ length machine.old.memory }
    ensures split { machine.new.split ≡ machine.old.split }
{
    let mut steps: Steps<L> = Steps::none(blank);
    machine.step_into(due, &mut steps, rec)
}

// The step that asked for this is taken, with what the devices answer.
#[inline(never)]
fn step_answered(
    machine: &mut Machine,
    lines: Option<Lines>,
    what: Asked,
    devices: &mut Devices,
    block: &Block,
    rec: &mut StepRec,
) -> u32
    requires room { 2 ≤ machine.old.spare }
    requires lines { IfSome lines AreLines }
    requires asks { step machine.old.split (record { transfers = []; lines = lines; value = None })
        (machine_of machine.old) ≡ NeedsValue what }
    ensures step { StepIsTaken machine.old.split lines (machine_of machine.old) devices.old block.now
        (machine_of machine.new) rec.new devices.new (Some result) }
    ensures size { length machine.new.memory ≡ length machine.old.memory }
    ensures split { machine.new.split ≡ machine.old.split }
{
    let value = answer(what, devices, block);
    let due = Due {
        lines,
        value: Some(value),
    };
    match try_step::<Brand>(machine, due, rec, Blank::new(1)) {
        Went::Stepped => value,
        Went::NeedsValue(_) => unreachable!(),
        Went::ValueLeft => unreachable!(),
    }
}

/// Takes the step, told in the record, with what it asks the devices for, and answers that.
#[inline(always)]
pub(crate) fn take_step(
    machine: &mut Machine,
    lines: Option<Lines>,
    devices: &mut Devices,
    block: &Block,
    rec: &mut StepRec,
) -> Option<u32>
    requires room { 2 ≤ machine.old.spare }
    requires lines { IfSome lines AreLines }
    ensures step { StepIsTaken machine.old.split lines (machine_of machine.old) devices.old block.now
        (machine_of machine.new) rec.new devices.new result }
    ensures size { length machine.new.memory ≡ length machine.old.memory }
    ensures split { machine.new.split ≡ machine.old.split }
{
    let due = Due { lines, value: None };
    match try_step::<Brand>(machine, due, rec, Blank::new(1)) {
        Went::Stepped => None,
        Went::NeedsValue(what) => Some(step_answered(machine, lines, what, devices, block, rec)),
        Went::ValueLeft => unreachable!(),
    }
}

// The word that was written to a device.
#[tactic(auto, unfolding(cx_ram::specs::LittleEndian::loaded))]
fn word_of(touch: &Touch) -> u32
    ensures { result ≡ word_of touch.now }
{
    u32::from_le_bytes(touch.bytes)
}

// A write takes effect on the devices, if it was to one.
#[inline(never)]
fn store_touch(touch: Touch, pages: u32, devices: &mut Devices, block: &mut Block)
    requires { IsBusyInside (size_of_pages pages) block.old }
    ensures devices { devices.new ≡ devices_after_write (Some touch) devices.old }
    ensures block { block.new ≡ block_after_write (Some touch) pages block.old }
    ensures inside { IsBusyInside (size_of_pages pages) block.new }
{
    let value = word_of(&touch);
    devices.store(touch.pa, value);
    block.store(touch.pa, value, pages);
}

/// What a step wrote takes effect on the devices, where it wrote to one, with RAM of so many pages.
#[inline(always)]
pub(crate) fn store_word(write: Option<Touch>, pages: u32, devices: &mut Devices, block: &mut Block)
    requires { IsBusyInside (size_of_pages pages) block.old }
    ensures devices { devices.new ≡ devices_after_write write devices.old }
    ensures block { block.new ≡ block_after_write write pages block.old }
    ensures inside { IsBusyInside (size_of_pages pages) block.new }
{
    if let Some(touch) = write {
        store_touch(touch, pages, devices, block);
    }
}
