//! The timer, the console, the interrupt controller and the power switch.

ghost use Rattle.std.specs.Prelude.{◌≡◌, ◌<◌, Some, if◌then◌else◌, is_none};
ghost use Rattle.cx_csr.specs.Rules.{IsWithin};
ghost use Rattle.cx_csr.specs.declared.interrupts.TheConstants.{LINE_INTERRUPTS};
ghost use Rattle.cx_devices.specs.Devices.{after_load, after_load_at, after_store, after_store_at, after_ticks};
ghost use Rattle.cx_devices.specs.Devices.{at_reset, bit_where, lines_of, pending, word_load, word_load_at};
ghost use Rattle.cx_walk.specs.Devices.{device_at};

use cx_block::states::{DONE, REFUSED};
use cx_csr::interrupts::{MEI, MSI, MTI, SEI};
use cx_csr::{Lines, high_half, joined, low_half};
use cx_walk::DeviceWord;

/// The timer, the console, the interrupt controller and the power switch between two steps of the hart.
#[derive(Clone, Copy, Debug, PartialEq, Eq)]
pub struct Devices {
    clock: u64,
    compare: u64,
    software: u32,
    machine_mask: u32,
    supervisor_mask: u32,
    slot: Option<u8>,
    off: bool,
}

impl Devices {
    /// The devices at reset: all is 0, but that the timer compares with 2^64 - 1.
    pub fn new() -> Devices
        ensures { result ≡ at_reset }
    {
        Devices {
            clock: 0,
            compare: u64::MAX,
            software: 0,
            machine_mask: 0,
            supervisor_mask: 0,
            slot: None,
            off: false,
        }
    }

    /// The clock goes on by so many ticks, and begins again behind 2^64 - 1.
    pub fn pass(&mut self, ticks: u32)
        ensures { self.new ≡ after_ticks ticks self.old }
    {
        self.clock = self.clock.wrapping_add(u64::from(ticks));
    }

    /// A byte comes to the console. It is taken exactly where the slot is empty, which the answer tells.
    pub fn arrive(&mut self, byte: u8) -> bool
        ensures taken { result ≡ is_none self.old.slot }
        ensures slot { self.new ≡ (if is_none self.old.slot then record self.old { slot = Some byte } else self.old) }
    {
        if self.slot.is_some() {
            return false;
        }
        self.slot = Some(byte);
        true
    }

    // Which devices ask for an interrupt: bit 0 the console, bit 1 the block device, which is in this state.
    fn pending(&self, block_state: u8) -> u32
        ensures { result ≡ pending self.now block_state }
    {
        let console = u32::from(self.slot.is_some());
        let block = if block_state == DONE || block_state == REFUSED {
            2
        } else {
            0
        };
        console + block
    }

    /// The interrupt lines that are up, where the block device is in this state.
    pub fn mask(&self, block_state: u8) -> Lines
        ensures lines { result ≡ lines_of self.now block_state }
        ensures within { IsWithin LINE_INTERRUPTS result.0 }
    {
        let pending = self.pending(block_state);
        Lines(
            bit_where(self.software == 1, MSI)
                + bit_where(self.compare <= self.clock, MTI)
                + bit_where(pending & self.supervisor_mask != 0, SEI)
                + bit_where(pending & self.machine_mask != 0, MEI),
        )
    }

    /// What a load of the word at this place gives, where the block device is in this state. A load of the console's
    /// byte empties the slot. Where no word of these devices stands, it gives 0 and changes nothing.
    pub fn load(&mut self, word: u32, block_state: u8) -> u32
        ensures value { result ≡ word_load_at (device_at word) self.old block_state }
        ensures after { self.new ≡ after_load_at (device_at word) self.old }
    {
        match DeviceWord::at(u64::from(word)) {
            Some(word) => self.load_word(word, block_state),
            None => 0,
        }
    }

    // The same of a word.
    fn load_word(&mut self, word: DeviceWord, block_state: u8) -> u32
        ensures value { result ≡ word_load word self.old block_state }
        ensures after { self.new ≡ after_load word self.old }
    {
        match word {
            DeviceWord::SoftwareInterrupt => self.software,
            DeviceWord::TimeCompareLow => low_half(self.compare),
            DeviceWord::TimeCompareHigh => high_half(self.compare),
            DeviceWord::TimeLow => low_half(self.clock),
            DeviceWord::TimeHigh => high_half(self.clock),
            DeviceWord::MachineInterruptMask => self.machine_mask,
            DeviceWord::SupervisorInterruptMask => self.supervisor_mask,
            DeviceWord::InterruptPending => self.pending(block_state),
            DeviceWord::ConsoleData => u32::from(self.slot.take().unwrap_or(0)),
            DeviceWord::ConsoleState => u32::from(self.slot.is_some()),
            _ => 0,
        }
    }

    /// Stores a value to the word at this place. Where no word of these devices stands, nothing changes.
    pub fn store(&mut self, word: u32, value: u32)
        ensures { self.new ≡ after_store_at (device_at word) value self.old }
    {
        if let Some(word) = DeviceWord::at(u64::from(word)) {
            self.store_word(word, value);
        }
    }

    // The same of a word.
    fn store_word(&mut self, word: DeviceWord, value: u32)
        ensures { self.new ≡ after_store word value self.old }
    {
        match word {
            DeviceWord::Power => self.off = true,
            DeviceWord::SoftwareInterrupt => self.software = value % 2,
            DeviceWord::TimeCompareLow => self.compare = joined(value, high_half(self.compare)),
            DeviceWord::TimeCompareHigh => self.compare = joined(low_half(self.compare), value),
            DeviceWord::MachineInterruptMask => self.machine_mask = value % 4,
            DeviceWord::SupervisorInterruptMask => self.supervisor_mask = value % 4,
            _ => {}
        }
    }

    /// The clock.
    pub fn time(&self) -> u64
        ensures { result ≡ self.now.clock }
    {
        self.clock
    }

    /// Whether a store to the power switch has turned the machine off.
    pub fn off(&self) -> bool
        ensures { result ≡ self.now.off }
    {
        self.off
    }
}

// The bit of this number where the test holds, else no bit.
fn bit_where(test: bool, bit: u32) -> u32
    requires { bit < 32 }
    ensures { result ≡ bit_where test bit }
{
    if test { 1 << bit } else { 0 }
}
