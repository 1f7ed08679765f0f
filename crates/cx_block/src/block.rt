//! The block device.

ghost use Rattle.std.specs.Prelude.{◌≡◌, ◌+◌, ◌*◌, ◌==◌, ◌≤◌, Ok, length, is_none, not, false, IsTrue, if◌then◌else◌, IfSome, ◌<◌, ◌^◌};
ghost use Rattle.cx_block.specs.Block.{IsDisk, after_store, after_store_at, block_at_reset, done, fits, is_busy, is_own};
ghost use Rattle.cx_block.specs.Block.{is_own_at};
ghost use Rattle.cx_block.specs.Block.{sectors_of, size_of, with_command, with_sectors, word_load, word_load_at};
ghost use Rattle.cx_block.specs.Sound.{IsReady};
ghost use Rattle.cx_block.specs.declared.states.TheConstants.{TO_RAM as to_ram};
ghost use Rattle.cx_csr.specs.Rules.{is_in_ram};
ghost use Rattle.cx_map.specs.Map.{size_of_pages};
ghost use Rattle.cx_walk.specs.Devices.{device_at};

use crate::disk::{MOST_AT_ONCE, SECTOR_SIZE};
use crate::states::{BUSY, DONE, FROM_RAM, IDLE, REFUSED, TO_RAM};
use cx_map::{PAGE_SIZE, RAM_START};
use cx_ram::NoMemory;
use cx_walk::DeviceWord;
use std::alloc::Global;
use std::marker::Model;

/// What a command moves, between the disk and RAM.
#[derive(Clone, Copy, Debug, PartialEq, Eq)]
pub struct Transfer {
    /// Whether sectors go to RAM; else RAM goes to sectors.
    pub to_ram: bool,
    /// The place in RAM of the first byte.
    pub place: u32,
    /// How many bytes: 512 for each sector.
    pub len: u32,
}

/// The block device with its disk.
#[derive(Debug, Drop)]
pub struct Block {
    sector: u32,
    address: u32,
    count: u32,
    command: u32,
    state: u8,
    disk: Vec<u8>,
}

impl Model for Block {
    ghost use Rattle.cx_block.specs.Block.{BlockDevice};
    ghost use Rattle.cx_block.specs.Sound.{IsBlock};

    ghost Value = { BlockDevice };

    ghost view = { λ b. record {
      sector = b.sector;
      address = b.address;
      count = b.count;
      command = b.command;
      state = b.state;
      disk = b.disk.items;
    } };

    ghost invariant = { λ b. IsBlock (record {
      sector = b.sector;
      address = b.address;
      count = b.count;
      command = b.command;
      state = b.state;
      disk = b.disk.items;
    }) };
}

impl Block {
    /// The device at reset, idle and with all words 0, with this disk. It is always given, since a disk in memory takes
    /// no more.
    pub fn new(alloc: Global, disk: Vec<u8>) -> Result<Block, NoMemory>
        requires { IsDisk disk.items }
        ensures { result ≡ Ok (block_at_reset disk.items) }
    {
        let _ = alloc;
        Ok(Block {
            sector: 0,
            address: 0,
            count: 0,
            command: 0,
            state: IDLE,
            disk,
        })
    }

    /// Whether a word of this device stands at this place.
    pub fn owns(place: u32) -> bool
        ensures { result ≡ is_own_at (device_at place) }
    {
        match DeviceWord::at(u64::from(place)) {
            Some(word) => is_own(word),
            None => false,
        }
    }

    /// What a load of the word at this place gives; 0 where no word of this device stands.
    pub fn load(&self, word: u32) -> u32
        ensures { result ≡ word_load_at (device_at word) self.now }
    {
        match DeviceWord::at(u64::from(word)) {
            Some(word) => self.load_word(word),
            None => 0,
        }
    }

    // The same of a word.
    fn load_word(&self, word: DeviceWord) -> u32
        ensures { result ≡ word_load word self.now }
    {
        match word {
            DeviceWord::BlockSector => self.sector,
            DeviceWord::BlockAddress => self.address,
            DeviceWord::BlockCount => self.count,
            DeviceWord::BlockCommand => self.command,
            DeviceWord::BlockState => u32::from(self.state),
            _ => 0,
        }
    }

    /// Stores a value to the word at this place, where RAM has so many pages. A busy device takes none. A command that
    /// can be done makes it busy, any other is refused. A store to the word of the state makes it idle. Where no word
    /// of this device stands, nothing changes.
    pub fn store(&mut self, word: u32, value: u32, pages: u32)
        ensures { self.new ≡ after_store_at (device_at word) pages value self.old }
    {
        if let Some(word) = DeviceWord::at(u64::from(word)) {
            self.store_word(word, value, pages);
        }
    }

    // The same of a word.
    fn store_word(&mut self, word: DeviceWord, value: u32, pages: u32)
        ensures { self.new ≡ after_store word pages value self.old }
    {
        if self.state == BUSY {
            return;
        }
        match word {
            DeviceWord::BlockSector => self.sector = value,
            DeviceWord::BlockAddress => self.address = value,
            DeviceWord::BlockCount => self.count = value,
            DeviceWord::BlockCommand => self.begin(value, pages),
            DeviceWord::BlockState => self.state = IDLE,
            _ => {}
        }
    }

    // Begins a command, or refuses it.
    fn begin(&mut self, command: u32, pages: u32)
        requires { is_busy self.old ≡ false }
        ensures { self.new ≡ with_command pages command self.old }
    {
        let fits = self.fits(command, pages);
        self.command = command;
        self.state = if fits { BUSY } else { REFUSED };
    }

    // Whether a command can be done.
    #[tactic(auto, unfolding(crate::specs::Block::fits))]
    fn fits(&self, command: u32, pages: u32) -> bool
        ensures test { result ≡ fits pages command self.now }
        ensures ready { IsTrue result → IsReady self.now.sector self.now.count (length self.now.disk) }
    {
        let end = size_of_sectors(self.sector, self.count);
        let size = size_of_sectors(0, self.count);
        (command == TO_RAM || command == FROM_RAM)
            && (1 <= self.count && self.count <= MOST_AT_ONCE)
            && end <= self.disk.len() as u64
            && self.address % SECTOR_SIZE as u32 == 0
            && is_in_ram(pages, self.address, size)
    }

    /// Completes the command of a busy device, and says what is to be moved; None exactly where it isn't busy, and
    /// nothing changes then.
    pub fn complete(&mut self) -> Option<Transfer>
        ensures busy { is_none result ≡ not (is_busy self.old) }
        ensures after { self.new ≡ (if is_busy self.old then done self.old else self.old) }
        ensures moves { IfSome result (λ t. t ≡ record {
          to_ram = self.old.command == to_ram;
          place = self.old.address;
          len = size_of self.old;
        }) }
        ensures ready { IfSome result (λ t. IsReady self.new.sector self.new.count (length self.new.disk)) }
    {
        if self.state != BUSY {
            return None;
        }
        self.state = DONE;
        Some(Transfer {
            to_ram: self.command == TO_RAM,
            place: self.address,
            len: SECTOR_SIZE as u32 * self.count,
        })
    }

    /// Copies the sectors of the command from the disk.
    pub fn sectors_into(&self, into: &mut [u8])
        requires ready { IsReady self.now.sector self.now.count (length self.now.disk) }
        requires size { length into.old ≡ size_of self.now }
        ensures { into.new ≡ sectors_of self.now }
    {
        let start = SECTOR_SIZE * self.sector as usize;
        let end = start + into.len();
        into.copy_from_slice(&self.disk[start..end]);
    }

    /// Copies bytes to the sectors of the command.
    #[tactic(auto, unfolding(cx_ram::specs::LittleEndian::written))]
    pub fn sectors_from(&mut self, bytes: &[u8])
        requires ready { IsReady self.old.sector self.old.count (length self.old.disk) }
        requires size { length bytes.now ≡ size_of self.old }
        ensures { self.new ≡ with_sectors bytes.now self.old }
    {
        let start = SECTOR_SIZE * self.sector as usize;
        let end = start + bytes.len();
        self.disk[start..end].copy_from_slice(bytes);
    }

    /// What became of the last command: 0 nothing yet, 1 it isn't done yet, 2 it was done, 3 it was refused.
    pub fn state(&self) -> u8
        ensures { result ≡ self.now.state }
    {
        self.state
    }
}

// How many bytes two numbers of sectors have together.
fn size_of_sectors(first: u32, second: u32) -> u64
    ensures { result ≡ SECTOR_SIZE * (first + second) }
{
    SECTOR_SIZE as u64 * (u64::from(first) + u64::from(second))
}

// Whether a word is one of this device.
fn is_own(word: DeviceWord) -> bool
    ensures { result ≡ is_own word }
{
    matches!(
        word,
        DeviceWord::BlockSector
            | DeviceWord::BlockAddress
            | DeviceWord::BlockCount
            | DeviceWord::BlockCommand
            | DeviceWord::BlockState
    )
}

// Whether bytes lie in RAM of so many pages.
fn is_in_ram(pages: u32, place: u32, size: u64) -> bool
    requires { size < 2 ^ 60 }
    ensures { result ≡ is_in_ram (size_of_pages pages) place size }
{
    let (start, place) = (u64::from(RAM_START), u64::from(place));
    start <= place && place + size <= start + u64::from(pages) * PAGE_SIZE as u64
}
