//! The states of the block device, and its commands, as the numbers that a program sees.

/// It was given no command, or what became of the last was taken note of.
pub const IDLE: u8 = 0;
/// It has a command that isn't done yet.
pub const BUSY: u8 = 1;
/// It has done its command.
pub const DONE: u8 = 2;
/// It has refused its command, which can't be done.
pub const REFUSED: u8 = 3;

/// The command that moves sectors of the disk to RAM.
pub const TO_RAM: u32 = 1;
/// The command that moves bytes of RAM to sectors of the disk.
pub const FROM_RAM: u32 = 2;
