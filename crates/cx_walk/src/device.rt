//! The words of the devices.

ghost use Rattle.std.specs.Prelude.{◌≡◌, IfSome};
ghost use Rattle.cx_walk.specs.Devices.{device_at, device_place};

/// A word of the devices, which only loads and stores of a whole word reach.
#[derive(Clone, Copy, Debug, PartialEq, Eq)]
pub enum DeviceWord {
    /// Any store turns the machine off.
    Power,
    /// The software interrupt of machine mode.
    SoftwareInterrupt,
    /// The low half of the time from which on the timer interrupt of machine mode is up.
    TimeCompareLow,
    /// The high half of that time.
    TimeCompareHigh,
    /// The low half of the clock.
    TimeLow,
    /// The high half of the clock.
    TimeHigh,
    /// Which devices interrupt machine mode.
    MachineInterruptMask,
    /// Which devices interrupt supervisor mode.
    SupervisorInterruptMask,
    /// Which devices ask for an interrupt.
    InterruptPending,
    /// The byte that arrived at the console, and the byte that goes out.
    ConsoleData,
    /// Whether a byte arrived at the console.
    ConsoleState,
    /// The first sector of a command to the block device.
    BlockSector,
    /// The place in RAM of such a command.
    BlockAddress,
    /// How many sectors such a command moves.
    BlockCount,
    /// The command itself.
    BlockCommand,
    /// What became of the command.
    BlockState,
}

impl DeviceWord {
    /// The word of the devices at a place, where there is one.
    #[tactic(auto, unfolding(crate::specs::Devices::device_at))]
    pub fn at(place: u64) -> Option<DeviceWord>
        ensures found { result ≡ device_at place }
        ensures place { IfSome result (λ word. device_place word ≡ place) }
    {
        Some(match place {
            0x0010_0000 => DeviceWord::Power,
            0x0200_0000 => DeviceWord::SoftwareInterrupt,
            0x0200_4000 => DeviceWord::TimeCompareLow,
            0x0200_4004 => DeviceWord::TimeCompareHigh,
            0x0200_bff8 => DeviceWord::TimeLow,
            0x0200_bffc => DeviceWord::TimeHigh,
            0x0c00_0000 => DeviceWord::MachineInterruptMask,
            0x0c00_0004 => DeviceWord::SupervisorInterruptMask,
            0x0c00_0008 => DeviceWord::InterruptPending,
            0x1000_0000 => DeviceWord::ConsoleData,
            0x1000_0004 => DeviceWord::ConsoleState,
            0x1000_1000 => DeviceWord::BlockSector,
            0x1000_1004 => DeviceWord::BlockAddress,
            0x1000_1008 => DeviceWord::BlockCount,
            0x1000_100c => DeviceWord::BlockCommand,
            0x1000_1010 => DeviceWord::BlockState,
            _ => return None,
        })
    }

    /// The place of the word.
    pub fn place(self) -> u32
        ensures { result ≡ device_place self }
    {
        match self {
            DeviceWord::Power => 0x0010_0000,
            DeviceWord::SoftwareInterrupt => 0x0200_0000,
            DeviceWord::TimeCompareLow => 0x0200_4000,
            DeviceWord::TimeCompareHigh => 0x0200_4004,
            DeviceWord::TimeLow => 0x0200_bff8,
            DeviceWord::TimeHigh => 0x0200_bffc,
            DeviceWord::MachineInterruptMask => 0x0c00_0000,
            DeviceWord::SupervisorInterruptMask => 0x0c00_0004,
            DeviceWord::InterruptPending => 0x0c00_0008,
            DeviceWord::ConsoleData => 0x1000_0000,
            DeviceWord::ConsoleState => 0x1000_0004,
            DeviceWord::BlockSector => 0x1000_1000,
            DeviceWord::BlockAddress => 0x1000_1004,
            DeviceWord::BlockCount => 0x1000_1008,
            DeviceWord::BlockCommand => 0x1000_100c,
            DeviceWord::BlockState => 0x1000_1010,
        }
    }
}
