//! The modes in which the course is taken.

ghost use Rattle.std.specs.Prelude.{◌≡◌, ◌%◌, ◌^◌, ◌<◌, ◌≤◌, length, slice_index, All};
ghost use Rattle.cx_csr.specs.Keeps.{Keeps, KeepsCsr};
ghost use Rattle.cx_csr.specs.Rules.{IsMode};

use crate::setting::{CODE, HANDLER_START, MIX, SATP};
use cx_csr::{CsrFile, Lines, State};

/// A mode in which the course is taken.
#[derive(Clone, Copy, Debug, PartialEq, Eq)]
pub enum Mode {
    /// Machine mode, in which no address is translated.
    Machine,
    /// User mode, behind page tables of two levels.
    User,
    /// User mode, with a code that is nearer to a program, and with calls of the environment.
    Mix,
    /// Machine mode, of which no record is made.
    MachineUntold,
    /// User mode, of which no record is made.
    UserUntold,
}

impl Mode {
    /// The mode of this name.
    pub fn named(name: &str) -> Option<Mode> {
        match name {
            "machine" => Some(Mode::Machine),
            "user" => Some(Mode::User),
            "mix" => Some(Mode::Mix),
            "machine-untold" => Some(Mode::MachineUntold),
            "user-untold" => Some(Mode::UserUntold),
            _ => None,
        }
    }

    /// Its name.
    pub fn name(self) -> &'static str {
        match self {
            Mode::Machine => "machine",
            Mode::User => "user",
            Mode::Mix => "mix",
            Mode::MachineUntold => "machine-untold",
            Mode::UserUntold => "user-untold",
        }
    }

    /// Whether its steps are told in a record.
    pub fn is_told(self) -> bool {
        !matches!(self, Mode::MachineUntold | Mode::UserUntold)
    }

    /// What it does.
    pub fn code(self) -> &'static [u32]
        ensures { length result.now ≤ 64 }
    {
        match self {
            Mode::Mix => &MIX,
            _ => &CODE,
        }
    }

    /// The state in which the hart begins: at the code, with the address of the data in x1.
    pub fn start(self) -> State
        ensures { Keeps 4 result }
    {
        match self {
            Mode::Machine | Mode::MachineUntold => state_at(
                0x8000_0000,
                registers(0x8000_1000),
                3,
                0,
            ),
            Mode::User | Mode::UserUntold | Mode::Mix => state_at(
                0x0040_0000,
                registers(0x0040_1000),
                0,
                SATP,
            ),
        }
    }
}

/// Registers that are all 0, but for x1.
fn registers(data: u32) -> [u32; 32]
    ensures zero_register { slice_index result 0 ≡ 0 }
    ensures count { length result ≡ 32 }
    ensures wide { All (λ v. v < 2 ^ 32) result }
{
    let mut x = [0; 32];
    x[1] = data;
    x
}

/// Control registers that are all 0, but for `satp` and the place of the code that answers calls.
fn control(satp: u32) -> CsrFile
    ensures { KeepsCsr result }
{
    CsrFile {
        mstatus: 0,
        medeleg: 0,
        mideleg: 0,
        mie: 0,
        mip: 0,
        mtvec: HANDLER_START,
        mcounteren: 0,
        mscratch: 0,
        mepc: 0,
        mcause: 0,
        mtval: 0,
        stvec: 0,
        scounteren: 0,
        sscratch: 0,
        sepc: 0,
        scause: 0,
        stval: 0,
        satp,
        mcycle: 0,
        minstret: 0,
    }
}

/// The state of a hart with these registers.
fn state_at(pc: u32, x: [u32; 32], mode: u8, satp: u32) -> State
    requires pc { pc % 4 ≡ 0 }
    requires zero_register { slice_index x 0 ≡ 0 }
    requires count { length x ≡ 32 }
    requires wide { All (λ v. v < 2 ^ 32) x }
    requires mode { IsMode mode }
    ensures { Keeps 4 result }
{
    State {
        pc,
        x,
        mode,
        csr: control(satp),
        reservation: None,
        lines: Lines(0),
    }
}
