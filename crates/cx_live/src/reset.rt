//! The hart at reset.

ghost use Rattle.std.specs.Prelude.{◌≡◌, ◌^◌, ◌<◌, All, replicate};
ghost use Rattle.cx_csr.specs.Keeps.{Keeps, KeepsCsr};
ghost use Rattle.cx_live.specs.Run.{reset_state};

use cx_csr::modes::MACHINE;
use cx_csr::{CsrFile, Lines, State};
use cx_map::RAM_START;

// The registers at reset.
fn registers() -> [u32; 32]
    ensures zeros { result ≡ replicate 32 0 }
    ensures wide { All (λ v. v < 2 ^ 32) result }
{
    [0; 32]
}

// The control and status registers at reset.
#[tactic(auto, unfolding(cx_csr::specs::Words::state_of))]
fn control() -> CsrFile
    ensures zeros { result ≡ reset_state.csr }
    ensures keeps { KeepsCsr result }
{
    CsrFile {
        mstatus: 0,
        medeleg: 0,
        mideleg: 0,
        mie: 0,
        mip: 0,
        mtvec: 0,
        mcounteren: 0,
        mscratch: 0,
        mepc: 0,
        mcause: 0,
        mtval: 0,
        stvec: 0,
        scounteren: 0,
        sscratch: 0,
        sepc: 0,
        scause: 0,
        stval: 0,
        satp: 0,
        mcycle: 0,
        minstret: 0,
    }
}

/// The state at reset: machine mode at the first place of RAM; all else is 0. It keeps the rules for RAM of any size.
#[tactic(auto, unfolding(cx_csr::specs::Words::state_of))]
pub(crate) fn reset_state(pages: u32) -> State
    ensures is { result ≡ reset_state }
    ensures keeps { Keeps pages result }
{
    let _ = pages;
    State {
        pc: RAM_START,
        x: registers(),
        mode: MACHINE,
        csr: control(),
        reservation: None,
        lines: Lines(0),
    }
}
