//! RAM of five pages, and a state to translate in.

ghost use Rattle.std.specs.Prelude.{◌≡◌, ◌+◌, ◌^◌, ◌≤◌, OnSome, length};
ghost use Rattle.cx_walk.specs.Bytes.{ram_bytes, word_in};

use cx_csr::fields::SATP_MODE;
use cx_csr::{CsrFile, Lines, State};
use cx_map::{PAGE_SIZE, RAM_START};
use cx_walk::{Kind, Walk, Words, translate};
use std::process::Abort;

/// How many pages RAM has here.
const PAGES: u32 = 5;

/// How many bytes they have.
const SIZE: usize = PAGES as usize * PAGE_SIZE;

/// Five pages of RAM.
#[derive(Drop)]
pub struct FivePages {
    bytes: [u8; SIZE],
}

impl Words for FivePages {
    ghost pages = { λ memory. 5 };

    ghost bytes = { λ memory. ram_bytes memory.bytes };

    fn pages(&self) -> u32 {
        PAGES
    }

    fn word(&self, pa: u64) -> Option<u32> {
        word_of(&self.bytes, pa)
    }
}

#[tactic(auto, using(crate::proofs::RamWords::word_at, crate::proofs::RamWords::word_before, crate::proofs::RamWords::word_past))]
fn word_of(ram: &[u8], pa: u64) -> Option<u32>
    requires { length ram.now ≤ 2 ^ 31 }
    ensures word { result ≡ word_in (ram_bytes ram.now) pa }
    ensures below { OnSome result (pa + 4 ≤ 2 ^ 32) }
{
    if pa < RAM_START as u64 {
        return None;
    }
    let at = (pa - RAM_START as u64) as usize;
    if ram.len() < 4 || ram.len() - 4 < at {
        return None;
    }
    Some(u32::from_le_bytes([ram[at], ram[at + 1], ram[at + 2], ram[at + 3]]))
}

// RAM with these words.
pub fn memory(words: &[(u32, u32)]) -> FivePages {
    let mut bytes = [0; SIZE];
    for (place, word) in words {
        put(&mut bytes, *place, *word);
    }
    FivePages { bytes }
}

fn put(ram: &mut [u8], place: u32, word: u32) {
    let at = place.wrapping_sub(RAM_START) as usize;
    if let Some(bytes) = ram.get_mut(at..at.saturating_add(4)) {
        bytes.copy_from_slice(&word.to_le_bytes());
    }
}

// A state of this mode, whose root table is the first page of RAM.
pub fn state_in(mode: u8, mstatus: u32) -> State {
    let csr = CsrFile {
        mstatus,
        medeleg: 0,
        mideleg: 0,
        mie: 0,
        mip: 0,
        mtvec: 0,
        mcounteren: 0,
        mscratch: 0,
        mepc: 0,
        mcause: 0,
        mtval: 0,
        stvec: 0,
        scounteren: 0,
        sscratch: 0,
        sepc: 0,
        scause: 0,
        stval: 0,
        satp: 1 << SATP_MODE | RAM_START / PAGE_SIZE as u32,
        mcycle: 0,
        minstret: 0,
    };
    State {
        pc: 0,
        x: [0; 32],
        mode,
        csr,
        reservation: None,
        lines: Lines(0),
    }
}

pub fn walked(
    rt: &impl Abort,
    view: &FivePages,
    state: &State,
    kind: Kind,
    va: u32,
    len: u8,
) -> Walk {
    assert!(rt; len == 1 || len == 2 || len == 4);
    assert!(rt; va % len as u32 == 0);
    translate(view, state, kind, va, len)
}
