//! The rules of the words of a state.

ghost use Rattle.std.specs.Prelude.{◌≡◌, ◌<◌, IsTrue, ◌↔◌};
ghost use Rattle.cx_csr.specs.Rules.{Admits, admits, rule_at};

use crate::causes::DELEGABLE_EXCEPTIONS;
use crate::fields::{COUNTEREN_FIELDS, TVEC_FIELDS};
use crate::interrupts::{ALL_INTERRUPTS, LINE_INTERRUPTS, SUPERVISOR_INTERRUPTS};
use crate::modes::{MACHINE, RESERVED_MODE};
use crate::status::{MPP_FIELD, MPP_RESERVED, MSTATUS_FIELDS};
use cx_map::{PAGE_SIZE, is_in_ram};

/// What a word of a state may be.
#[derive(Clone, Copy, PartialEq, Eq, Debug)]
pub enum Rule {
    /// Any word.
    Any,
    /// A multiple of 4.
    Aligned,
    /// A word with no bit outside the mask.
    Within(u32),
    /// A privilege mode: 0, 1 or 3.
    Mode,
    /// A value of `mstatus`: its bits alone, and a mode as MPP.
    Status,
    /// 0 or 1: whether a reservation stands.
    Flag,
    /// The place of the reservation, judged against the flag before it.
    Place,
}

/// The rules of the 58 words, in order.
static RULES: [Rule; 58] = [
    // pc, and the registers from 1 on
    Rule::Aligned,
    Rule::Any,
    Rule::Any,
    Rule::Any,
    Rule::Any,
    Rule::Any,
    Rule::Any,
    Rule::Any,
    Rule::Any,
    Rule::Any,
    Rule::Any,
    Rule::Any,
    Rule::Any,
    Rule::Any,
    Rule::Any,
    Rule::Any,
    Rule::Any,
    Rule::Any,
    Rule::Any,
    Rule::Any,
    Rule::Any,
    Rule::Any,
    Rule::Any,
    Rule::Any,
    Rule::Any,
    Rule::Any,
    Rule::Any,
    Rule::Any,
    Rule::Any,
    Rule::Any,
    Rule::Any,
    Rule::Any,
    // mode, mstatus, medeleg, mideleg, mie, mip
    Rule::Mode,
    Rule::Status,
    Rule::Within(DELEGABLE_EXCEPTIONS),
    Rule::Within(SUPERVISOR_INTERRUPTS),
    Rule::Within(ALL_INTERRUPTS),
    Rule::Within(SUPERVISOR_INTERRUPTS),
    // mtvec, mcounteren, mscratch, mepc, mcause, mtval
    Rule::Within(TVEC_FIELDS),
    Rule::Within(COUNTEREN_FIELDS),
    Rule::Any,
    Rule::Aligned,
    Rule::Any,
    Rule::Any,
    // stvec, scounteren, sscratch, sepc, scause, stval
    Rule::Within(TVEC_FIELDS),
    Rule::Within(COUNTEREN_FIELDS),
    Rule::Any,
    Rule::Aligned,
    Rule::Any,
    Rule::Any,
    // satp, and the halves of mcycle and minstret
    Rule::Any,
    Rule::Any,
    Rule::Any,
    Rule::Any,
    Rule::Any,
    // the reservation and the lines
    Rule::Flag,
    Rule::Place,
    Rule::Within(LINE_INTERRUPTS),
];

impl Rule {
    /// The rule of the word at this index.
    pub fn of(index: u8) -> Rule
        requires { index < 58 }
        ensures { result ≡ rule_at index }
    {
        RULES[index as usize]
    }

    /// Whether the word obeys this rule, for RAM of so many pages; `before` is the word in front of it.
    pub fn admits(self, word: u32, before: u32, pages: u32) -> bool
        ensures rule { IsTrue result ↔ Admits pages before self word }
        ensures test { result ≡ admits pages before self word }
    {
        match self {
            Rule::Any => true,
            Rule::Aligned => word % 4 == 0,
            Rule::Within(mask) => word & mask == word,
            Rule::Mode => word <= MACHINE as u32 && word != RESERVED_MODE as u32,
            Rule::Status => word & MSTATUS_FIELDS == word && word & MPP_FIELD != MPP_RESERVED,
            Rule::Flag => word <= 1,
            Rule::Place => admits_place(word, before, pages),
        }
    }
}

/// Whether the word may be the place of the reservation behind this flag: 0 behind 0, else an aligned word of RAM.
fn admits_place(word: u32, flag: u32, pages: u32) -> bool
    ensures rule { IsTrue result ↔ Admits pages flag Rule.Place word }
    ensures test { result ≡ admits pages flag Rule.Place word }
{
    if flag == 0 {
        return word == 0;
    }
    word % 4 == 0 && is_in_ram(pages as usize * PAGE_SIZE, word, 4)
}
