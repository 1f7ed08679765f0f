//! A state as 58 words, and back.

ghost use Rattle.std.specs.Prelude.{◌≡◌, ℕ, ◌+◌, ◌*◌, ◌%◌, ◌/◌, ◌^◌, ◌<◌, ◌≤◌, [], ◌∷◌, ◌++◌, IsTrue, ◌↔◌, take, drop};
ghost use Rattle.std.specs.Prelude.{slice_index, IfOk, IfErr, IfSome, Ok, MatchOption};
ghost use Rattle.cx_csr.specs.declared.state.State.{State};
ghost use Rattle.cx_csr.specs.Keeps.{Keeps};
ghost use Rattle.cx_csr.specs.Rules.{Admits, admits, AllFit, IsFirstBad, rule_at};
ghost use Rattle.cx_csr.specs.Words.{csr_of, csr_words, reservation_of, rest_words, state_of, words_of};

use crate::bits::{high_half, joined, low_half};
use crate::lines::Lines;
use crate::rules::Rule;
use crate::state::{CsrFile, State};

impl State {
    /// The 58 words of this state: pc, x1 to x31, the mode, the control registers, the reservation and the lines.
    #[tactic(auto, unfolding(crate::specs::Words::words_of))]
    pub fn to_words(&self) -> [u32; 58]
        ensures { result ≡ words_of self.now }
    {
        let mut words = [0; 58];
        words[32..].copy_from_slice(&rest_to_words(self));
        words[1..32].copy_from_slice(&self.x[1..]);
        words[0] = self.pc;
        words
    }

    /// Whether a word may stand at this index, for RAM of `pages` pages; `before` is the word in front of it, which
    /// alone the place of the reservation is judged by.
    pub fn word_fits(index: u8, word: u32, before: u32, pages: u32) -> bool
        requires { index < 58 }
        ensures rule { IsTrue result ↔ Admits pages before (rule_at index) word }
        ensures test { result ≡ admits pages before (rule_at index) word }
    {
        Rule::of(index).admits(word, before, pages)
    }

    /// The state that has these words. `Err(i)` where word i is the first that breaks its rule for RAM of `pages`
    /// pages.
    pub fn from_words(words: &[u32; 58], pages: u32) -> Result<State, u8>
        ensures bad { IfErr result (IsFirstBad pages words.now) }
        ensures good { IfOk result (λ s. Keeps pages s × (words_of s ≡ words.now)) }
        ensures state { IfOk result (λ s. s ≡ state_of words.now) }
        ensures back { (s : State) → Keeps pages s → words_of s ≡ words.now → result ≡ Ok s }
    {
        match first_bad(words, pages) {
            Some(index) => Err(index),
            None => Ok(State::from_fitting_words(words, pages)),
        }
    }

    /// The state that has these words, which all obey their rules for RAM of `pages` pages.
    pub fn from_fitting_words(words: &[u32; 58], pages: u32) -> State
        requires { AllFit pages words.now }
        ensures state { result ≡ state_of words.now }
        ensures keeps { Keeps pages result }
        ensures words { words_of result ≡ words.now }
    {
        made(words)
    }
}

/// The first word that breaks its rule.
fn first_bad(words: &[u32; 58], pages: u32) -> Option<u8>
    ensures { MatchOption result (AllFit pages words.now) (IsFirstBad pages words.now) }
{
    for index in 0..58u8 {
        let place = index as usize;
        if !State::word_fits(index, words[place], words[place.saturating_sub(1)], pages) {
            return Some(index);
        }
    }
    None
}

/// The state that these words stand for, whose mode is one.
#[tactic(auto, unfolding(crate::specs::Words::state_of))]
fn made(words: &[u32; 58]) -> State
    requires { slice_index words.now 32 ≤ 3 }
    ensures { result ≡ state_of words.now }
{
    let mut x = [0; 32];
    x[1..].copy_from_slice(&words[1..32]);
    State {
        pc: words[0],
        x,
        mode: words[32] as u8,
        csr: csr_from_words(words),
        reservation: reservation_from_words(words[55], words[56]),
        lines: Lines(words[57]),
    }
}

/// The control registers among the words of a state.
fn csr_from_words(words: &[u32; 58]) -> CsrFile
    ensures { result ≡ csr_of words.now }
{
    CsrFile {
        mstatus: words[33],
        medeleg: words[34],
        mideleg: words[35],
        mie: words[36],
        mip: words[37],
        mtvec: words[38],
        mcounteren: words[39],
        mscratch: words[40],
        mepc: words[41],
        mcause: words[42],
        mtval: words[43],
        stvec: words[44],
        scounteren: words[45],
        sscratch: words[46],
        sepc: words[47],
        scause: words[48],
        stval: words[49],
        satp: words[50],
        mcycle: joined(words[51], words[52]),
        minstret: joined(words[53], words[54]),
    }
}

/// The reservation that its flag and its place stand for.
fn reservation_from_words(flag: u32, place: u32) -> Option<u32>
    ensures { result ≡ reservation_of flag place }
{
    if flag == 0 {
        return None;
    }
    Some(place)
}

/// The words of a state from the mode on.
fn rest_to_words(state: &State) -> [u32; 26]
    ensures { result ≡ rest_words state.now }
{
    match state.reservation {
        None => rest_behind(state, 0, 0),
        Some(place) => rest_behind(state, 1, place),
    }
}

/// The words of a state from the mode on, with these words of the reservation.
fn rest_behind(state: &State, flag: u32, place: u32) -> [u32; 26]
    ensures { result ≡ (state.now.mode ∷ csr_words state.now.csr) ++ flag ∷ place ∷ state.now.lines.0 ∷ [] }
{
    let csr = &state.csr;
    [
        state.mode as u32,
        csr.mstatus,
        csr.medeleg,
        csr.mideleg,
        csr.mie,
        csr.mip,
        csr.mtvec,
        csr.mcounteren,
        csr.mscratch,
        csr.mepc,
        csr.mcause,
        csr.mtval,
        csr.stvec,
        csr.scounteren,
        csr.sscratch,
        csr.sepc,
        csr.scause,
        csr.stval,
        csr.satp,
        low_half(csr.mcycle),
        high_half(csr.mcycle),
        low_half(csr.minstret),
        high_half(csr.minstret),
        flag,
        place,
        state.lines.0,
    ]
}
