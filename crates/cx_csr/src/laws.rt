//! What holds of every state and of its words.

ghost use Rattle.std.specs.Prelude.{◌≡◌, ℕ, ◌^◌, ◌<◌, ◌≤◌, List, length, All, Ok, IsTrue, ◌↔◌, ◌||◌, true, false};
ghost use Rattle.cx_csr.specs.declared.state.State.{State};
ghost use Rattle.cx_csr.specs.Access.{csr_read, is_illegal, is_read_only, modify_base, written_at, IsWordAnswer};
ghost use Rattle.cx_csr.specs.Keeps.{Keeps};
ghost use Rattle.cx_csr.specs.Words.{state_of};
ghost use Rattle.cx_csr.specs.Rules.{AllFit, Admits, admits};
ghost use Rattle.cx_csr.specs.declared.rules.Rule.{Rule};
ghost use Rattle.cx_csr.specs.Table.{register_at};
ghost use Rattle.cx_csr.specs.Words.{state_of, words_of};

use crate::access::Csr;
use crate::state::State;
use cx_map::MOST_PAGES;

/// Two states that keep the rules and have the same words are equal.
pub fn words_determine_the_state()
    ensures { (p q : ℕ) (s t : State) → Keeps p s → Keeps q t → words_of s ≡ words_of t → s ≡ t }
{}

/// A state that keeps the rules has 58 words of 32 bits, and each obeys its rule.
pub fn words_fit()
    ensures fit { (pages : ℕ) (s : State) → Keeps pages s → AllFit pages (words_of s) }
    ensures count { (pages : ℕ) (s : State) → Keeps pages s → length (words_of s) ≡ 58 }
    ensures wide { (pages : ℕ) (s : State) → pages ≤ MOST_PAGES → Keeps pages s → All (λ w. w < 2 ^ 32) (words_of s) }
{}

/// 58 words of 32 bits that all obey their rules are the words of a state that keeps the rules.
pub fn fitting_words_are_a_state()
    ensures keeps { (pages : ℕ) (words : List ℕ) → length words ≡ 58 → All (λ w. w < 2 ^ 32) words → AllFit pages words
        → Keeps pages (state_of words) }
    ensures words { (pages : ℕ) (words : List ℕ) → length words ≡ 58 → AllFit pages words
        → words_of (state_of words) ≡ words }
{}

/// The words of a state that keeps the rules read back as that state.
pub fn words_read_back(state: &State, pages: u32) -> Result<State, u8>
    requires { Keeps pages state.now }
    ensures { result ≡ Ok state.now }
{
    State::from_words(&state.to_words(), pages)
}

/// What keeps the rules for RAM of some size keeps them for more.
pub fn more_pages_keep()
    ensures { (p q : ℕ) (s : State) → p ≤ q → Keeps p s → Keeps q s }
{}

/// The words of a state that keeps the rules stand for that state.
pub fn state_stands_behind_its_words()
    ensures { (pages : ℕ) (s : State) → Keeps pages s → state_of (words_of s) ≡ s }
{}

/// A word passes the test of a rule exactly where it obeys the rule.
pub fn tests_are_rules()
    ensures { (pages before word : ℕ) (rule : Rule) → IsTrue (admits pages before rule word)
        ↔ Admits pages before rule word }
{}

/// A read is illegal exactly for its reasons, and every other read answers.
pub fn illegal_reads()
    ensures { (s : State) (number : ℕ) → (csr_read s number ≡ Csr.Illegal) ↔ IsTrue (is_illegal false s number) }
{}

/// A write is illegal where a read is, or where the register is read only.
pub fn illegal_writes()
    ensures { (s : State) (number : ℕ) → is_illegal true s number ≡ (is_illegal false s number || is_read_only number) }
{}

/// What is read of a state that keeps the rules has 32 bits, and so has the value that an instruction sets or clears
/// bits in.
pub fn reads_are_words()
    ensures read { (pages : ℕ) (s : State) (number : ℕ) → Keeps pages s → IsWordAnswer (csr_read s number) }
    ensures base { (s : State) (number value : ℕ) → value < 2 ^ 32 → modify_base s number value < 2 ^ 32 }
{}

/// A write of 32 bits keeps the rules.
pub fn writes_keep()
    ensures { (pages number value : ℕ) (s : State) → value < 2 ^ 32 → Keeps pages s
        → Keeps pages (written_at (register_at number) value s) }
{}
