//! What holds of the definitions of traps, for every state.

ghost use Rattle.std.specs.Prelude.{◌≡◌, ℕ, ◌+◌, ◌^◌, ◌<◌, IsTrue, IfSome};
ghost use Rattle.cx_csr.specs.declared.state.State.{State};
ghost use Rattle.cx_csr.specs.Keeps.{Keeps};
ghost use Rattle.cx_trap.specs.Causes.{is_cause};
ghost use Rattle.cx_trap.specs.Enter.{entered};
ghost use Rattle.cx_trap.specs.Pending.{pending_of};
ghost use Rattle.cx_trap.specs.Return.{after_mret, after_sret};

use cx_csr::causes::INTERRUPT_BIT;

/// The interrupt that is to be taken is a cause of a trap, with the bit of an interrupt.
pub fn pending_is_a_cause()
    ensures { (s : State) → IfSome (pending_of s) (λ i. IsTrue (is_cause (i + INTERRUPT_BIT))) }
{}

/// Entry into a trap keeps the rules.
pub fn traps_keep()
    ensures { (pages cause tval : ℕ) (s : State) → IsTrue (is_cause cause) → tval < 2 ^ 32 → Keeps pages s
        → Keeps pages (entered cause tval s) }
{}

/// Return from a trap keeps the rules.
pub fn returns_keep()
    ensures mret { (pages : ℕ) (s : State) → Keeps pages s → Keeps pages (after_mret s) }
    ensures sret { (pages : ℕ) (s : State) → Keeps pages s → Keeps pages (after_sret s) }
{}
