//! Room in a shadow for what a step sees and writes.

ghost use Rattle.std.specs.Prelude.{◌≡◌, ◌⊎◌, ◌<◌, ◌+◌, ◌-◌, ◌^◌, ℕ, true, IfOk};
ghost use Rattle.cx_exec.specs.Arithmetic.{wrapped};
ghost use Rattle.cx_observe.specs.Possible.{Possible};
ghost use Rattle.cx_observe.specs.Seeing.{bytes_shown};
ghost use Rattle.cx_program.specs.Knowing.{HasRoom, IsByAccess, IsByStep};
ghost use Rattle.cx_shadow.specs.Cells.{AreHeld, byte_of, is_held};

use cx_io::NoMemory;
use cx_observe::{Obs, Seen};
use cx_shadow::Shadow;

// The address of the last of so many bytes.
#[inline]
fn last_of(va: u32, len: u8) -> u32
    ensures last { result ≡ wrapped (va + (len - 1)) }
    ensures fits { (va < 2 ^ 32) × (len < 2 ^ 8) }
{
    va.wrapping_add(u32::from(len).saturating_sub(1))
}

// Makes room for the bytes of an access.
#[inline]
pub(crate) fn hold_access(shadow: &mut Shadow, access: &Option<Seen>) -> Result<(), NoMemory>
    ensures held { IfOk result (λ _. AreHeld shadow.new (bytes_shown access.now)) }
    ensures bytes { (a : ℕ) → byte_of shadow.new a ≡ byte_of shadow.old a }
    ensures keeps { (a : ℕ) → is_held shadow.old a ≡ true → is_held shadow.new a ≡ true }
    ensures only { (a : ℕ) → is_held shadow.new a ≡ true → (is_held shadow.old a ≡ true) ⊎ IsByAccess a access.now }
{
    if let Some(access) = access {
        shadow.hold(access.va)?;
        shadow.hold(last_of(access.va, access.len))?;
    }
    Ok(())
}

/// Makes room for what a step sees and writes, on at most three pages. No byte changes, whatever the answer.
pub(crate) fn hold_step(shadow: &mut Shadow, obs: &Obs) -> Result<(), NoMemory>
    requires { Possible obs.now }
    ensures room { IfOk result (λ _. HasRoom shadow.new obs.now) }
    ensures bytes { (a : ℕ) → byte_of shadow.new a ≡ byte_of shadow.old a }
    ensures keeps { (a : ℕ) → is_held shadow.old a ≡ true → is_held shadow.new a ≡ true }
    ensures only { (a : ℕ) → is_held shadow.new a ≡ true → (is_held shadow.old a ≡ true) ⊎ IsByStep a obs.now }
{
    shadow.hold(obs.pc)?;
    hold_access(shadow, &obs.read)?;
    hold_access(shadow, &obs.write)?;
    Ok(())
}
