//! Whether an access is translated, and with which privilege.

ghost use Rattle.std.specs.Prelude.{◌≡◌};
ghost use Rattle.cx_walk.specs.Mode.{effective_mode, is_bare};

use crate::kind::Kind;
use cx_csr::fields::SATP_MODE;
use cx_csr::modes::MACHINE;
use cx_csr::status::MPRV;
use cx_csr::{State, is_bit_set, previous_of_machine};

/// The mode whose privilege the access has.
#[inline]
pub(crate) fn effective_mode(state: &State, kind: Kind) -> u8
    ensures { result ≡ effective_mode state.now kind }
{
    if state.mode == MACHINE && !kind.is_fetch() && is_bit_set(state.csr.mstatus, MPRV) {
        return previous_of_machine(state.csr.mstatus);
    }
    state.mode
}

/// Whether an access of this kind isn't translated in this state, so that its physical address is its virtual one: its
/// mode is machine mode, or MODE of `satp` is 0 (Privileged 1.12, section 4.1.11).
#[inline]
pub fn is_bare(state: &State, kind: Kind) -> bool
    ensures { result ≡ is_bare state.now kind }
{
    effective_mode(state, kind) == MACHINE || !is_bit_set(state.csr.satp, SATP_MODE)
}
