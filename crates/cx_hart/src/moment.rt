//! Moments of a machine.

ghost use Rattle.std.specs.Prelude.{◌≡◌};

use cx_csr::State;
use cx_ram::Snap;
use std::marker::Model;

/// A moment of a machine, which it can be put back to: the state of the hart, and the number under which the memory is
/// saved.
#[derive(Drop)]
pub struct Moment {
    pub(crate) state: State,
    pub(crate) snap: Snap,
}

impl Model for Moment {
    ghost use Rattle.cx_hart.specs.Whole.{AtMoment};

    ghost Value = { AtMoment };

    ghost view = { λ m. record { state = m.state; snap = m.snap } };
}

impl Moment {
    /// The state of the hart.
    pub fn state(&self) -> &State
        ensures { result.now ≡ self.now.state }
    {
        &self.state
    }

    /// The number under which the memory is saved.
    pub fn snap(&self) -> &Snap
        ensures { result.now ≡ self.now.snap }
    {
        &self.snap
    }
}
