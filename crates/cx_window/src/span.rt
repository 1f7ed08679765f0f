//! The steps of a window.

ghost use Rattle.std.specs.Prelude.{◌≡◌, nat_le, nat_lt, ◌&&◌};

/// The steps from one up to but not including another.
#[derive(Clone, Copy, Debug, PartialEq, Eq)]
pub struct Span {
    /// The first step.
    pub from: u64,
    /// The step behind the last.
    pub to: u64,
}

impl Span {
    /// Whether a run from one step up to another has these steps, of which there is one at least.
    pub(crate) fn lies_in(&self, base: u64, end: u64) -> bool
        ensures { result ≡ (nat_le base self.now.from && nat_lt self.now.from self.now.to && nat_le self.now.to end) }
    {
        base <= self.from && self.from < self.to && self.to <= end
    }
}
