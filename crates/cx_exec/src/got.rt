//! What an instruction got for its ask.

/// The answer to an ask.
#[derive(Clone, Copy, Debug, PartialEq, Eq)]
pub enum Got {
    /// Nothing was asked for but, at most, a store.
    Nothing,
    /// The value read from memory, zero-extended: for a load, an LR or an AMO.
    Bytes(u32),
    /// Of an SC: 0 where it succeeds, 1 where it fails.
    Outcome(u32),
    /// The value that a control register instruction read, 0 where it doesn't read.
    Old(u32),
}

impl Got {
    ghost use Rattle.std.specs.Prelude.{◌≡◌};
    ghost use Rattle.cx_exec.specs.Values.{got_number};

    /// The number that was got, 0 where nothing was.
    pub fn number(self) -> u32
        ensures { result ≡ got_number self }
    {
        match self {
            Got::Nothing => 0,
            Got::Bytes(number) | Got::Outcome(number) | Got::Old(number) => number,
        }
    }
}
