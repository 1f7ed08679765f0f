//! A record as a reader gives it and a writer takes it.

ghost use Rattle.std.specs.Prelude.{◌≡◌};
ghost use Rattle.cx_log.specs.Item.{is_end, kind_of_what};

use crate::kind::Kind;
use cx_csr::Lines;

/// What the outside does before a step, or the end.
#[derive(Clone, Copy, Debug, PartialEq, Eq)]
pub enum What {
    /// A device writes bytes to RAM from this place on. The bytes stand beside the item.
    Dma(u32),
    /// These interrupt lines are up from this step on.
    Lines(Lines),
    /// This is the value that the step asks for.
    Value(u32),
    /// Nothing: a damaged recording can be cut here.
    Mark,
    /// The recording ends before this step.
    End,
}

/// A record: a step, and what comes before it.
#[derive(Clone, Copy, Debug, PartialEq, Eq)]
pub struct Item {
    /// The number of the step.
    pub step: u64,
    /// What comes before it.
    pub what: What,
}

impl What {
    /// The kind of record.
    pub fn kind(&self) -> Kind
        ensures { result ≡ kind_of_what self.now }
    {
        match self {
            What::Dma(_) => Kind::Dma,
            What::Lines(_) => Kind::Lines,
            What::Value(_) => Kind::Value,
            What::Mark => Kind::Mark,
            What::End => Kind::End,
        }
    }

    /// Whether it is the end.
    pub fn is_end(&self) -> bool
        ensures { result ≡ is_end self.now }
    {
        match self {
            What::End => true,
            What::Dma(_) | What::Lines(_) | What::Value(_) | What::Mark => false,
        }
    }
}
