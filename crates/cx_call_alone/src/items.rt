//! What a call slice hands over.

use std::alloc::Global;

/// Words and bytes: of the start, of a call, or of a step.
#[derive(Drop)]
pub(crate) struct HeadItems {
    /// The words: pc, and the registers x1 to x31, each where it is another than the one that stands.
    pub(crate) words: [Option<u32>; 32],
    /// The bytes, each with its address, in rising order.
    pub(crate) bytes: Vec<(u32, u8)>,
}

/// A call, with its number and what it is handed.
#[derive(Drop)]
pub(crate) struct CallItems {
    /// Its number.
    pub(crate) number: u32,
    /// What comes behind it.
    pub(crate) head: HeadItems,
}

/// What a record tells of its step.
#[derive(Drop)]
pub(crate) enum Told {
    /// What comes before it.
    Items(HeadItems),
    /// The value that it is given.
    Value(u32),
    /// The call that it is.
    Call(CallItems),
}

/// What is told of a step.
#[derive(Drop)]
pub(crate) struct StepItems {
    /// What comes before it.
    pub(crate) items: HeadItems,
    /// The value that it is given.
    pub(crate) given: Option<u32>,
    /// The call that it is.
    pub(crate) call: Option<CallItems>,
}

impl StepItems {
    ghost use Rattle.std.specs.Prelude.{◌≡◌};
    ghost use Rattle.cx_callfmt.specs.Rules.{IsWhat};
    ghost use Rattle.cx_call_alone.specs.Ahead.{step_held, what_held};
    ghost use Rattle.cx_call_alone.specs.Placed.{nothing_placed, told};
    ghost use Rattle.cx_call_alone.specs.Stepping.{RisesIn};

    /// Nothing is told yet.
    pub(crate) fn none(alloc: Global) -> StepItems
        ensures none { step_held result ≡ nothing_placed 32 }
        ensures rises { RisesIn result.call }
    {
        StepItems {
            items: HeadItems {
                words: [None; 32],
                bytes: Vec::new(alloc),
            },
            given: None,
            call: None,
        }
    }

    /// With what a record tells.
    pub(crate) fn tell(&mut self, what: Told)
        ensures told { step_held self.new ≡ told (step_held self.old) (what_held what) }
        ensures rises { RisesIn self.old.call → IsWhat (what_held what) → RisesIn self.new.call }
    {
        match what {
            Told::Items(items) => self.items = items,
            Told::Value(word) => self.given = Some(word),
            Told::Call(call) => self.call = Some(call),
        }
    }
}
