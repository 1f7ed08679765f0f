//! Who is told what a step sees and does: a record, or nobody.
//!
//! There is one text of the step, with this as a parameter. A run that only has to arrive wants no record: a step takes
//! 147 instructions of the processor then in place of 250 in machine mode, and 234 in place of 351 in user mode
//! (`cx_bench`, by callgrind). What is known of who was told is a relation to the record that a step has by its
//! definition: of a record that it is the one, of nobody nothing.

ghost use Rattle.std.specs.Prelude.{◌≡◌, ℕ, ◌+◌, ◌≤◌, [], ◌∷◌, Some};
ghost use Rattle.cx_hart.specs.Fetch.{walk_looks};
ghost use Rattle.cx_hart.specs.Looks.{Entry, First, Learns, Rest, Word};
ghost use Rattle.cx_hart.specs.Step.{blank, with_done};
ghost use Rattle.cx_hart.specs.declared.record.StepRec.{StepRec};

use crate::findings::Retired;
use crate::record::{Ended, Touch};
use cx_csr::State;
use cx_ram::Ram;
use cx_walk::{QuickWalk, Walk};

/// Who is told a step.
pub(crate) trait Tells {
    /// That the record of the step is this one, as far as it goes.
    ghost knows: { Self → StepRec → Type 0 };

    /// How many entries of page tables can still be told.
    ghost room: { Self → ℕ };

    /// A step has begun in this state, and seen nothing yet.
    fn begin(&mut self, before: &State)
        ensures told { knows self.new (blank before.now) }
        ensures room { room self.new ≡ 6 };

    /// A walk has read these entries.
    fn walk(&mut self, ram: &Ram, walk: &Walk)
        requires most { walk.now.count ≤ 2 }
        requires room { 2 ≤ room self.old }
        ensures told { Learns (knows self.old) (knows self.new) (walk_looks ram.now.memory walk.now) }
        ensures room { room self.old ≤ room self.new + 2 };

    /// A walk by one look has read these two entries.
    fn quick_walk(&mut self, walk: &QuickWalk)
        requires room { 2 ≤ room self.old }
        ensures told { Learns (knows self.old) (knows self.new)
            (Entry walk.now.first walk.now.first_entry ∷ Entry walk.now.second walk.now.second_entry ∷ []) }
        ensures room { room self.old ≤ room self.new + 2 };

    /// The word of the instruction was fetched.
    fn word(&mut self, touch: Touch)
        ensures told { Learns (knows self.old) (knows self.new) (Word touch ∷ []) }
        ensures room { room self.old ≤ room self.new };

    /// The bytes of an access were read, up to the end of a page.
    fn first(&mut self, touch: Touch)
        ensures told { Learns (knows self.old) (knows self.new) (First touch ∷ []) }
        ensures room { room self.old ≤ room self.new };

    /// Those of the next page were read.
    fn rest(&mut self, touch: Touch)
        ensures told { Learns (knows self.old) (knows self.new) (Rest touch ∷ []) }
        ensures room { room self.old ≤ room self.new };

    /// A plain store wrote these bytes, which lie in one page.
    fn wrote(&mut self, touch: Touch)
        ensures { (r : StepRec) → knows self.old r → knows self.new (record r { write = Some touch }) };

    /// An instruction retired with all this.
    fn done(&mut self, retired: &Retired)
        ensures { (r : StepRec) → knows self.old r → knows self.new (with_done retired.now r) };

    /// The step ended so.
    fn ended(&mut self, ended: Ended)
        ensures { (r : StepRec) → knows self.old r → knows self.new (record r { ended = ended }) };
}

/// Nobody is told.
#[derive(Drop)]
pub(crate) struct Nobody;

impl Tells for Nobody {
    ghost use Rattle.std.specs.Prelude.{ℕ};
    ghost use Rattle.cx_hart.specs.declared.record.StepRec.{StepRec};

    ghost knows = { λ nobody rec. Unit {0} };

    ghost room = { λ nobody. 6 };

    #[inline(always)]
    fn begin(&mut self, before: &State) {
        let _ = before;
    }

    #[inline(always)]
    fn walk(&mut self, ram: &Ram, walk: &Walk) {
        let _ = ram;
        let _ = walk;
    }

    #[inline(always)]
    fn quick_walk(&mut self, walk: &QuickWalk) {
        let _ = walk;
    }

    #[inline(always)]
    fn word(&mut self, touch: Touch) {
        let _ = touch;
    }

    #[inline(always)]
    fn first(&mut self, touch: Touch) {
        let _ = touch;
    }

    #[inline(always)]
    fn rest(&mut self, touch: Touch) {
        let _ = touch;
    }

    #[inline(always)]
    fn wrote(&mut self, touch: Touch) {
        let _ = touch;
    }

    #[inline(always)]
    fn done(&mut self, retired: &Retired) {
        let _ = retired;
    }

    #[inline(always)]
    fn ended(&mut self, ended: Ended) {
        let _ = ended;
    }
}
