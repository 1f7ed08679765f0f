//! What a step sees and does, told to its record.

ghost use Rattle.std.specs.Prelude.{◌≡◌, ◌+◌, ◌<◌, ◌≤◌, [], ◌∷◌};
ghost use Rattle.cx_hart.specs.Fetch.{look_at, walk_looks};
ghost use Rattle.cx_hart.specs.Looks.{Entry, told};
ghost use Rattle.cx_hart.specs.Step.{blank};

use crate::findings::Retired;
use crate::record::{Ended, StepRec, Touch};
use crate::tells::Tells;
use crate::view::word_of;
use cx_csr::State;
use cx_ram::Ram;
use cx_walk::{QuickWalk, Walk};

impl StepRec {
    /// Makes it the record of a step that has begun in this state and seen nothing yet.
    #[inline]
    fn clear(&mut self, before: &State)
        ensures { self.new ≡ blank before.now }
    {
        self.before = *before;
        self.ended = Ended::Retired;
        self.fetch = None;
        self.read = None;
        self.read_more = None;
        self.write = None;
        self.write_more = None;
        self.value = None;
        self.result = None;
        self.walked = 0;
        self.places = [0; 6];
        self.entries = [0; 6];
    }

    /// Tells the entry of a page table that stands at a place.
    #[inline(always)]
    fn tell_entry(&mut self, place: u32, entry: u32)
        requires { self.old.walked < 6 }
        ensures { self.new ≡ told (Entry place entry ∷ []) self.old }
    {
        let at = self.walked as usize;
        self.places[at] = place;
        self.entries[at] = entry;
        self.walked += 1;
    }

    /// Tells the entry of a page table at a place of RAM.
    fn tell_entry_at(&mut self, ram: &Ram, place: u32)
        requires { self.old.walked < 6 }
        ensures { self.new ≡ told (look_at ram.now.memory place ∷ []) self.old }
    {
        let entry = word_of(ram, place).unwrap_or(0);
        self.tell_entry(place, entry);
    }

    /// Tells the entries that a walk read.
    #[inline]
    #[tactic(auto, using(crate::proofs::Padded::take_one, crate::proofs::Padded::take_two))]
    fn tell_walk(&mut self, ram: &Ram, walk: &Walk)
        requires most { walk.now.count ≤ 2 }
        requires room { self.old.walked + 2 ≤ 6 }
        ensures told { self.new ≡ told (walk_looks ram.now.memory walk.now) self.old }
        ensures room { self.new.walked ≤ self.old.walked + 2 }
    {
        let Walk { count, places, .. } = *walk;
        if count > 0 {
            self.tell_entry_at(ram, places[0]);
        }
        if count > 1 {
            self.tell_entry_at(ram, places[1]);
        }
    }
}

impl Tells for StepRec {
    ghost use Rattle.std.specs.Prelude.{◌≡◌, ◌-◌, ℕ};
    ghost use Rattle.cx_hart.specs.declared.record.StepRec.{StepRec};

    ghost knows = { λ told rec. told ≡ rec };

    ghost room = { λ told. 6 - told.walked };

    #[inline(always)]
    fn begin(&mut self, before: &State) {
        self.clear(before);
    }

    #[inline(always)]
    fn walk(&mut self, ram: &Ram, walk: &Walk) {
        self.tell_walk(ram, walk);
    }

    #[inline(always)]
    fn quick_walk(&mut self, walk: &QuickWalk) {
        self.tell_entry(walk.first, walk.first_entry);
        self.tell_entry(walk.second, walk.second_entry);
    }

    #[inline(always)]
    fn word(&mut self, touch: Touch) {
        self.fetch = Some(touch);
    }

    #[inline(always)]
    fn first(&mut self, touch: Touch) {
        self.read = Some(touch);
    }

    #[inline(always)]
    fn rest(&mut self, touch: Touch) {
        self.read_more = Some(touch);
    }

    #[inline(always)]
    fn wrote(&mut self, touch: Touch) {
        self.write = Some(touch);
    }

    #[inline(always)]
    fn done(&mut self, retired: &Retired) {
        self.write = retired.write;
        self.write_more = retired.write_more;
        self.value = retired.value;
        self.result = retired.result;
    }

    #[inline(always)]
    fn ended(&mut self, ended: Ended) {
        self.ended = ended;
    }
}
