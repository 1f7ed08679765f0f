//! The roots of page tables that occur in a run.

ghost use Rattle.std.specs.Prelude.{◌≡◌, ◌<◌, ◌+◌, [], length, slice_get, Some, OnErr, OnOk};
ghost use Rattle.cx_hart.specs.WellFormed.{IsWellFormed};
ghost use Rattle.cx_inspect.specs.Roots.{counted, noted, shown_root};

use cx_hart::StepRec;
use cx_io::NoMemory;
use cx_observe::observe;
use indexmap::IndexMap;
use std::alloc::Global;
use std::marker::Model;

/// What is told of a root.
#[derive(Clone, Copy, Debug, PartialEq, Eq)]
pub struct Tally {
    /// How many steps were chosen for it.
    pub steps: u64,
    /// The number of the first of them.
    pub first: u64,
}

impl Tally {
    // Counts one step more, if 64 bits hold the count.
    fn count(&mut self) -> Result<(), NoMemory>
        ensures counted { OnOk result (self.new ≡ record { steps = self.old.steps + 1; first = self.old.first }) }
        ensures same { OnErr result (self.new ≡ self.old) }
    {
        match self.steps.checked_add(1) {
            Some(steps) => {
                self.steps = steps;
                Ok(())
            }
            None => Err(NoMemory),
        }
    }
}

/// The roots that occur in a run, in the order in which they were first seen.
#[derive(Drop)]
pub struct Roots {
    tallies: IndexMap<u32, Tally>,
}

impl Model for Roots {
    ghost use Rattle.std.specs.Prelude.{ℕ, List};
    ghost use Rattle.cx_inspect.specs.declared.roots.Tally.{Tally};

    ghost Value = { List (ℕ × Tally) };

    ghost view = { λ roots. roots.tallies.entries };
}

// The root of a step that shows something of a program.
#[tactic(auto, unfolding(crate::specs::Roots::shown_root))]
fn shown_root(rec: &StepRec) -> Option<u32>
    requires { IsWellFormed rec.now }
    ensures { result ≡ shown_root rec.now }
{
    let root = rec.before.csr.satp;
    match observe(rec, root) {
        Some(_) => Some(root),
        None => None,
    }
}

impl Roots {
    /// None yet.
    pub fn new(alloc: Global) -> Roots
        ensures { result ≡ [] }
    {
        Roots {
            tallies: IndexMap::new(alloc),
        }
    }

    // Counts one step more for a root. `NoMemory` comes where memory for a new root is refused, or where the count
    // would pass 64 bits.
    #[tactic(auto, using(crate::proofs::Counting::put_in))]
    fn count(&mut self, step: u64, root: u32) -> Result<(), NoMemory>
        ensures counted { OnOk result (self.new ≡ counted step root self.old) }
        ensures same { OnErr result (self.new ≡ self.old) }
    {
        if let Some(tally) = self.tallies.get_mut(&root) {
            return tally.count();
        }
        let tally = Tally {
            steps: 1,
            first: step,
        };
        if self.tallies.insert(root, tally).is_err() {
            return Err(NoMemory);
        }
        Ok(())
    }

    /// Takes a step in: one that shows something of the program whose page tables it was taken with counts for their
    /// root. After `NoMemory` nothing has changed.
    pub fn note(&mut self, step: u64, rec: &StepRec) -> Result<(), NoMemory>
        requires { IsWellFormed rec.now }
        ensures noted { OnOk result (self.new ≡ noted step rec.now self.old) }
        ensures same { OnErr result (self.new ≡ self.old) }
    {
        match shown_root(rec) {
            Some(root) => self.count(step, root),
            None => Ok(()),
        }
    }

    /// How many roots there are.
    pub fn len(&self) -> usize
        ensures { result ≡ length self.now }
    {
        self.tallies.len()
    }

    /// A root, how many steps were chosen for it, and the number of the first of them.
    pub fn at(&self, index: usize) -> (u32, u64, u64)
        requires { index < length self.now }
        ensures { slice_get self.now index ≡ Some (result.0, record { steps = result.1; first = result.2 }) }
    {
        match self.tallies.get_index(index) {
            Some((root, tally)) => (*root, tally.steps, tally.first),
            None => (0, 0, 0),
        }
    }
}
