//! The roots of the steps of a run.

ghost use Rattle.std.specs.Prelude.{◌≡◌, []};

use cx_codec::OutFault;
use cx_hart::{Machine, StepRec};
use cx_inspect::Roots;
use cx_io::Sink;
use cx_log::Header;
use cx_replay::DueRecords;
use cx_telling::Teller;
use std::alloc::Global;

/// Takes the roots of the steps in, and writes nothing.
#[derive(Drop)]
pub struct Counting {
    roots: Roots,
}

impl Counting {
    /// None yet.
    pub fn new(alloc: Global) -> Counting
        ensures { result.roots ≡ [] }
    {
        Counting {
            roots: Roots::new(alloc),
        }
    }

    /// The roots that were taken in.
    pub fn into_roots(self) -> Roots
        ensures { result ≡ self.roots }
    {
        self.roots
    }
}

impl Teller for Counting {
    ghost use Rattle.std.specs.Prelude.{true, false};
    ghost use Rattle.cx_inspect.specs.Roots.{roots_from};
    ghost use Rattle.cx_commands.specs.Growing.{never_missing};
    ghost use Rattle.cx_commands.specs.Roots.{nothing_grows};

    type Asked = ();

    ghost text = { λ asked o whole given. [] };

    ghost full = { λ asked o whole. [] };

    ghost seeks = { false };

    ghost there = { λ asked records. true };

    ghost waiting = { λ c. [] };

    ghost keeps = { λ c asked o whole given. c.roots ≡ roots_from o.header.base given };

    ghost ready = { λ c. Unit {0} };

    ghost found = { λ c. true };

    ghost grows = { λ asked o whole xs ys ordered. nothing_grows };

    ghost unwritten = { λ asked o whole given never. never_missing never };

    fn start<T: Sink>(
        alloc: Global,
        _asked: (),
        _header: &Header,
        _machine: &Machine,
        _sink: &mut T,
    ) -> Result<Counting, OutFault> {
        Ok(Counting::new(alloc))
    }

    fn tell<T: Sink>(
        &mut self,
        step: u64,
        rec: &StepRec,
        _due: &DueRecords,
        _sink: &mut T,
    ) -> Result<(), OutFault> {
        self.roots.note(step, rec)?;
        Ok(())
    }

    fn is_there(&self) -> bool {
        true
    }

    fn finish<T: Sink>(self, _end: u64, _sink: &mut T) -> Result<(), OutFault> {
        Ok(())
    }
}
