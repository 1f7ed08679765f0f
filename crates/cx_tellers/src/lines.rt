//! The lines of steps.

ghost use Rattle.std.specs.Prelude.{◌≡◌, [], true, IfOk};

use cx_codec::{Out, OutFault};
use cx_hart::{Machine, StepRec};
use cx_io::{NoMemory, Sink};
use cx_log::Header;
use cx_print::step_line;
use cx_replay::DueRecords;
use cx_telling::Teller;
use std::alloc::Global;
use std::marker::Model;

/// Puts a line for each step.
#[derive(Drop)]
pub struct Lines {
    out: Out,
}

impl Model for Lines {
    ghost use Rattle.cx_codec.specs.Blocks.{Waiting};

    ghost Value = { Waiting };

    ghost view = { λ l. l.out };
}

impl Lines {
    /// None yet.
    pub fn new(alloc: Global) -> Result<Lines, NoMemory>
        ensures { IfOk result (λ l. l ≡ record { bytes = []; live = true }) }
    {
        let out = Out::new(alloc)?;
        Ok(Lines { out })
    }
}

impl Teller for Lines {
    ghost use Rattle.cx_commands.specs.Streaming.{settled_by};
    ghost use Rattle.std.specs.Prelude.{false, true, IsTrue};
    ghost use Rattle.cx_commands.specs.Growing.{lines_grow, never_missing};
    ghost use Rattle.cx_commands.specs.Trace.{line_text};

    type Asked = ();

    ghost text = { λ asked. line_text };

    ghost full = { λ asked. settled_by line_text };

    ghost seeks = { false };

    ghost there = { λ asked records. true };

    ghost waiting = { λ l. l.bytes };

    ghost keeps = { λ l asked o whole given. Unit {0} };

    ghost ready = { λ l. IsTrue l.live };

    ghost found = { λ l. true };

    ghost grows = { λ asked. lines_grow };

    ghost unwritten = { λ asked o whole given never. never_missing never };

    fn start<T: Sink>(
        alloc: Global,
        _asked: (),
        _header: &Header,
        _machine: &Machine,
        _sink: &mut T,
    ) -> Result<Lines, OutFault> {
        Ok(Lines::new(alloc)?)
    }

    fn tell<T: Sink>(
        &mut self,
        step: u64,
        rec: &StepRec,
        _due: &DueRecords,
        sink: &mut T,
    ) -> Result<(), OutFault> {
        step_line(&mut self.out, step, rec, sink)
    }

    fn is_there(&self) -> bool {
        true
    }

    fn finish<T: Sink>(self, _end: u64, sink: &mut T) -> Result<(), OutFault> {
        self.out.finish(sink)
    }
}
