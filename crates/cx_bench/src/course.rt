//! The course: a machine is made ready, and it takes its steps.

ghost use Rattle.std.specs.Prelude.{◌≡◌, ◌+◌, ◌*◌, ◌<◌, ◌≤◌, length, IfOk};
ghost use Rattle.cx_bench.specs.declared.course.CourseFault.TheVariants.{NoMemory as no_memory};

use crate::mode::Mode;
use crate::setting::{
    CODE_START, HANDLER, HANDLER_START, LOWER_ENTRY, LOWER_TABLE, PAGES, UPPER_ENTRY, UPPER_TABLE,
};
use crate::tally::Tally;
use cx_csr::State;
use cx_hart::{Due, Machine, NoMemory, StepRec, Steps, Went};
use std::alloc::Global;
use std::marker::Brand;
use std::sync::ledger::{Blank, Ledger};
use thiserror::Error;

/// Why the course isn't taken to its end.
#[derive(Clone, Copy, Debug, PartialEq, Eq, Error)]
pub enum CourseFault {
    /// Memory was refused.
    #[error("memory was refused")]
    NoMemory,
    /// A step asked for a value of the outside.
    #[error("a step wasn't carried out")]
    Stopped,
}

impl From<NoMemory> for CourseFault {
    ghost from_gives = { λ _ e. e ≡ no_memory };

    fn from(_: NoMemory) -> Self {
        CourseFault::NoMemory
    }
}

/// Writes words to RAM, the first at this place.
fn write_words(machine: &mut Machine, place: u32, words: &[u32]) -> Result<(), NoMemory>
    requires start { 0x8000_0000 ≤ place }
    requires end { place + 4 * length words.now ≤ 0x8000_0000 + 16384 }
    requires size { length machine.old.memory ≡ 16384 }
    ensures size { length machine.new.memory ≡ 16384 }
{
    let mut at = place;
    for word in words {
        machine.reserve(2)?;
        machine.dma(at, &word.to_le_bytes());
        at += 4;
    }
    Ok(())
}

/// A machine at the beginning of the course.
fn machine_ready(alloc: Global, mode: Mode) -> Result<Machine, NoMemory> {
    let mut machine = Machine::new(alloc, PAGES, mode.start())?;
    write_words(&mut machine, CODE_START, mode.code())?;
    write_words(&mut machine, HANDLER_START, &HANDLER)?;
    write_words(&mut machine, UPPER_ENTRY, &UPPER_TABLE)?;
    write_words(&mut machine, LOWER_ENTRY, &LOWER_TABLE)?;
    Ok(machine)
}

/// Takes so many steps, each told in one record.
fn take_steps<L: Ledger>(
    machine: &mut Machine,
    count: u32,
    steps: &mut Steps<L>,
) -> Result<Tally, CourseFault> {
    let due = Due {
        lines: None,
        value: None,
    };
    let mut tally = Tally::none();
    let mut rec = StepRec::BLANK;
    for _ in 0..count {
        machine.reserve(2)?;
        match machine.step_into(due, steps, &mut rec) {
            Went::Stepped => tally.add(&rec),
            _ => return Err(CourseFault::Stopped),
        }
    }
    Ok(tally)
}

/// Takes so many steps of which no record is made.
fn take_untold<L: Ledger>(
    machine: &mut Machine,
    count: u32,
    steps: &mut Steps<L>,
) -> Result<Tally, CourseFault> {
    let due = Due {
        lines: None,
        value: None,
    };
    for _ in 0..count {
        machine.reserve(2)?;
        match machine.step_untold(due, steps) {
            Went::Stepped => {}
            _ => return Err(CourseFault::Stopped),
        }
    }
    Ok(Tally::none())
}

/// Takes so many steps from the beginning of the course.
fn take_counted<L: Ledger>(
    blank: Blank,
    alloc: Global,
    mode: Mode,
    count: u32,
) -> Result<(State, Tally), CourseFault>
    requires name { blank.name ≡ L.name }
    requires parts { blank.parts ≡ L.parts }
    requires some { 0 < blank.parts }
{
    let mut steps = Steps::<L>::none(blank);
    let mut machine = machine_ready(alloc, mode)?;
    let tally = if mode.is_told() {
        take_steps(&mut machine, count, &mut steps)?
    } else {
        take_untold(&mut machine, count, &mut steps)?
    };
    Ok((*machine.state(), tally))
}

/// The state of the hart and what its steps did, once it took so many from the beginning of the course in this mode.
pub fn take_course(alloc: Global, mode: Mode, count: u32) -> Result<(State, Tally), CourseFault> {
    take_counted::<Brand>(Blank::new(1), alloc, mode, count)
}
