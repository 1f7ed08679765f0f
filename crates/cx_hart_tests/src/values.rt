//! What a step answers that isn't carried out: the value that it asks for, or that it leaves one.

ghost use Rattle.std.specs.Prelude.{◌≡◌, ◌<◌};

use crate::acting::{take_step, transfer};
use cx_csr::{Lines, State};
use cx_hart::{Asked, Due, Machine, NoMemory, StepAnswer, Steps};
use std::alloc::Global;
use std::marker::Brand;
use std::process::Abort;
use std::sync::ledger::{Blank, Ledger};
use std::test::Fail;

/// A machine of one page in machine mode, with x5 = 10000000, at this instruction.
fn machine_at(rt: &impl Abort, alloc: Global, word: u32) -> Result<Machine, Fail> {
    let mut words = [0; 58];
    words[0] = 0x8000_0000;
    words[5] = 0x1000_0000;
    words[32] = 3;
    match Machine::new(alloc, 1, State::from_words(&words, 1)?) {
        Ok(mut machine) => {
            transfer(rt, &mut machine, 0x8000_0000, &word.to_le_bytes());
            Ok(machine)
        }
        Err(NoMemory) => panic!(rt; "no memory"),
    }
}

/// A step that isn't carried out, whose lines are put back.
fn stays<L: Ledger>(
    rt: &impl Abort,
    machine: &mut Machine,
    value: Option<u32>,
    want: StepAnswer,
    blank: Blank,
)
    requires name { blank.name ≡ L.name }
    requires parts { blank.parts ≡ L.parts }
    requires some { 0 < blank.parts }
{
    let mut steps: Steps<L> = Steps::none(blank);
    let before = *machine.state();
    let due = Due {
        lines: Some(Lines(0x80)),
        value,
    };
    assert_eq!(rt; take_step(rt, machine, due, &mut steps), want);
    assert_eq!(rt; *machine.state(), before);
}

#[test]
fn values_are_asked_for_and_left(rt: HostRuntime) -> Result<(), Fail> {
    for (word, value, want) in [
        (0xc010_22f3, None, StepAnswer::NeedsValue(Asked::TimeLow)), // rdtime x5
        (0xc810_22f3, None, StepAnswer::NeedsValue(Asked::TimeHigh)), // rdtimeh x5
        (
            0x0042_a303,
            None,
            StepAnswer::NeedsValue(Asked::Device(0x1000_0004)),
        ), // lw x6, 4(x5)
        (0x0062_a223, Some(7), StepAnswer::ValueLeft), // sw x6, 4(x5)
        (0x0000_0000, Some(7), StepAnswer::ValueLeft), // no instruction
    ] {
        let mut machine = machine_at(&rt, rt.alloc(), word)?;
        stays::<Brand>(&rt, &mut machine, value, want, Blank::new(1));
    }
    Ok(())
}
