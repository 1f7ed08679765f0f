//! Machines as their callers make and fill them.

ghost use Rattle.std.specs.Prelude.{◌≡◌, ◌<◌};

use crate::acting::{take_step, transfer};
use cx_csr::State;
use cx_hart::{Due, Ended, Machine, NoMemory, StepAnswer, Steps};
use std::alloc::Global;
use std::marker::Brand;
use std::process::Abort;
use std::sync::ledger::{Blank, Ledger};
use std::test::Fail;

/// A machine of two pages in machine mode, with x2 = 80000001 and a reservation at 80001000.
fn two_pages(rt: &impl Abort, alloc: Global) -> Result<Machine, Fail> {
    let mut words = [0; 58];
    words[0] = 0x8000_1000;
    words[2] = 0x8000_0001;
    words[32] = 3;
    words[55] = 1;
    words[56] = 0x8000_1000;
    let state = State::from_words(&words, 2)?;
    match Machine::new(alloc, 2, state) {
        Ok(machine) => Ok(machine),
        Err(NoMemory) => panic!(rt; "no memory"),
    }
}

#[test]
fn a_page_is_filled(rt: HostRuntime) -> Result<(), Fail> {
    let mut machine = two_pages(&rt, rt.alloc())?;
    let before = *machine.state();
    assert_eq!(rt; machine.ram().pages(), 2);
    assert!(rt; machine.ram().is_zero(0));
    assert!(rt; machine.ram().is_zero(1));
    match machine.reserve(2) {
        Ok(()) => {}
        Err(_) => panic!(rt; "no memory"),
    }
    let mut page = [7; 4096];
    page[4095] = 9;
    machine.fill(1, &page);
    assert!(rt; machine.ram().is_zero(0));
    assert_eq!(rt; machine.ram().load(0x8000_1000, 4), 0x0707_0707);
    assert_eq!(rt; machine.ram().load(0x8000_1ffe, 2), 0x0907);
    assert_eq!(rt; *machine.state(), before);
    match machine.reserve(2) {
        Ok(()) => {}
        Err(_) => panic!(rt; "no memory"),
    }
    machine.dma(0x8000_0fff, &[1, 2]);
    assert_eq!(rt; machine.ram().load(0x8000_0fff, 1), 1);
    assert_eq!(rt; machine.ram().load(0x8000_1000, 2), 0x0702);
    assert_eq!(rt; machine.state().reservation, None);
    Ok(())
}

/// Takes a step of a machine made by `new` that loads a misaligned word.
fn misaligned<L: Ledger>(rt: &impl Abort, machine: &mut Machine, blank: Blank)
    requires name { blank.name ≡ L.name }
    requires parts { blank.parts ≡ L.parts }
    requires some { 0 < blank.parts }
{
    let mut steps: Steps<L> = Steps::none(blank);
    transfer(rt, machine, 0x8000_1000, &0x0001_2283u32.to_le_bytes());
    let due = Due {
        lines: None,
        value: None,
    };
    match take_step(rt, machine, due, &mut steps) {
        StepAnswer::Stepped(rec) => assert_eq!(rt; rec.ended, Ended::Trap(4)),
        answer => panic!(rt; "{answer:?}"),
    }
    assert_eq!(rt; machine.state().csr.mtval, 0x8000_0001);
}

#[test]
fn misaligned_loads_trap_unless_they_are_asked_for(rt: HostRuntime) -> Result<(), Fail> {
    let mut machine = two_pages(&rt, rt.alloc())?;
    misaligned::<Brand>(&rt, &mut machine, Blank::new(1));
    Ok(())
}
