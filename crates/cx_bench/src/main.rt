//! A measure of the step: one loop of computation, loads, stores, branches and a jump, taken for so many steps in
//! machine mode, or in user mode behind page tables; both again without a record; and a mix that is nearer to a
//! program. It prints where the hart ends and what the records of the steps told, so that a run is a test too; how
//! long a run takes is measured from outside.
#![tactic(auto)]

mod course;
mod mode;
mod setting;
mod tally;

use anyhow::{Result, bail};
use course::take_course;
use cx_csr::State;
use mode::Mode;
use std::env;
use tally::Tally;

/// The registers of the hart, and what its steps did.
fn print(rt: &impl Print, state: &State, tally: &Tally) -> Result<()> {
    let Tally {
        retired,
        read,
        written,
        walked,
        sum,
    } = *tally;
    println!(rt;
        "retired {retired}, read {read}, written {written}, walked {walked}, sum {sum:08x}"
    )?;
    println!(rt; "pc {:08x}", state.pc)?;
    for (number, value) in state.x.iter().enumerate() {
        println!(rt; "x{} {:08x}", number, *value)?;
    }
    Ok(())
}

/// Takes the course in each of the modes that these words name.
fn run(rt: &HostRuntime, steps: u32, names: &[String]) -> Result<()> {
    for name in names {
        let Some(mode) = Mode::named(name.as_str()) else {
            bail!("the modes are machine, user, mix, machine-untold and user-untold");
        };
        let (state, tally) = take_course(rt.alloc(), mode, steps)?;
        println!(rt; "{} mode, {} steps", mode.name(), state.csr.mcycle)?;
        print(rt, &state, &tally)?;
    }
    Ok(())
}

fn main(rt: HostRuntime) -> Result<()> {
    let words = env::args(&rt)?.collect::<Vec<String>>(rt.alloc())?;
    match words.as_slice() {
        [_, steps, names @ ..] => run(&rt, steps.as_str().parse::<u32>()?, names),
        _ => bail!("the words are a number of steps and the modes in which to take them"),
    }
}
