//! A measure of frames: a memory is saved, restored and forgotten, or a page that is shared is written to, so many
//! times. It prints how many frames are used at the end, so that a run is a test too; how long it takes is measured
//! from outside.
#![tactic(auto)]

mod rounds;

use anyhow::{Result, bail};
use cx_pages::NoMemory;
use rounds::{Rounds, take_rounds};
use std::env;

/// Takes so many rounds on a memory of so many pages.
fn run(rt: &HostRuntime, rounds: Rounds, pages: u32, count: u32) -> Result<()> {
    if pages == 0 || pages > cx_map::MOST_PAGES {
        bail!("a memory has 1 to 262,144 pages");
    }
    match take_rounds(rt.alloc(), rounds, pages, count) {
        Ok(used) => println!(rt; "{pages} pages, {count} rounds, {used} frames")?,
        Err(NoMemory) => bail!("memory was refused"),
    }
    Ok(())
}

fn main(rt: HostRuntime) -> Result<()> {
    let words = env::args(&rt)?.collect::<Vec<String>>(rt.alloc())?;
    let [_, name, pages, count] = words.as_slice() else {
        bail!("the words are the name of the rounds, a number of pages and one of rounds");
    };
    let Some(rounds) = Rounds::named(name.as_str()) else {
        bail!("the rounds are saves and writes");
    };
    run(
        &rt,
        rounds,
        pages.as_str().parse::<u32>()?,
        count.as_str().parse::<u32>()?,
    )
}
