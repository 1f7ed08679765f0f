//! A measure of reading: a recording on standard input is read record by record, and what was counted is printed, so
//! that a run is a test too. How long a run takes is measured from outside.
#![tactic(auto)]

mod reading;

use anyhow::{Result, bail};
use cx_io::StdSource;
use reading::read_recording;

fn main(rt: HostRuntime) -> Result<()> {
    let mut source = StdSource::new(rt.stdin());
    let Ok(counted) = read_recording(rt.alloc(), &mut source) else {
        bail!("the recording isn't good, or can't be read");
    };
    println!(&rt;
        "{} dma, {} lines, {} values, {} marks, end at {}",
        counted.transfers, counted.lines, counted.values, counted.marks, counted.end
    )?;
    Ok(())
}
