//! A command over a source, a sink and a world of which single calls fail, so that tests see what it answers then and
//! what it leaves behind. The input is standard input, what the sink holds goes to standard output, and the status's
//! line to standard error.
//!
//! Four words stand before those of the command: the numbers of the calls that fail of the source, of the sink and of
//! the world, counted from 0, or `-` where none does; and how many bytes a call of the source gives at most.
#![tactic(auto)]

mod piecewise;

use anyhow::{Result, bail};
use cx_io::{MemSink, MemSource, ScriptWorld};
use cx_top::{Status, run};
use piecewise::Piecewise;
use std::env;
use std::io::{Read, Write};
use std::process::ExitCode;

// The number of the call that fails, where one does.
fn failing(rt: &HostRuntime, word: &str) -> Result<Vec<u64>> {
    let mut calls = Vec::new(rt.alloc());
    if word != "-" {
        calls.push(word.parse::<u64>()?)?;
    }
    Ok(calls)
}

// Carries out the command behind the four words, and writes what the sink holds.
fn carry_out(rt: &HostRuntime, line: &[String]) -> Result<Status> {
    let [_, reads, writes, turns, most, words @ ..] = line else {
        bail!("the words are those of three calls that fail, a number of bytes, and a command");
    };
    let mut bytes = Vec::new(rt.alloc());
    rt.stdin().read_to_end(&mut bytes)?;
    let given = MemSource::new(bytes, failing(rt, reads)?);
    let mut source = Piecewise::new(given, most.parse::<usize>()?);
    let mut sink = MemSink::new(rt.alloc(), failing(rt, writes)?);
    let mut world = ScriptWorld::new(Vec::new(rt.alloc()), failing(rt, turns)?);
    let status = run(rt.alloc(), words, &mut source, &mut sink, &mut world);
    rt.stdout().write_all(sink.bytes())?;
    Ok(status)
}

fn main(rt: HostRuntime) -> Result<ExitCode> {
    let line = env::args(&rt)?.collect::<Vec<String>>(rt.alloc())?;
    let status = carry_out(&rt, line.as_slice())?;
    let mut output = rt.stderr();
    output.write_all(status.line().bytes())?;
    output.write_all(b"\n")?;
    Ok(ExitCode::from(status.number()))
}
