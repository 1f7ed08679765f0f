//! The program: a command over standard input and standard output, and how it ended on standard error.
#![tactic(auto)]

use cx_io::{ClockWorld, StdSink, StdSource};
use cx_top::{Status, run};
use std::env;
use std::io::{ErrorKind, Write};
use std::process::ExitCode;

// The words of the command line, the program's name first. Words that aren't text are no command's.
fn read_line(rt: &HostRuntime) -> Result<Vec<String>, Status> {
    let words = match env::args(rt) {
        Ok(words) => words,
        Err(error) if error.kind() == ErrorKind::OutOfMemory => return Err(Status::NoMemory),
        Err(_) => return Err(Status::Usage),
    };
    match words.collect(rt.alloc()) {
        Ok(words) => Ok(words),
        Err(_) => Err(Status::NoMemory),
    }
}

// Carries out the command of the command line.
fn carry_out(rt: &HostRuntime) -> Status {
    let line = match read_line(rt) {
        Ok(line) => line,
        Err(status) => return status,
    };
    let words = match line.as_slice() {
        [_, words @ ..] => words,
        [] => &[],
    };
    let mut source = StdSource::new(rt.stdin());
    let mut sink = StdSink::new(rt.stdout());
    let mut world = ClockWorld::new(rt);
    run(rt.alloc(), words, &mut source, &mut sink, &mut world)
}

fn main(rt: HostRuntime) -> ExitCode {
    let status = carry_out(&rt);
    // Where standard error can't be written, the exit status still tells how the command ended.
    let mut output = rt.stderr();
    let _ = output.write_all(status.line().bytes());
    let _ = output.write_all(b"\n");
    ExitCode::from(status.number())
}
