//! Which command the words ask for.

ghost use Rattle.std.specs.Prelude.{◌≡◌, map};
ghost use Rattle.std.specs.String.{string_bytes};
ghost use Rattle.cx_words.specs.Parse;
ghost use Rattle.cx_words.specs.Parse.{inspect_of, parse, record_of, trace_of};

use crate::arguments::{one_word, step_count, two_numbers};
use crate::number::read_number;
use crate::queries::query_count;

/// A command of the program with its arguments.
#[derive(Clone, Copy, Debug, PartialEq, Eq)]
pub enum Command {
    /// `window A B`: the recording of the steps from A on and below B.
    Window(u64, u64),
    /// `process R`: the slice of the process with this root.
    Process(u32),
    /// `calls R`: the slice of that process by its calls.
    Calls(u32),
    /// `relog`: the slice by calls of a process slice.
    Relog,
    /// `replay`: the lines of all that a recording or a slice runs.
    Replay,
    /// `trace all`: a line for each step of a recording.
    TraceAll,
    /// `trace window A B`: a line for each step from A on and below B.
    TraceWindow(u64, u64),
    /// `trace root R`: a line for each observation of a root.
    TraceRoot(u32),
    /// `record STEPS`: so many steps of a live machine, 1 to 2^27.
    Record(u64),
    /// `record STEPS SEED`: the same with an outside that the seed makes.
    RecordSeed(u64, u64),
    /// `roots`: a line for each root.
    Roots,
    /// `inspect` and this many queries, at least one.
    Inspect(usize),
    /// `salvage`: what is good at the front of a recording.
    Salvage,
    /// `make N`: the image of workload N.
    Make(u32),
    /// `demo N`: a summary of what recording and slicing workload N gives.
    Demo(u32),
    /// `upgrade`: a recording in its newest format.
    Upgrade,
}

/// The command that the words after the program's name ask for; None where they ask for none.
pub fn read_words(words: &[String]) -> Option<Command>
    ensures { result ≡ parse (map string_bytes words.now) }
{
    let [name, arguments @ ..] = words else {
        return None;
    };
    match name.as_str() {
        "window" => two_numbers(arguments).map(|(from, to)| Command::Window(from, to)),
        "process" => one_word(arguments).map(Command::Process),
        "calls" => one_word(arguments).map(Command::Calls),
        "relog" => alone(Command::Relog, arguments),
        "replay" => alone(Command::Replay, arguments),
        "trace" => trace(arguments),
        "record" => record_steps(arguments),
        "roots" => alone(Command::Roots, arguments),
        "inspect" => inspect(arguments),
        "salvage" => alone(Command::Salvage, arguments),
        "make" => one_word(arguments).map(Command::Make),
        "demo" => one_word(arguments).map(Command::Demo),
        "upgrade" => alone(Command::Upgrade, arguments),
        _ => None,
    }
}

// A command that has no arguments.
#[tactic(auto, unfolding(crate::specs::Parse::alone))]
fn alone(command: Command, arguments: &[String]) -> Option<Command>
    ensures { result ≡ Parse.alone command (map string_bytes arguments.now) }
{
    arguments.is_empty().then_some(command)
}

// `trace all`, `trace window A B` and `trace root R`.
#[tactic(auto, unfolding(crate::specs::Parse::trace_of))]
fn trace(arguments: &[String]) -> Option<Command>
    ensures { result ≡ trace_of (map string_bytes arguments.now) }
{
    let [what, arguments @ ..] = arguments else {
        return None;
    };
    match what.as_str() {
        "all" => alone(Command::TraceAll, arguments),
        "window" => two_numbers(arguments).map(|(from, to)| Command::TraceWindow(from, to)),
        "root" => one_word(arguments).map(Command::TraceRoot),
        _ => None,
    }
}

// `record STEPS` and `record STEPS SEED`.
#[tactic(auto, unfolding(crate::specs::Parse::record_of))]
fn record_steps(arguments: &[String]) -> Option<Command>
    ensures { result ≡ record_of (map string_bytes arguments.now) }
{
    match arguments {
        [steps] => step_count(steps.as_str()).map(Command::Record),
        [steps, seed] => {
            let steps = step_count(steps.as_str())?;
            let seed = read_number(seed.as_str())?;
            Some(Command::RecordSeed(steps, seed))
        }
        _ => None,
    }
}

// `inspect` and its queries, at least one.
#[tactic(auto, unfolding(crate::specs::Parse::inspect_of))]
fn inspect(arguments: &[String]) -> Option<Command>
    ensures { result ≡ inspect_of (map string_bytes arguments.now) }
{
    let count = query_count(arguments)?;
    (count > 0).then_some(Command::Inspect(count))
}
