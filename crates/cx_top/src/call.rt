//! The public call.

ghost use Rattle.std.specs.Prelude.{◌≡◌, List, ℕ, false, IsSome, map};
ghost use Rattle.std.specs.String.{string_bytes};
ghost use Rattle.cx_codec.specs.Reads.{Begins};
ghost use Rattle.cx_map.specs.Bytes.{AreBytes};
ghost use Rattle.cx_replay.specs.Records.{MayBeWhole};
ghost use Rattle.cx_words.specs.Parse.{parse};
ghost use Rattle.cx_words.specs.Queries.{queries_behind};
ghost use Rattle.cx_commands.specs.Call.{Carries, HasReadAll, IsUnasked, MayAnswer, input_behind, reads, streams};
ghost use Rattle.cx_commands.specs.Doing.{CausedBy, Consumes, IsUntouched};

use crate::record::{record_seed, record_steps};
use crate::relog::relog;
use crate::replay::replay;
use crate::roots::roots;
use crate::trace_window::trace_window;
use crate::window::window;
use cx_calls::Caller;
use cx_commands::Status;
use cx_io::{Sink, Source, World};
use cx_making::make;
use cx_process::Slicer;
use cx_querying::inspect;
use cx_tellers::{Lines, ObservationLines, OfRoot, Upgrade};
use cx_telling::stream;
use cx_window::Span;
use cx_words::{Command, read_words};
use std::alloc::Global;

/// Carries out the command that the words after the program's name ask for: reads its input from the source to the
/// end, and writes its output to the sink. Only `record` without a seed asks the world, once for each step, and only
/// once its whole image was judged. What a command does is one record of its input, and for `inspect` of its queries,
/// for `make` of the image that it made, for `record` of the world's answers: the answer where it is refused, what is
/// written where it isn't, and what is settled where it is.
///
/// What an answer says of the input holds of every input that begins with what the source had given by then, and may be
/// the whole one: of the real input, and where the source failed, of what it gave.
///
/// - `Usage`: exactly where the words aren't a command's; nothing is read or written.
/// - `NotBuilt`: at 0, exactly where the words are those of a command that isn't built. Nothing is read or written.
/// - `Format`, `Broken`: exactly where the first bad place of the input says so, and no fault came first.
/// - `NotThere`: exactly where the input is a recording without the window's steps, of `window` and `trace window`, or
///   without a step that shows anything of the root's program, of `process`, `calls` and `trace root`, or without the
///   step or the place of a query, of `inspect`. Nothing is written.
/// - `ReadFault`, `WriteFault`, `WorldFault`: only where the count of faults of the source, of the sink, of the world,
///   rose in this call. Before a fault of the source nothing bad was given. `WorldFault` is only of `record` without a
///   seed.
/// - `NoMemory`: where memory was refused.
/// - `Done`: nothing is bad in the input, and all output was written.
///
/// Nothing is left in the source after `Done` of a command that reads, and after `NotThere`, `WriteFault` and
/// `WorldFault` of `window`, `trace window`, `roots`, `inspect` and `record`; before another answer it may not have been
/// read to its end.
///
/// `window` and `trace window` write nothing before the whole input was judged: the sink is as it was after every
/// answer but `Done`, `WriteFault` and `NoMemory`, after which it holds the window's recording, or the lines of its
/// steps, behind what it held, or a front of that.
///
/// `roots` and `inspect` write their lines once the whole input was judged, as `trace window` does. `make` reads nothing:
/// after `Done` the sink holds an image of its number, and after `WriteFault` and `NoMemory` a front of one.
///
/// `record` writes nothing before the whole image was judged either. After `Done` the sink holds a recording that is
/// accepted, whose run is that of the machine over the world's answers, or the seed's: at most so many steps, and fewer
/// only where the last one stored to the power switch. After `WorldFault` it holds the whole blocks of 4,096 bytes of
/// what was put of the run so far; after `WriteFault` and `NoMemory` a front of the recording of a run that begins with
/// these answers.
///
/// `trace all` and `replay` write the lines of the steps as they are settled: after `Done` all of them; after `Format`,
/// `Broken` and `ReadFault` as many whole blocks of 4,096 bytes as the lines of the settled steps fill; after
/// `WriteFault` and `NoMemory` a front of these lines. `upgrade` does the same with its recording: the header and the
/// pages are written once all of them were read, and the records of a step once it is settled. `process` does it with
/// its slice: the group of a step is written once the step is settled, and `trace root` with the line of what the step
/// shows. `calls` writes what stands of its slice before the last call of the settled steps.
///
/// Of a slice of either kind `replay` writes the lines of the observations that it goes through, and of a process slice
/// `relog` the slice by calls that `calls` writes of them; the steps behind a slice's last group or record are settled
/// once nothing was seen to follow its end. `relog` of anything but a process slice is `Format` at 0.
pub fn run<S: Source, T: Sink, W: World>(
    alloc: Global,
    words: &[String],
    source: &mut S,
    sink: &mut T,
    world: &mut W,
) -> Status
    ensures carries { IsSome (S.left source.old) → (input : List ℕ) → Begins (S.given source.new) input
        → AreBytes (input_behind (S.given source.old) input)
        → Carries (parse (map string_bytes words.now)) (queries_behind (map string_bytes words.now))
        (input_behind (S.given source.old) input)
        (MayBeWhole (S.left source.new) (S.given source.new) input) (input ≡ S.given source.new)
        (W.answers world.old) (W.answers world.new) (T.held sink.old) (T.held sink.new) result }
    ensures consumes { IsSome (S.left source.old)
        → Consumes (S.left source.old) (S.given source.old) (S.left source.new) (S.given source.new)
        (HasReadAll (parse (map string_bytes words.now)) result) }
    ensures kind { MayAnswer (parse (map string_bytes words.now)) result }
    ensures unread { reads (parse (map string_bytes words.now)) ≡ false → source.new ≡ source.old }
    ensures untouched { IsUntouched (streams (parse (map string_bytes words.now))) result
        → sink.new ≡ sink.old }
    ensures unasked { IsUnasked (parse (map string_bytes words.now)) result → world.new ≡ world.old }
    ensures read_cause { CausedBy Status.ReadFault (S.faults source.old) (S.faults source.new) result }
    ensures write_cause { CausedBy Status.WriteFault (T.faults sink.old) (T.faults sink.new) result }
    ensures world_cause { CausedBy Status.WorldFault (W.faults world.old) (W.faults world.new) result }
{
    match read_words(words) {
        Some(Command::Window(from, to)) => window(alloc, Span { from, to }, source, sink),
        Some(Command::TraceWindow(from, to)) => trace_window(
            alloc,
            Span { from, to },
            source,
            sink,
        ),
        Some(Command::Process(root)) => stream::<OfRoot<Slicer>, S, T>(alloc, root, source, sink),
        Some(Command::Calls(root)) => stream::<OfRoot<Caller>, S, T>(alloc, root, source, sink),
        Some(Command::Relog) => relog(alloc, source, sink),
        Some(Command::TraceAll) => stream::<Lines, S, T>(alloc, (), source, sink),
        Some(Command::TraceRoot(root)) => stream::<OfRoot<ObservationLines>, S, T>(
            alloc, root, source, sink,
        ),
        Some(Command::Replay) => replay(alloc, source, sink),
        Some(Command::Inspect(count)) => inspect(alloc, words, count, source, sink),
        Some(Command::Make(n)) => make(alloc, n, sink),
        Some(Command::Roots) => roots(alloc, source, sink),
        Some(Command::Upgrade) => stream::<Upgrade, S, T>(alloc, (), source, sink),
        Some(Command::Record(steps)) => record_steps(alloc, steps, source, sink, world),
        Some(Command::RecordSeed(steps, seed)) => record_seed(alloc, steps, seed, source, sink),
        Some(_) => Status::NotBuilt(0),
        None => Status::Usage,
    }
}
