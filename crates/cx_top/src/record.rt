//! The command `record`.

ghost use Rattle.std.specs.Prelude.{◌≡◌, ◌<◌, ◌≤◌, ◌^◌, List, ℕ, false, IfErr, IfOk, IsSome};
ghost use Rattle.cx_codec.specs.Reads.{Begins};
ghost use Rattle.cx_io.specs.Cause.{HasCause};
ghost use Rattle.cx_live.specs.Image.{IsImage};
ghost use Rattle.cx_replay.specs.Records.{MayBeWhole};
ghost use Rattle.cx_commands.specs.Call.{input_behind};
ghost use Rattle.cx_commands.specs.Doing.{Answers, CausedBy, Consumes, IsUntouched, Judges, Leaves};
ghost use Rattle.cx_commands.specs.Record.{AsksSeed, IsImageRefusal, IsRecordStatus, IsSeededStatus, ReadsImage};
ghost use Rattle.cx_commands.specs.Record.{Recorded, Records, seeded};
ghost use Rattle.cx_commands.specs.Window.{ReadAll};

use crate::seed_told::SeedTold;
use cx_codec::Bytes;
use cx_commands::Status;
use cx_io::{Sink, Source, World};
use cx_live::Image;
use cx_record::record;
use std::alloc::Global;

// Reads the image that the whole input is.
fn read_image<S: Source>(alloc: Global, source: &mut S) -> Result<Image, Status>
    ensures image { IsSome (S.left source.old) → (input : List ℕ) → Begins (S.given source.new) input
        → ReadsImage (input_behind (S.given source.old) input)
        (MayBeWhole (S.left source.new) (S.given source.new) input) (input ≡ S.given source.new) result }
    ensures consumes { IsSome (S.left source.old)
        → Consumes (S.left source.old) (S.given source.old) (S.left source.new) (S.given source.new) (ReadAll result) }
    ensures rules { IfOk result IsImage }
    ensures kind { IfErr result IsImageRefusal }
    ensures cause { HasCause Status.ReadFault (S.faults source.old) (S.faults source.new) result }
{
    let bytes = Bytes::new(alloc)?;
    let image = Image::read(alloc, bytes, source)?;
    Ok(image)
}

// Records the run of an image.
fn record_image<T: Sink, W: World>(
    alloc: Global,
    image: Image,
    steps: u64,
    sink: &mut T,
    world: &mut W,
) -> Status
    requires rules { IsImage image }
    requires some { 0 < steps }
    requires most { steps ≤ 2 ^ 27 }
    ensures recorded { Recorded image steps (W.answers world.old) (W.answers world.new) (T.held sink.old)
        (T.held sink.new) result }
    ensures write_cause { CausedBy Status.WriteFault (T.faults sink.old) (T.faults sink.new) result }
    ensures world_cause { CausedBy Status.WorldFault (W.faults world.old) (W.faults world.new) result }
{
    match record(alloc, image, steps, world, sink) {
        Ok(_) => Status::Done,
        Err(fault) => Status::from(fault),
    }
}

/// Reads an image and writes the recording of so many of its steps, in which the world gives the answers.
pub(crate) fn record_steps<S: Source, T: Sink, W: World>(
    alloc: Global,
    steps: u64,
    source: &mut S,
    sink: &mut T,
    world: &mut W,
) -> Status
    requires some { 0 < steps }
    requires most { steps ≤ 2 ^ 27 }
    ensures records { IsSome (S.left source.old) → (input : List ℕ) → Begins (S.given source.new) input
        → Records steps (input_behind (S.given source.old) input)
        (MayBeWhole (S.left source.new) (S.given source.new) input) (input ≡ S.given source.new)
        (W.answers world.old) (W.answers world.new) (T.held sink.old) (T.held sink.new) result }
    ensures consumes { IsSome (S.left source.old)
        → Consumes (S.left source.old) (S.given source.old) (S.left source.new) (S.given source.new)
        (Judges false result) }
    ensures kind { IsRecordStatus result }
    ensures untouched { IsUntouched false result → sink.new ≡ sink.old }
    ensures unasked { IsUntouched false result → world.new ≡ world.old }
    ensures read_cause { CausedBy Status.ReadFault (S.faults source.old) (S.faults source.new) result }
    ensures write_cause { CausedBy Status.WriteFault (T.faults sink.old) (T.faults sink.new) result }
    ensures world_cause { CausedBy Status.WorldFault (W.faults world.old) (W.faults world.new) result }
{
    match read_image(alloc, source) {
        Ok(image) => record_image(alloc, image, steps, sink, world),
        Err(status) => status,
    }
}

/// The same where the answers are those of a seed.
pub(crate) fn record_seed<S: Source, T: Sink>(
    alloc: Global,
    steps: u64,
    seed: u64,
    source: &mut S,
    sink: &mut T,
) -> Status
    requires some { 0 < steps }
    requires most { steps ≤ 2 ^ 27 }
    ensures answer { IsSome (S.left source.old) → (input : List ℕ) → Begins (S.given source.new) input
        → Answers (seeded steps seed) (input_behind (S.given source.old) input)
        (MayBeWhole (S.left source.new) (S.given source.new) input) (input ≡ S.given source.new) result }
    ensures leaves { IsSome (S.left source.old) → (input : List ℕ) → Begins (S.given source.new) input
        → Leaves (seeded steps seed) (input_behind (S.given source.old) input)
        (MayBeWhole (S.left source.new) (S.given source.new) input) (input ≡ S.given source.new) result
        (T.held sink.old) (T.held sink.new) }
    ensures asks { IsSome (S.left source.old) → (input : List ℕ) → Begins (S.given source.new) input
        → AsksSeed steps seed (input_behind (S.given source.old) input)
        (MayBeWhole (S.left source.new) (S.given source.new) input) result }
    ensures consumes { IsSome (S.left source.old)
        → Consumes (S.left source.old) (S.given source.old) (S.left source.new) (S.given source.new)
        (Judges false result) }
    ensures kind { IsSeededStatus result }
    ensures untouched { IsUntouched false result → sink.new ≡ sink.old }
    ensures read_cause { CausedBy Status.ReadFault (S.faults source.old) (S.faults source.new) result }
    ensures write_cause { CausedBy Status.WriteFault (T.faults sink.old) (T.faults sink.new) result }
{
    let mut world = SeedTold::new(seed);
    record_steps(alloc, steps, source, sink, &mut world)
}
