//! Reading a record of a call slice, with the bytes of its head.

ghost use Rattle.std.specs.Prelude.{◌≡◌, ℕ, List, None, IfErr, IfOk, IsSome, IsTrue, OnOk};
ghost use Rattle.cx_alone.specs.Ahead.{EndIsLast, MayBeInput};
ghost use Rattle.cx_codec.specs.Place.{end_of};
ghost use Rattle.cx_codec.specs.Reads.{Goes, Reads, over};
ghost use Rattle.cx_io.specs.Cause.{HasCause};
ghost use Rattle.cx_map.specs.Bytes.{AreBytes};
ghost use Rattle.cx_replay.specs.Records.{GaveMore};
ghost use Rattle.cx_callfmt.specs.Beginning.{head_behind};
ghost use Rattle.cx_callfmt.specs.Engine.{NoneLeft, head_in};
ghost use Rattle.cx_callfmt.specs.Handing.{before_runs};
ghost use Rattle.cx_callfmt.specs.Scan.{scan_records};
ghost use Rattle.cx_call_alone.specs.Ahead.{GoesOnCalls, place_called};
ghost use Rattle.cx_call_alone.specs.Settling.{IsNotBroken, ReadsOnCalls, replay_met, replay_of_call};
ghost use Rattle.cx_call_alone.specs.Standing.{head_held};

use crate::items::{CallItems, HeadItems, Told};
use cx_alone::replay_fault;
use cx_callfmt::{CallFault, CallFound, CallReader, HeadFound, gather_bytes};
use cx_io::Source;
use cx_replay::ReplayFault;
use std::alloc::Global;

// What the fault of gathering a head becomes.
fn call_fault(fault: CallFault) -> ReplayFault
    ensures { result ≡ replay_of_call fault }
{
    match fault {
        CallFault::Format(offset) => ReplayFault::Format(offset),
        CallFault::ReadFault => ReplayFault::ReadFault,
        CallFault::NoMemory => ReplayFault::NoMemory,
    }
}

/// Reads the bytes of a head behind what it begins with. `NoMemory` is free.
pub(crate) fn read_head<S: Source>(
    alloc: Global,
    reader: &mut CallReader,
    found: HeadFound,
    source: &mut S,
) -> Result<HeadItems, ReplayFault>
    requires live { IsTrue reader.old.input.live }
    requires runs { reader.old.pending ≡ before_runs found.runs }
    ensures reads { IsSome (S.left source.old) → Reads replay_met head_held (head_behind (head_in found))
        (over reader.old.input (S.left source.old) (S.given source.old))
        (over reader.new.input (S.left source.new) (S.given source.new)) result }
    ensures none { OnOk result (NoneLeft reader.new.pending) }
    ensures behind { reader.new.behind ≡ reader.old.behind }
    ensures ended { reader.new.ended ≡ reader.old.ended }
    ensures kind { IfErr result IsNotBroken }
    ensures goes { Goes ReplayFault.ReadFault reader.old.input reader.new.input (S.faults source.old)
        (S.faults source.new) result }
{
    let words = found.words;
    let mut bytes = Vec::new(alloc);
    match gather_bytes(reader, &mut bytes, source) {
        Ok(()) => Ok(HeadItems { words, bytes }),
        Err(fault) => Err(call_fault(fault)),
    }
}

/// Reads a record and its step, or the number of steps, where the end comes. `NoMemory` is free.
pub(crate) fn read_record<S: Source>(
    alloc: Global,
    reader: &mut CallReader,
    source: &mut S,
) -> Result<(u64, Option<Told>), ReplayFault>
    requires live { IsTrue reader.old.input.live }
    requires none { NoneLeft reader.old.pending }
    requires open { reader.old.ended ≡ None }
    ensures follows { IsSome (S.left source.old)
        → GaveMore (S.left source.old) (S.given source.old) (S.left source.new) (S.given source.new) }
    ensures reads { IsSome (S.left source.old) → (input : List ℕ)
        → MayBeInput (S.left source.new) (S.given source.new) input
        → AreBytes (place_called reader.old (S.given source.old) input).ahead
        → ReadsOnCalls (scan_records reader.old.behind (place_called reader.old (S.given source.old) input))
        reader.old.behind (end_of (place_called reader.old (S.given source.old) input))
        (place_called reader.new (S.given source.new) input) (S.left source.new) (input ≡ S.given source.new) result }
    ensures stays { IsSome (S.left source.old) → (input : List ℕ)
        → MayBeInput (S.left source.new) (S.given source.new) input
        → end_of (place_called reader.old (S.given source.old) input)
        ≡ end_of (place_called reader.new (S.given source.new) input) }
    ensures last { IsSome (S.left source.old) → IfOk result (λ read. EndIsLast read.1 (S.left source.new)) }
    ensures going { IfOk result (λ read. GoesOnCalls read.0 read.1 reader.new) }
    ensures kind { IfErr result IsNotBroken }
    ensures cause { HasCause ReplayFault.ReadFault (S.faults source.old) (S.faults source.new) result }
{
    match reader.next(source) {
        Ok(CallFound::Items(index, found)) => {
            let head = read_head(alloc, reader, found, source)?;
            Ok((index, Some(Told::Items(head))))
        }
        Ok(CallFound::Value(index, word)) => Ok((index, Some(Told::Value(word)))),
        Ok(CallFound::Call(index, number, found)) => {
            let head = read_head(alloc, reader, found, source)?;
            Ok((index, Some(Told::Call(CallItems { number, head }))))
        }
        Ok(CallFound::End(count)) => Ok((count, None)),
        Err(fault) => Err(replay_fault(fault)),
    }
}
