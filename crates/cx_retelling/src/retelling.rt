//! Going through a slice, and telling its observations.

ghost use Rattle.std.specs.Bool.{OnFalse};
ghost use Rattle.std.specs.Prelude.{◌≡◌, ◌+◌, ◌≤◌, ◌^◌, [], List, ℕ, None, Option, unwrap_or, length};
ghost use Rattle.std.specs.Prelude.{true, false, IfErr, IfOk, IsSome, IsTrue, OnOk, if◌then◌else◌};
ghost use Rattle.cx_alone.specs.Ahead.{MayBeInput};
ghost use Rattle.cx_io.specs.Cause.{HasCause};
ghost use Rattle.cx_codec.specs.Place.{Place, end_of};
ghost use Rattle.cx_codec.specs.Reads.{Begins, over, place_in};
ghost use Rattle.cx_map.specs.Bytes.{AreBytes};
ghost use Rattle.cx_observe.specs.declared.obs.Obs.{Obs};
ghost use Rattle.cx_replay.specs.Records.{GaveMore, MayBeWhole};
ghost use Rattle.cx_commands.specs.Doing.{Does, Judges, ended};
ghost use Rattle.cx_commands.specs.Streaming.{IsStreamRefusal, Told};
ghost use Rattle.cx_retelling.specs.Through.{HasTold, RetellsOn, retelling};

use crate::slice_replay::SliceReplay;
use cx_codec::Bytes;
use cx_commands::Status;
use cx_io::{Sink, Source};
use cx_observe::Obs;
use cx_tellers::ObservationTeller;
use std::alloc::Global;

// The most steps that a slice has.
const STEP_LIMIT: u64 = 1 << 48;

// Gives the next observation, and tells it; false where the slice was gone through to its end. Behind more steps than a
// slice has it ends as want of memory does.
fn retell_next<R: SliceReplay, L: ObservationTeller, S: Source, T: Sink>(
    replay: &mut R,
    teller: &mut L,
    source: &mut S,
    sink: &mut T,
) -> Result<bool, Status>
    requires going { R.going replay.old }
    requires ready { L.ready teller.old }
    requires takes { (o : Obs) → R.gives o → L.takes o }
    ensures follows { IsSome (S.left source.old) → GaveMore (S.left source.old) (S.given source.old) (S.left source.new)
        (S.given source.new) }
    ensures tells { IsSome (S.left source.old) → (input : List ℕ)
        → MayBeInput (S.left source.new) (S.given source.new) input → (p : Place) (base : Option (List ℕ))
        → HasTold (λ os. R.stands p os replay.old (S.left source.old) (S.given source.old) input)
        (λ os. Told base (L.text os) (L.waiting teller.old) (T.held sink.old) (L.keeps teller.old os))
        → RetellsOn L.text (R.through p) (end_of p)
        (λ os. R.stands p os replay.new (S.left source.new) (S.given source.new) input)
        (λ os. Told base (L.text os) (L.waiting teller.new) (T.held sink.new) (L.keeps teller.new os))
        (input ≡ S.given source.new) base (T.held sink.new) result }
    ensures last { IsSome (S.left source.old) → R.last replay.old (S.left source.old)
        → OnOk result (R.last replay.new (S.left source.new)) }
    ensures spent { IsSome (S.left source.old) → R.last replay.old (S.left source.old)
        → IfOk result (λ going. OnFalse going (unwrap_or (S.left source.new) [] ≡ [])) }
    ensures going { OnOk result (R.going replay.new) }
    ensures ready { OnOk result (L.ready teller.new) }
    ensures at { IfOk result (λ going. R.count replay.new
        ≡ (if going then R.count replay.old + 1 else R.count replay.old)) }
    ensures most { OnOk result (R.count replay.old ≤ 2 ^ 48) }
    ensures kind { IfErr result (IsStreamRefusal false) }
    ensures read_cause { HasCause Status.ReadFault (S.faults source.old) (S.faults source.new) result }
    ensures write_cause { HasCause Status.WriteFault (T.faults sink.old) (T.faults sink.new) result }
{
    if replay.steps() > STEP_LIMIT {
        return Err(Status::NoMemory);
    }
    match replay.give(source)? {
        Some(obs) => {
            teller.tell(&obs, sink)?;
            Ok(true)
        }
        None => Ok(false),
    }
}

// Goes through an opened slice to its end, and tells its observations.
fn retell_all<R: SliceReplay, L: ObservationTeller, S: Source, T: Sink>(
    alloc: Global,
    replay: R,
    source: &mut S,
    sink: &mut T,
) -> Result<(), Status>
    requires going { R.going replay }
    requires takes { (o : Obs) → R.gives o → L.takes o }
    ensures follows { IsSome (S.left source.old) → GaveMore (S.left source.old) (S.given source.old) (S.left source.new)
        (S.given source.new) }
    ensures does { IsSome (S.left source.old) → (input text : List ℕ) → Begins (S.given source.new) input
        → (p : Place) → end_of p ≡ length text
        → (MayBeWhole (S.left source.new) (S.given source.new) input
        → R.stands p [] replay (S.left source.old) (S.given source.old) input)
        → Does (retelling L.text L.full (R.through p)) text (MayBeWhole (S.left source.new) (S.given source.new) input)
        (input ≡ S.given source.new) (T.held sink.old) (T.held sink.new) result }
    ensures spent { IsSome (S.left source.old) → R.last replay (S.left source.old) → Judges true (ended result)
        → unwrap_or (S.left source.new) [] ≡ [] }
    ensures kind { IfErr result (IsStreamRefusal false) }
    ensures read_cause { HasCause Status.ReadFault (S.faults source.old) (S.faults source.new) result }
    ensures write_cause { HasCause Status.WriteFault (T.faults sink.old) (T.faults sink.new) result }
{
    let mut replay = replay;
    let mut teller = L::start(alloc, sink)?;
    let mut going = true;
    while going {
        going = retell_next(&mut replay, &mut teller, source, sink)?;
    }
    teller.finish(sink)?;
    Ok(())
}

/// Goes through a slice alone, behind its magic, and tells its observations as its steps are settled. What it does is
/// told by what the slice goes through: `Format` and `Broken` come exactly by its first bad place, `ReadFault` and
/// `WriteFault` only where the source's or the sink's count of faults rose, and `NoMemory` where memory is refused.
pub fn retell<R: SliceReplay, L: ObservationTeller, S: Source, T: Sink>(
    alloc: Global,
    bytes: Bytes,
    source: &mut S,
    sink: &mut T,
) -> Result<(), Status>
    requires live { IsTrue bytes.live }
    requires takes { (o : Obs) → R.gives o → L.takes o }
    ensures follows { IsSome (S.left source.old) → GaveMore (S.left source.old) (S.given source.old) (S.left source.new)
        (S.given source.new) }
    ensures does { IsSome (S.left source.old) → (input text : List ℕ) → Begins (S.given source.new) input
        → AreBytes (place_in (over bytes None (S.given source.old)) input).ahead
        → end_of (place_in (over bytes None (S.given source.old)) input) ≡ length text
        → Does (retelling L.text L.full (R.through (place_in (over bytes None (S.given source.old)) input))) text
        (MayBeWhole (S.left source.new) (S.given source.new) input) (input ≡ S.given source.new) (T.held sink.old)
        (T.held sink.new) result }
    ensures spent { IsSome (S.left source.old) → Judges true (ended result) → unwrap_or (S.left source.new) [] ≡ [] }
    ensures kind { IfErr result (IsStreamRefusal false) }
    ensures read_cause { HasCause Status.ReadFault (S.faults source.old) (S.faults source.new) result }
    ensures write_cause { HasCause Status.WriteFault (T.faults sink.old) (T.faults sink.new) result }
{
    let replay = R::open(alloc, bytes, source)?;
    retell_all::<R, L, S, T>(alloc, replay, source, sink)
}
