//! One observation more, and the end.

ghost use Rattle.std.specs.Prelude.{◌≡◌, ◌+◌, ◌<◌, ◌≤◌, ◌^◌, ◌⊎◌, ◌++◌, List, [], ◌∷◌, false, IsTrue, OnErr, OnOk};
ghost use Rattle.cx_callfmt.specs.Writing.{AreKept};
ghost use Rattle.cx_calls.specs.Begun.{calls_added, calls_ending, last_text};
ghost use Rattle.cx_calls.specs.Gathers.{behind_last};
ghost use Rattle.cx_calls.specs.Slicing.{IsAnew, IsCalling, IsForSome, IsHeldBack, MayPut};
ghost use Rattle.cx_codec.specs.Puts.{Finishes, Puts, onto};
ghost use Rattle.cx_observe.specs.Possible.{Possible};
ghost use Rattle.cx_observe.specs.declared.obs.Obs.{Obs};
ghost use Rattle.cx_placing.specs.Gathering.{AreApart};
ghost use Rattle.cx_slices.specs.Bytes.{sorted};

use crate::gatherer::Gatherer;
use crate::items::called;
use crate::letting::let_go;
use cx_callfmt::CallWriter;
use cx_codec::OutFault;
use cx_io::Sink;
use cx_observe::Obs;

// Puts what was gathered up to the call at an index, and begins anew behind it.
fn pass_call<T: Sink>(
    gatherer: &mut Gatherer,
    writer: &mut CallWriter,
    index: u64,
    number: u32,
    sink: &mut T,
) -> Result<(), OutFault>
    requires live { IsTrue writer.old.output.live }
    requires comes { MayPut gatherer.old.last writer.old.behind }
    requires apart { AreApart gatherer.old.missed.items }
    requires kept { AreKept (behind_last gatherer.old.last) gatherer.old.behind }
    ensures puts { Puts OutFault.WriteFault
        (last_text writer.old.behind.index gatherer.old.last
        (record { words = gatherer.old.words; bytes = sorted gatherer.old.missed.items }) ++ gatherer.old.behind.text)
        (onto writer.old.output (T.held sink.old) (T.faults sink.old))
        (onto writer.new.output (T.held sink.new) (T.faults sink.new)) result }
    ensures behind { OnOk result (writer.new.behind ≡ gatherer.old.behind.behind) }
    ensures anew { OnOk result (IsAnew index number gatherer.old gatherer.new) }
    ensures count { gatherer.new.count ≡ gatherer.old.count }
{
    let_go(
        writer,
        gatherer.last,
        &gatherer.words,
        &mut gatherer.missed,
        &gatherer.behind,
        sink,
    )?;
    gatherer.restart(index, number);
    Ok(())
}

/// Takes the next observation, and where it is a call puts what was gathered up to it. Room is made first: where that
/// is refused nothing is put, and nothing has changed.
pub(crate) fn take_next<T: Sink>(
    gatherer: &mut Gatherer,
    writer: &mut CallWriter,
    obs: &Obs,
    sink: &mut T,
) -> Result<(), OutFault>
    requires live { IsTrue writer.old.output.live }
    requires possible { Possible obs.now }
    requires most { gatherer.old.count < 2 ^ 48 }
    requires calling { IsForSome gatherer.old writer.old }
    ensures stands { (os : List Obs) → IsCalling os gatherer.old writer.old
        → OnOk result (IsCalling (os ++ obs.now ∷ []) gatherer.new writer.new) }
    ensures puts { IsHeldBack result gatherer.old gatherer.new writer.old writer.new sink.old sink.new
        ⊎ ((os : List Obs) → IsCalling os gatherer.old writer.old → Puts OutFault.WriteFault (calls_added os obs.now)
        (onto writer.old.output (T.held sink.old) (T.faults sink.old))
        (onto writer.new.output (T.held sink.new) (T.faults sink.new)) result) }
    ensures refused { OnErr result (IsHeldBack result gatherer.old gatherer.new writer.old writer.new sink.old sink.new
        ⊎ (writer.new.output.live ≡ false)) }
    ensures count { OnOk result (gatherer.new.count ≡ gatherer.old.count + 1) }
    ensures most { gatherer.new.count ≤ 2 ^ 48 }
{
    let index = gatherer.count;
    gatherer.take(obs)?;
    match called(obs) {
        None => Ok(()),
        Some(number) => pass_call(gatherer, writer, index, number, sink),
    }
}

/// Puts what was gathered and the end, and hands all to the sink.
pub(crate) fn finish<T: Sink>(
    gatherer: Gatherer,
    writer: CallWriter,
    sink: &mut T,
) -> Result<(), OutFault>
    requires live { IsTrue writer.output.live }
    requires some { 1 ≤ gatherer.count }
    requires most { gatherer.count ≤ 2 ^ 48 }
    requires calling { IsForSome gatherer writer }
    ensures { (os : List Obs) → IsCalling os gatherer writer
        → Finishes OutFault.WriteFault (calls_ending os)
        (onto writer.output (T.held sink.old) (T.faults sink.old)) (T.held sink.new) (T.faults sink.new) result }
{
    let mut gatherer = gatherer;
    let mut writer = writer;
    let_go(
        &mut writer,
        gatherer.last,
        &gatherer.words,
        &mut gatherer.missed,
        &gatherer.behind,
        sink,
    )?;
    writer.end(gatherer.count, sink)
}
