//! Putting what was gathered: the last call or the start, and the records behind it.

ghost use Rattle.std.specs.Prelude.{◌≡◌, ◌++◌, OnOk, IsTrue};
ghost use Rattle.cx_callfmt.specs.Writing.{AreKept};
ghost use Rattle.cx_calls.specs.Begun.{last_text};
ghost use Rattle.cx_calls.specs.Gathers.{behind_last};
ghost use Rattle.cx_calls.specs.Slicing.{MayPut};
ghost use Rattle.cx_codec.specs.Puts.{Puts, onto};
ghost use Rattle.cx_placing.specs.Gathering.{AreApart};
ghost use Rattle.cx_slices.specs.Bytes.{BytesRise, sorted};

use crate::sorting::sort;
use cx_callfmt::{CallWriter, KeptRecords};
use cx_codec::OutFault;
use cx_io::Sink;

// Puts the last call with what it is handed, or where there is none what the start is.
fn put_last<T: Sink>(
    writer: &mut CallWriter,
    last: Option<(u64, u32)>,
    words: &[Option<u32>; 32],
    bytes: &[(u32, u8)],
    sink: &mut T,
) -> Result<(), OutFault>
    requires live { IsTrue writer.old.output.live }
    requires comes { MayPut last writer.old.behind }
    requires rises { BytesRise 0 bytes.now }
    ensures puts { Puts OutFault.WriteFault
        (last_text writer.old.behind.index last (record { words = words.now; bytes = bytes.now }))
        (onto writer.old.output (T.held sink.old) (T.faults sink.old))
        (onto writer.new.output (T.held sink.new) (T.faults sink.new)) result }
    ensures behind { OnOk result (writer.new.behind ≡ behind_last last) }
{
    match last {
        None => writer.head(words, bytes, sink),
        Some((index, number)) => writer.call(index, number, words, bytes, sink),
    }
}

/// Puts the last call or the start with what it is handed, of the bytes each in its place, and the records behind it.
pub(crate) fn let_go<T: Sink>(
    writer: &mut CallWriter,
    last: Option<(u64, u32)>,
    words: &[Option<u32>; 32],
    missed: &mut Vec<(u32, u8)>,
    behind: &KeptRecords,
    sink: &mut T,
) -> Result<(), OutFault>
    requires live { IsTrue writer.old.output.live }
    requires comes { MayPut last writer.old.behind }
    requires apart { AreApart missed.old.items }
    requires kept { AreKept (behind_last last) behind.now }
    ensures puts { Puts OutFault.WriteFault
        (last_text writer.old.behind.index last (record { words = words.now; bytes = sorted missed.old.items })
        ++ behind.now.text)
        (onto writer.old.output (T.held sink.old) (T.faults sink.old))
        (onto writer.new.output (T.held sink.new) (T.faults sink.new)) result }
    ensures behind { OnOk result (writer.new.behind ≡ behind.now.behind) }
{
    sort(missed);
    put_last(writer, last, words, missed.as_slice(), sink)?;
    writer.kept(behind, sink)
}
