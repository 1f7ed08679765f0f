//! Gathering the bytes of a head.

ghost use Rattle.std.specs.Bool.{OnTrue};
ghost use Rattle.std.specs.Prelude.{◌≡◌, ◌<◌, false, IfOk, IsSome, IsTrue, OnOk};
ghost use Rattle.cx_codec.specs.Reads.{Goes, Reads, always, over};
ghost use Rattle.cx_callfmt.specs.Engine.{NoneLeft, bytes_left};
ghost use Rattle.cx_callfmt.specs.Gathering.{as_taken, bytes_onto, call_met, one_onto};

use crate::fault::CallFault;
use crate::reader::CallReader;
use cx_io::Source;

// Puts the next byte behind those that there are, and answers whether there was one.
fn take_byte<S: Source>(
    reader: &mut CallReader,
    into: &mut Vec<(u32, u8)>,
    source: &mut S,
) -> Result<bool, CallFault>
    requires live { IsTrue reader.old.input.live }
    ensures reads { IsSome (S.left source.old) → Reads call_met (as_taken into.new.items reader.new.pending)
        (one_onto into.old.items reader.old.pending)
        (over reader.old.input (S.left source.old) (S.given source.old))
        (over reader.new.input (S.left source.new) (S.given source.new)) result }
    ensures less { IfOk result (λ more. OnTrue more (bytes_left reader.new.pending < bytes_left reader.old.pending)) }
    ensures none { IfOk result (λ more. more ≡ false → NoneLeft reader.new.pending) }
    ensures behind { reader.new.behind ≡ reader.old.behind }
    ensures ended { reader.new.ended ≡ reader.old.ended }
    ensures goes { Goes CallFault.ReadFault reader.old.input reader.new.input (S.faults source.old)
        (S.faults source.new) result }
{
    match reader.next_byte(source)? {
        None => Ok(false),
        Some(byte) => match into.push(byte) {
            Ok(()) => Ok(true),
            Err(_) => {
                reader.refuse();
                Err(CallFault::NoMemory)
            }
        },
    }
}

/// Reads all bytes that are left of a head, and puts them behind those that there are. `Format` comes exactly where a
/// field is bad: an address isn't above the last run's with a gap, a run is empty or passes the last address, or a field
/// isn't whole. `ReadFault` comes only where the source's count of faults rose, and `NoMemory` where memory is refused.
/// After a refusal the reader has ended.
pub fn gather_bytes<S: Source>(
    reader: &mut CallReader,
    into: &mut Vec<(u32, u8)>,
    source: &mut S,
) -> Result<(), CallFault>
    requires live { IsTrue reader.old.input.live }
    ensures reads { IsSome (S.left source.old) → Reads call_met (always into.new.items)
        (bytes_onto into.old.items reader.old.pending)
        (over reader.old.input (S.left source.old) (S.given source.old))
        (over reader.new.input (S.left source.new) (S.given source.new)) result }
    ensures none { OnOk result (NoneLeft reader.new.pending) }
    ensures behind { reader.new.behind ≡ reader.old.behind }
    ensures ended { reader.new.ended ≡ reader.old.ended }
    ensures goes { Goes CallFault.ReadFault reader.old.input reader.new.input (S.faults source.old)
        (S.faults source.new) result }
{
    let _ = reader.at();
    let mut more = true;
    while more {
        more = take_byte(reader, into, source)?;
    }
    Ok(())
}
