//! The words of a head, which a mask announces.

ghost use Rattle.std.specs.Prelude.{◌≡◌, ◌%◌, ◌<◌, IsSome, IsTrue};
ghost use Rattle.cx_codec.specs.Reads.{Goes, Reads, over};
ghost use Rattle.cx_slicefmt.specs.Fault.{slice_met};
ghost use Rattle.cx_slicefmt.specs.Reading.{masked_at};

use crate::fields::word_if;
use cx_codec::Bytes;
use cx_io::Source;
use cx_slicefmt::SliceFault;

/// The words of a head: a mask, and a word for each of its bits.
pub(crate) fn masked<S: Source>(
    bytes: &mut Bytes,
    source: &mut S,
) -> Result<[Option<u32>; 32], SliceFault>
    requires live { IsTrue bytes.old.live }
    ensures reads { IsSome (S.left source.old) → Reads slice_met (λ words. words) masked_at
        (over bytes.old (S.left source.old) (S.given source.old))
        (over bytes.new (S.left source.new) (S.given source.new)) result }
    ensures goes { Goes SliceFault.ReadFault bytes.old bytes.new (S.faults source.old) (S.faults source.new) result }
{
    let mut mask = bytes.word(source)?;
    let mut words = [None; 32];
    let _ = bytes.at();
    for index in 0..32usize {
        let word = word_if(bytes, mask % 2, source)?;
        words[index] = word;
        mask /= 2;
    }
    Ok(words)
}
