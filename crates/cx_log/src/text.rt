//! Putting the parts of a recording.

ghost use Rattle.std.specs.Prelude.{◌≡◌, ◌+◌, ◌<◌, ◌≤◌, ◌^◌, [], ◌∷◌, ◌++◌, length, IsTrue};
ghost use Rattle.cx_codec.specs.Puts.{Puts, onto};
ghost use Rattle.cx_codec.specs.Varint.{varint};
ghost use Rattle.cx_log.specs.Item.{dma_event, payload_of};
ghost use Rattle.cx_log.specs.Kind.{tag_of};
ghost use Rattle.cx_log.specs.Text.{header_text, payload, version_text, words_text};

use crate::header::Header;
use crate::item::What;
use crate::kind::Kind;
use cx_codec::{Out, OutFault};
use cx_io::Sink;

// Puts words one after another.
fn put_words<T: Sink>(out: &mut Out, words: &[u32], sink: &mut T) -> Result<(), OutFault>
    requires { IsTrue out.old.live }
    ensures { Puts OutFault.WriteFault (words_text words.now)
        (onto out.old (T.held sink.old) (T.faults sink.old)) (onto out.new (T.held sink.new) (T.faults sink.new))
        result }
{
    for word in words {
        out.put_word(*word, sink)?;
    }
    Ok(())
}

// Puts what announces the version.
fn put_version<T: Sink>(
    out: &mut Out,
    version: u8,
    split: bool,
    sink: &mut T,
) -> Result<(), OutFault>
    requires { IsTrue out.old.live }
    ensures { Puts OutFault.WriteFault (version_text version split)
        (onto out.old (T.held sink.old) (T.faults sink.old)) (onto out.new (T.held sink.new) (T.faults sink.new))
        result }
{
    if version == 1 {
        return Ok(());
    }
    out.put_bytes(&[0, u8::from(split)], sink)
}

/// Puts what stands before the pages.
pub(crate) fn put_header<T: Sink>(
    out: &mut Out,
    header: &Header,
    sink: &mut T,
) -> Result<(), OutFault>
    requires { IsTrue out.old.live }
    ensures { Puts OutFault.WriteFault (header_text header.now)
        (onto out.old (T.held sink.old) (T.faults sink.old)) (onto out.new (T.held sink.new) (T.faults sink.new))
        result }
{
    out.put_bytes(b"CXR1", sink)?;
    put_version(out, header.version, header.split, sink)?;
    out.put_varint(header.pages as u64, sink)?;
    out.put_varint(header.base, sink)?;
    put_words(out, &header.start.to_words(), sink)?;
    out.put_varint(header.count as u64, sink)
}

/// Puts a page: its number and its bytes.
pub(crate) fn put_page<T: Sink>(
    out: &mut Out,
    number: u32,
    bytes: &[u8],
    sink: &mut T,
) -> Result<(), OutFault>
    requires { IsTrue out.old.live }
    ensures { Puts OutFault.WriteFault (varint number ++ bytes.now)
        (onto out.old (T.held sink.old) (T.faults sink.old)) (onto out.new (T.held sink.new) (T.faults sink.new))
        result }
{
    out.put_varint(number as u64, sink)?;
    out.put_bytes(bytes, sink)
}

/// Puts what a record of a kind begins with: its tag, and how far it is from the last one.
pub(crate) fn put_start<T: Sink>(
    out: &mut Out,
    kind: Kind,
    distance: u64,
    sink: &mut T,
) -> Result<(), OutFault>
    requires { IsTrue out.old.live }
    ensures { Puts OutFault.WriteFault (tag_of kind ∷ varint distance)
        (onto out.old (T.held sink.old) (T.faults sink.old)) (onto out.new (T.held sink.new) (T.faults sink.new))
        result }
{
    out.put_byte(kind.tag(), sink)?;
    out.put_varint(distance, sink)
}

/// Puts what a Dma holds.
pub(crate) fn put_dma<T: Sink>(
    out: &mut Out,
    place: u32,
    bytes: &[u8],
    sink: &mut T,
) -> Result<(), OutFault>
    requires { IsTrue out.old.live }
    ensures { Puts OutFault.WriteFault (payload (dma_event bytes.now place))
        (onto out.old (T.held sink.old) (T.faults sink.old)) (onto out.new (T.held sink.new) (T.faults sink.new))
        result }
{
    out.put_word(place, sink)?;
    out.put_varint(bytes.len() as u64, sink)?;
    out.put_bytes(bytes, sink)
}

/// Puts what any other record holds.
pub(crate) fn put_what<T: Sink>(out: &mut Out, what: &What, sink: &mut T) -> Result<(), OutFault>
    requires { IsTrue out.old.live }
    ensures { Puts OutFault.WriteFault (payload_of what.now)
        (onto out.old (T.held sink.old) (T.faults sink.old)) (onto out.new (T.held sink.new) (T.faults sink.new))
        result }
{
    match what {
        What::Lines(lines) => out.put_word(lines.0, sink),
        What::Value(value) => out.put_word(*value, sink),
        What::Dma(_) | What::Mark | What::End => Ok(()),
    }
}
