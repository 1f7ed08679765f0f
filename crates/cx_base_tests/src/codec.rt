//! Fields and their spellings, worked out by hand, over sources and sinks that give or take little, or fail.

ghost use Rattle.std.specs.Prelude.{◌≡◌, is_ok, IsTrue};

use cx_codec::{Bytes, BytesFault, Out, OutFault};
use cx_io::{Failed, MemSink, MemSource, Sink, SinkRefusal, Source};
use std::alloc::Global;
use std::process::Abort;
use std::test::Fail;

/// What is read: a field, or whether the input ends.
#[derive(Clone, Copy, Debug)]
enum Field {
    Byte,
    Word,
    Varint,
    ThreeBytes,
    End,
}

/// Reads the field as a number: of bytes the first is the highest, and 1 says that the input ends.
fn read_field<S: Source>(field: Field, bytes: &mut Bytes, source: &mut S) -> Result<u64, BytesFault>
    requires { IsTrue bytes.old.live }
    ensures { bytes.new.live ≡ is_ok result }
{
    match field {
        Field::Byte => Ok(bytes.byte(source)? as u64),
        Field::Word => Ok(bytes.word(source)? as u64),
        Field::Varint => bytes.varint(source),
        Field::ThreeBytes => {
            let mut into = [0; 3];
            bytes.take(&mut into, source)?;
            Ok(u32::from_be_bytes([0, into[0], into[1], into[2]]) as u64)
        }
        Field::End => Ok(bytes.at_end(source)? as u64),
    }
}

/// Reads a byte, sets the limit so many bytes behind it, and reads the field. Answers the number and where the reader
/// stands then, or the offset at which the field is bad.
fn read_second<S: Source>(
    alloc: Global,
    field: Field,
    room: u32,
    source: &mut S,
) -> Result<Result<(u64, u64), u64>, Fail> {
    let mut bytes = Bytes::new(alloc)?;
    bytes.byte(source)?;
    let limit = bytes.at() + room as u64;
    bytes.set_limit(limit);
    match read_field(field, &mut bytes, source) {
        Ok(number) => Ok(Ok((number, bytes.at()))),
        Err(BytesFault::Bad(offset)) => Ok(Err(offset)),
        Err(fault) => Err(Fail::from(fault)),
    }
}

/// Gives one byte a call.
#[derive(Drop)]
struct Drip {
    bytes: Vec<u8>,
    at: usize,
}

impl Source for Drip {
    ghost use Rattle.std.specs.Prelude.{None, []};

    ghost left = { λ s. None };

    ghost given = { λ s. [] };

    ghost faults = { λ s. 0 };

    fn tells_bytes(&self) {}

    fn read(&mut self, buf: &mut [u8]) -> Result<usize, Failed> {
        if buf.is_empty() || self.at >= self.bytes.len() {
            return Ok(0);
        }
        buf[0] = self.bytes[self.at];
        self.at += 1;
        Ok(1)
    }
}

/// Sees that the field behind a byte is read as wanted: the number and where it ends, or the offset at which it is bad.
/// It is the same from a source that gives one byte a call.
fn reads(
    rt: &impl Abort,
    alloc: Global,
    field: Field,
    input: &[u8],
    room: u32,
    want: Result<(u64, u64), u64>,
) -> Result<(), Fail> {
    let mut whole = MemSource::new(input.to_vec(alloc)?, Vec::new(alloc));
    let mut drip = Drip {
        bytes: input.to_vec(alloc)?,
        at: 0,
    };
    let read = read_second(alloc, field, room, &mut whole)?;
    assert_eq!(rt; read, want, "{field:?} of {input:?}");
    let read = read_second(alloc, field, room, &mut drip)?;
    assert_eq!(rt; read, want, "{field:?} of {input:?}");
    Ok(())
}

#[test]
fn fields_are_read_behind_a_byte(rt: HostRuntime) -> Result<(), Fail> {
    let alloc = rt.alloc();
    let far = u32::MAX;
    for (field, input, room, want) in [
        (Field::Varint, b"\xee\x00".as_slice(), far, Ok((0, 2))),
        (Field::Varint, b"\xee\x7f", far, Ok((127, 2))),
        (Field::Varint, b"\xee\x80\x01", far, Ok((128, 3))),
        (Field::Varint, b"\xee\xac\x02\x02", far, Ok((300, 3))),
        (
            Field::Varint,
            b"\xee\xff\xff\xff\xff\xff\xff\xff\xff\xff\x01",
            10,
            Ok((u64::MAX, 11)),
        ),
        (Field::Varint, b"\xee\x80\x00", far, Err(1)),
        (
            Field::Varint,
            b"\xee\xff\xff\xff\xff\xff\xff\xff\xff\xff\xff",
            far,
            Err(1),
        ),
        (
            Field::Varint,
            b"\xee\x80\x80\x80\x80\x80\x80\x80\x80\x80\x02",
            far,
            Err(1),
        ),
        (Field::Varint, b"\xee", far, Err(1)),
        (Field::Varint, b"\xee\x80", far, Err(2)),
        (
            Field::Varint,
            b"\xee\xff\xff\xff\xff\xff\xff\xff\xff\xff",
            far,
            Err(10),
        ),
        (Field::Varint, b"\xee\x80\x01", 1, Err(2)),
        (Field::Varint, b"\xee\x80", 1, Err(2)),
        (Field::Byte, b"\xee\xff", far, Ok((255, 2))),
        (Field::Byte, b"\xee", far, Err(1)),
        (Field::Byte, b"\xee\xff", 0, Err(1)),
        (
            Field::Word,
            b"\xee\x01\x02\x03\x04",
            4,
            Ok((0x0403_0201, 5)),
        ),
        (Field::Word, b"\xee\x01\x02\x03", far, Err(4)),
        (Field::Word, b"\xee\x01\x02\x03\x04", 2, Err(3)),
        (Field::ThreeBytes, b"\xeeabc", 3, Ok((0x61_6263, 4))),
        (Field::ThreeBytes, b"\xeeab", far, Err(3)),
        (Field::ThreeBytes, b"\xeeabc", 1, Err(2)),
        (Field::End, b"\xee", 0, Ok((1, 1))),
        (Field::End, b"\xee\x00", 1, Ok((0, 1))),
        (Field::End, b"\xee\x00", 0, Err(1)),
    ] {
        reads(&rt, alloc, field, input, room, want)?;
    }
    Ok(())
}

#[test]
fn a_fault_of_the_second_read_is_told(rt: HostRuntime) -> Result<(), Fail> {
    let alloc = rt.alloc();
    for field in [
        Field::Byte,
        Field::Word,
        Field::Varint,
        Field::ThreeBytes,
        Field::End,
    ] {
        let mut source = MemSource::new(vec![in alloc; 1u8; 5000]?, [1].to_vec(alloc)?);
        let mut bytes = Bytes::new(alloc)?;
        bytes.take(&mut [0; 4096], &mut source)?;
        let read = read_field(field, &mut bytes, &mut source);
        assert_eq!(rt; read, Err(BytesFault::ReadFault), "{field:?}");
        assert!(rt; !bytes.live(), "{field:?}");
    }
    Ok(())
}

#[test]
fn fields_are_spelled(rt: HostRuntime) -> Result<(), Fail> {
    let alloc = rt.alloc();
    let mut sink = MemSink::new(alloc, Vec::new(alloc));
    let mut out = Out::new(alloc)?;
    out.put_byte(0xab, &mut sink)?;
    out.put_word(0x0102_0304, &mut sink)?;
    out.put_varint(300, &mut sink)?;
    out.put_varint(u64::MAX, &mut sink)?;
    out.put_bytes(b"xyz", &mut sink)?;
    assert!(rt; out.live());
    assert!(rt; sink.bytes().is_empty());
    out.finish(&mut sink)?;
    assert_eq!(rt;
        sink.bytes(),
        b"\xab\x04\x03\x02\x01\xac\x02\xff\xff\xff\xff\xff\xff\xff\xff\xff\x01xyz".as_slice()
    );
    Ok(())
}

/// Takes at most 1,000 bytes a call, and counts them and its calls.
#[derive(Drop)]
struct Narrow {
    writes: u64,
    bytes: u64,
    flushes: u64,
}

impl Sink for Narrow {
    ghost use Rattle.std.specs.Prelude.{None};

    ghost held = { λ s. None };

    ghost faults = { λ s. 0 };

    fn write(&mut self, bytes: &[u8]) -> Result<usize, SinkRefusal> {
        let count = bytes.len().min(1000);
        self.writes = self.writes.saturating_add(1);
        self.bytes = self.bytes.saturating_add(count as u64);
        Ok(count)
    }

    fn flush(&mut self) -> Result<(), SinkRefusal> {
        self.flushes = self.flushes.saturating_add(1);
        Ok(())
    }
}

/// The writes, the bytes and the flushes that a sink counts once so many bytes are put, and once they are finished.
fn counts_of(alloc: Global, size: usize) -> Result<[[u64; 3]; 2], Fail> {
    let mut sink = Narrow {
        writes: 0,
        bytes: 0,
        flushes: 0,
    };
    let mut out = Out::new(alloc)?;
    out.put_bytes(&vec![in alloc; 7u8; size]?, &mut sink)?;
    let put = [sink.writes, sink.bytes, sink.flushes];
    out.finish(&mut sink)?;
    Ok([put, [sink.writes, sink.bytes, sink.flushes]])
}

#[test]
fn whole_blocks_go_to_the_sink(rt: HostRuntime) -> Result<(), Fail> {
    for (size, want) in [
        (0, [[0, 0, 0], [0, 0, 1]]),
        (4095, [[0, 0, 0], [5, 4095, 1]]),
        (4096, [[5, 4096, 0], [5, 4096, 1]]),
        (4097, [[5, 4096, 0], [6, 4097, 1]]),
        (10000, [[10, 8192, 0], [12, 10000, 1]]),
    ] {
        assert_eq!(rt; counts_of(rt.alloc(), size)?, want, "{size} bytes");
    }
    Ok(())
}

/// What the sink's calls answer while so many bytes are put and finished, of which one is to fail, and how many bytes
/// it holds then.
fn put_and_finish(
    alloc: Global,
    size: usize,
    fails: u64,
) -> Result<(Result<(), OutFault>, Result<(), OutFault>, usize), Fail> {
    let mut sink = MemSink::new(alloc, [fails].to_vec(alloc)?);
    let mut out = Out::new(alloc)?;
    let put = out.put_bytes(&vec![in alloc; 7u8; size]?, &mut sink);
    let finished = if out.live() {
        out.finish(&mut sink)
    } else {
        put
    };
    Ok((put, finished, sink.bytes().len()))
}

#[test]
fn a_fault_of_the_sink_is_told(rt: HostRuntime) -> Result<(), Fail> {
    let failed = Err(OutFault::WriteFault);
    for (size, fails, want) in [
        (4096, 0, (failed, failed, 0)),
        (10, 0, (Ok(()), failed, 0)),
        (10, 1, (Ok(()), failed, 10)),
        (8193, 1, (failed, failed, 4096)),
        (8193, 3, (Ok(()), failed, 8193)),
        (8193, 4, (Ok(()), Ok(()), 8193)),
    ] {
        let answers = put_and_finish(rt.alloc(), size, fails)?;
        assert_eq!(rt; answers, want, "{size} bytes, call {fails}");
    }
    Ok(())
}
