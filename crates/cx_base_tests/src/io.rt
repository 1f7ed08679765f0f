//! Happy paths, and calls that fail in mid-stream, each through its trait.

use cx_io::{
    ClockWorld, Failed, MemSink, MemSource, Outside, ScriptWorld, SeedWorld, Sink, SinkRefusal,
    Source, StdSink, StdSource, World,
};
use std::cell::Cell;
use std::io;
use std::io::{Read, Write};
use std::process::Abort;
use std::test::Fail;
use std::time::{Clock, Duration};

/// One read into four zeros.
fn read_four<S: Source>(source: &mut S) -> Result<(usize, [u8; 4]), Failed> {
    let mut buf = [0; 4];
    let count = source.read(&mut buf)?;
    Ok((count, buf))
}

#[test]
fn a_memory_source_fails_at_its_second_read(rt: HostRuntime) -> Result<(), Fail> {
    let alloc = rt.alloc();
    let mut source = MemSource::new([1, 2, 3, 4, 5, 6].to_vec(alloc)?, [1].to_vec(alloc)?);
    assert_eq!(rt; read_four(&mut source), Ok((4, [1, 2, 3, 4])));
    assert_eq!(rt; read_four(&mut source), Err(Failed));
    assert_eq!(rt; read_four(&mut source), Ok((2, [5, 6, 0, 0])));
    assert_eq!(rt; read_four(&mut source), Ok((0, [0; 4])));
    let mut steady = MemSource::new([9].to_vec(alloc)?, Vec::new(alloc));
    assert_eq!(rt; steady.read_surely(&mut [0; 4]), 1);
    Ok(())
}

/// Writes to the sink, whose calls number 0 and 3 are to fail.
fn write_and_flush<T: Sink>(rt: &impl Abort, sink: &mut T) {
    assert_eq!(rt; sink.write(b"ab"), Err(SinkRefusal::Failed));
    assert_eq!(rt; sink.write(b"abc"), Ok(3));
    assert_eq!(rt; sink.flush(), Ok(()));
    assert_eq!(rt; sink.flush(), Err(SinkRefusal::Failed));
    assert_eq!(rt; sink.write(b"d"), Ok(1));
}

#[test]
fn a_memory_sink_fails_at_its_first_write(rt: HostRuntime) -> Result<(), Fail> {
    let alloc = rt.alloc();
    let mut sink = MemSink::new(alloc, [0, 3].to_vec(alloc)?);
    write_and_flush(&rt, &mut sink);
    assert_eq!(rt; sink.bytes(), b"abcd".as_slice());
    let mut steady = MemSink::new(alloc, Vec::new(alloc));
    assert_eq!(rt; steady.write_surely(b"ef"), Ok(()));
    steady.flush_surely();
    assert_eq!(rt; steady.bytes(), b"ef".as_slice());
    Ok(())
}

/// Asks for 130 answers, of which those at the turns listed allow the console, and the block device.
fn answers_are<W: World>(
    rt: &impl Abort,
    world: &mut W,
    ticks: u32,
    console: &[u64],
    block: &[u64],
) -> Result<(), Fail> {
    for n in 0..130u64 {
        let answer = world.turn()?;
        assert_eq!(rt; answer.ticks, ticks, "turn {n}");
        assert_eq!(rt; answer.console, console.contains(&n), "turn {n}");
        assert_eq!(rt; answer.block, block.contains(&n), "turn {n}");
    }
    Ok(())
}

// The turns were computed from the rule by a script of Python, whose numbers don't wrap.
#[test]
fn a_seed_gives_its_answers(rt: HostRuntime) -> Result<(), Fail> {
    answers_are(
        &rt,
        &mut SeedWorld::new(0),
        1,
        &[0, 61, 122],
        &[0, 37, 74, 111],
    )?;
    answers_are(&rt, &mut SeedWorld::new(1), 2, &[60, 121], &[36, 73, 110])?;
    answers_are(
        &rt,
        &mut SeedWorld::new(u64::MAX),
        1,
        &[46, 107],
        &[26, 63, 100],
    )
}

/// Gives one byte, fails once, and is at its end then.
#[derive(Drop)]
struct Flaky {
    calls: u8,
}

impl Read for Flaky {
    fn read(&mut self, buf: &mut [u8]) -> io::Result<usize> {
        let call = self.calls;
        self.calls = call.saturating_add(1);
        if call == 1 {
            return Err(io::Error::other("flaky"));
        }
        if call > 1 || buf.is_empty() {
            return Ok(0);
        }
        buf[0] = 7;
        Ok(1)
    }
}

/// Fails once, then takes nothing once, and then one byte a call.
#[derive(Drop)]
struct Narrow {
    calls: u8,
}

impl Write for Narrow {
    fn write(&mut self, buf: &[u8]) -> io::Result<usize> {
        let call = self.calls;
        self.calls = call.saturating_add(1);
        match call {
            0 => Err(io::Error::other("narrow")),
            1 => Ok(0),
            _ => Ok(buf.len().min(1)),
        }
    }

    fn flush(&mut self) -> io::Result<()> {
        if self.calls > 2 {
            Ok(())
        } else {
            Err(io::Error::other("narrow"))
        }
    }
}

#[test]
fn streams_pass_on_what_their_handles_answer(rt: HostRuntime) {
    let mut source = StdSource::new(Flaky { calls: 0 });
    assert_eq!(rt; read_four(&mut source), Ok((1, [7, 0, 0, 0])));
    assert_eq!(rt; read_four(&mut source), Err(Failed));
    assert_eq!(rt; read_four(&mut source), Ok((0, [0; 4])));
    let mut sink = StdSink::new(Narrow { calls: 0 });
    assert_eq!(rt; sink.write(b"ab"), Err(SinkRefusal::Failed));
    assert_eq!(rt; sink.write(b"ab"), Err(SinkRefusal::Failed));
    assert_eq!(rt; sink.flush(), Err(SinkRefusal::Failed));
    assert_eq!(rt; sink.write(b"ab"), Ok(1));
    assert_eq!(rt; sink.flush(), Ok(()));
    assert_eq!(rt; StdSource::new(rt.stdin()).read(&mut []), Ok(0));
    assert_eq!(rt; StdSink::new(rt.stdout()).write(b""), Ok(0));
}

#[test]
fn a_script_gives_its_answers_and_then_nothing(rt: HostRuntime) -> Result<(), Fail> {
    let alloc = rt.alloc();
    let first = Outside {
        ticks: 7,
        console: true,
        block: false,
    };
    let quiet = Outside {
        ticks: 0,
        console: false,
        block: false,
    };
    let mut world = ScriptWorld::new([first].to_vec(alloc)?, [1].to_vec(alloc)?);
    assert_eq!(rt; world.turn(), Ok(first));
    assert_eq!(rt; world.turn(), Err(Failed));
    assert_eq!(rt; world.turn(), Ok(quiet));
    Ok(())
}

/// A clock that shows 0.9 microseconds more at each look, and can't be read at the fourth.
#[derive(Drop)]
struct Slow {
    looks: Cell<u64>,
}

impl Clock for Slow {
    fn monotonic(&self) -> io::Result<Duration> {
        let look = self.looks.get();
        self.looks.set(look.wrapping_add(1));
        if look == 3 {
            return Err(io::Error::other("slow"));
        }
        Ok(Duration::from_nanos(look.wrapping_mul(900)))
    }

    fn since_1970(&self) -> io::Result<Duration> {
        self.monotonic()
    }
}

#[test]
fn a_clock_counts_each_microsecond_once(rt: HostRuntime) {
    let mut world = ClockWorld::new(Slow {
        looks: Cell::new(0),
    });
    let ticks = [Some(0), Some(0), Some(1), None, Some(2), Some(1)];
    for wanted in ticks {
        let given = match world.turn() {
            Ok(answer) => Some(answer.ticks),
            Err(Failed) => None,
        };
        assert_eq!(rt; given, wanted);
    }
    assert!(rt; ClockWorld::new(&rt).turn().is_ok());
}
