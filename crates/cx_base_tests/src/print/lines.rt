//! The lines of steps and states, worked out by hand.

use cx_codec::Out;
use cx_csr::Lines;
use cx_hart::{Ended, StepRec, Touch};
use cx_io::MemSink;
use cx_print::{state_line, step_line};
use std::alloc::Global;
use std::test::Fail;

/// A stretch of bytes.
fn touch(va: u32, pa: u32, len: u8, value: u32) -> Option<Touch> {
    Some(Touch {
        va,
        pa,
        len,
        bytes: value.to_le_bytes(),
    })
}

/// A line from what stands in front of its 58 words, those of them that aren't 0, and what stands behind them.
fn line(
    alloc: Global,
    front: &[u8],
    words: &[(usize, &[u8])],
    rest: &[u8],
) -> Result<Vec<u8>, Fail> {
    let mut line = front.to_vec(alloc)?;
    for index in 0..58usize {
        let mut text = b"00000000".as_slice();
        for (place, word) in words {
            if *place == index {
                text = word;
            }
        }
        line.push(b' ')?;
        line.extend_from_slice(text)?;
    }
    line.extend_from_slice(rest)?;
    line.push(b'\n')?;
    Ok(line)
}

/// What the line of a step puts into a sink.
fn step_put(alloc: Global, step: u64, rec: &StepRec) -> Result<Vec<u8>, Fail> {
    let mut sink = MemSink::new(alloc, Vec::new(alloc));
    let mut out = Out::new(alloc)?;
    step_line(&mut out, step, rec, &mut sink)?;
    out.finish(&mut sink)?;
    Ok(sink.bytes().to_vec(alloc)?)
}

/// `addi x1, x0, 5` at the beginning of RAM, in machine mode.
fn first_step() -> StepRec {
    let mut rec = StepRec::BLANK;
    rec.before.pc = 0x8000_0000;
    rec.before.mode = 3;
    rec.fetch = touch(0x8000_0000, 0x8000_0000, 4, 0x0050_0093);
    rec
}

#[test]
fn a_step_that_retires(rt: HostRuntime) -> Result<(), Fail> {
    let alloc = rt.alloc();
    let expected = line(
        alloc,
        b"step 0 retired state",
        &[(0, b"80000000"), (32, b"00000003")],
        b" fetch 80000000:80000000:00500093 read - write - value -",
    )?;
    assert_eq!(rt; step_put(alloc, 0, &first_step())?, expected);
    Ok(())
}

/// A load of a device's word, behind one step.
#[test]
fn a_step_that_takes_a_value(rt: HostRuntime) -> Result<(), Fail> {
    let alloc = rt.alloc();
    let mut rec = first_step();
    rec.before.pc = 0x8000_0004;
    rec.before.x[5] = 0x1000_0000;
    rec.before.csr.mcycle = 1;
    rec.before.csr.minstret = 1;
    rec.fetch = touch(0x8000_0004, 0x8000_0004, 4, 0x0042_a303);
    rec.read = touch(0x1000_0004, 0x1000_0004, 4, 1);
    rec.value = Some(1);
    let expected = line(
        alloc,
        b"step 1 retired state",
        &[
            (0, b"80000004"),
            (5, b"10000000"),
            (32, b"00000003"),
            (51, b"00000001"),
            (53, b"00000001"),
        ],
        b" fetch 80000004:80000004:0042a303 read 10000004:10000004:01000000 write - value 00000001",
    )?;
    assert_eq!(rt; step_put(alloc, 1, &rec)?, expected);
    Ok(())
}

/// An interrupt of the timer, and a page fault of a fetch.
#[test]
fn steps_that_end_elsewhere(rt: HostRuntime) -> Result<(), Fail> {
    let alloc = rt.alloc();
    let mut rec = StepRec::BLANK;
    rec.before.pc = 0x8000_0004;
    rec.before.mode = 3;
    rec.before.csr.mie = 0x80;
    rec.before.lines = Lines(0x80);
    rec.ended = Ended::Interrupt(7);
    let words = [
        (0, b"80000004".as_slice()),
        (32, b"00000003"),
        (36, b"00000080"),
        (57, b"00000080"),
    ];
    let nothing = b" fetch - read - write - value -";
    let expected = line(alloc, b"step 12 interrupt 7 state", &words, nothing)?;
    assert_eq!(rt; step_put(alloc, 12, &rec)?, expected);
    let mut rec = StepRec::BLANK;
    rec.before.pc = 0x1000;
    rec.before.csr.satp = 0x8008_0000;
    rec.ended = Ended::Trap(12);
    let words = [(0, b"00001000".as_slice()), (50, b"80080000")];
    let expected = line(
        alloc,
        b"step 281474976710655 trap 12 state",
        &words,
        nothing,
    )?;
    assert_eq!(rt; step_put(alloc, (1 << 48) - 1, &rec)?, expected);
    Ok(())
}

/// Accesses of two pages: bytes in rising address, and those past the length not shown.
#[test]
fn a_step_that_goes_on_in_the_next_page(rt: HostRuntime) -> Result<(), Fail> {
    let alloc = rt.alloc();
    let mut rec = first_step();
    rec.read = touch(0xffe, 0x8000_3ffe, 2, 0x2211);
    rec.read_more = touch(0x1000, 0x8000_2000, 2, 0xbbaa);
    rec.write = touch(0x1fff, 0x8000_4fff, 1, 0x01);
    rec.write_more = touch(0x2000, 0x8000_2000, 3, 0x0c0b0a);
    let expected = line(
        alloc,
        b"step 7 retired state",
        &[(0, b"80000000"), (32, b"00000003")],
        b" fetch 80000000:80000000:00500093 read 00000ffe:80003ffe:1122,00001000:80002000:aabb \
          write 00001fff:80004fff:01,00002000:80002000:0a0b0c value -",
    )?;
    assert_eq!(rt; step_put(alloc, 7, &rec)?, expected);
    Ok(())
}

#[test]
fn a_state(rt: HostRuntime) -> Result<(), Fail> {
    let alloc = rt.alloc();
    let mut sink = MemSink::new(alloc, Vec::new(alloc));
    let mut out = Out::new(alloc)?;
    let mut state = first_step().before;
    state.x[31] = 0xdead_beef;
    state.reservation = Some(0x8000_0010);
    state_line(&mut out, 150_000, &state, &mut sink)?;
    out.finish(&mut sink)?;
    let expected = line(
        alloc,
        b"state 150000",
        &[
            (0, b"80000000"),
            (31, b"deadbeef"),
            (32, b"00000003"),
            (55, b"00000001"),
            (56, b"80000010"),
        ],
        b"",
    )?;
    assert_eq!(rt; sink.bytes(), expected.as_slice());
    Ok(())
}
