//! The three ways to take a step, which go the same way: with the record as an answer, told in a record of the caller's
//! that was used before, and without a record.

ghost use Rattle.std.specs.Prelude.{◌≡◌, ◌<◌};

use crate::acting::transfer;
use cx_csr::{Lines, State};
use cx_hart::{Due, Machine, NoMemory, StepAnswer, StepRec, Steps, Went};
use std::alloc::Global;
use std::marker::Brand;
use std::process::Abort;
use std::sync::ledger::{Blank, Ledger};
use std::test::Fail;

/// Words, and the bits of them that are drawn. Loads and stores are from x1, words of devices from x3; x8 to x15 are
/// read and written.
const WORDS: [(u32, u32); 31] = [
    (0x0154_0413, 0xfff3_8380), // addi
    (0x0154_7413, 0xfff3_8380), // andi
    (0x0034_1413, 0x01f3_8380), // slli
    (0x4034_5413, 0x01f3_8380), // srai
    (0x0084_0433, 0x0073_8380), // add
    (0x4084_0433, 0x0073_8380), // sub
    (0x0284_0433, 0x0073_f380), // mul to remu
    (0x0000_0437, 0xffff_f380), // lui
    (0x0000_0417, 0xffff_f380), // auipc
    (0x0000_a403, 0x0ff0_0380), // lw, also misaligned
    (0x0000_d403, 0x0ff0_0380), // lhu, also misaligned
    (0x0000_8403, 0x0ff0_0380), // lb
    (0x0000_8003, 0x0ff0_0000), // lb to x0
    (0x0080_a023, 0x0e70_0f80), // sw, also misaligned
    (0x0080_9023, 0x0e70_0f80), // sh, also misaligned
    (0x0080_8023, 0x0e70_0f80), // sb
    (0x0001_a403, 0x0040_0380), // lw of a device
    (0x0081_a023, 0x0070_0200), // sw to a device
    (0x0084_0463, 0x0073_9000), // beq and bne over one word
    (0x0084_4463, 0x0073_b000), // blt to bgeu over one word
    (0x0080_02ef, 0x0000_0000), // jal over one word
    (0x1000_a42f, 0x0000_0380), // lr.w
    (0x1880_a42f, 0x0070_0380), // sc.w
    (0x0080_a42f, 0x6070_0380), // amoadd.w to amoor.w
    (0xb000_2473, 0x0000_0380), // csrrs x8, mcycle, x0
    (0xc010_2473, 0x0000_0380), // csrrs x8, time, x0
    (0xb024_1473, 0x0003_8380), // csrrw x8, minstret, x8
    (0x3004_6073, 0x0000_0000), // csrrsi x0, mstatus, 8
    (0x0000_0073, 0x0000_0000), // ecall
    (0x3020_0073, 0x0000_0000), // mret
    (0x0000_0000, 0xffff_ffff), // any word
];

/// It goes back to the first word from the last of a page.
const BACK: u32 = 0x805f_f06f;

/// The next number of a row of numbers that look drawn.
fn next(number: u32) -> u32 {
    number.wrapping_mul(1_664_525).wrapping_add(1_013_904_223)
}

/// A word at random.
fn drawn(number: u32) -> u32 {
    let (word, bits) = WORDS[((number >> 8) % 31) as usize];
    word ^ (next(number) ^ (number >> 16)) & bits
}

/// The page tables of user mode, in the two last pages: each address of the first two stands for itself.
const TABLES: [(u32, u32); 3] = [
    (0x8000_2800, 0x2000_0c01),
    (0x8000_3000, 0x2000_005b),
    (0x8000_3004, 0x2000_04d7),
];

/// A machine of four pages that begins in user mode: words at random in the first, and x1 at the second. Each trap
/// begins anew, in machine mode.
fn machine(rt: &impl Abort, alloc: Global, seed: u32) -> Result<Machine, Fail> {
    let mut words = [0; 58];
    words[0] = 0x8000_0000;
    words[1] = 0x8000_1000;
    words[3] = 0x1000_0000;
    words[50] = 0x8008_0002;
    words[38] = 0x8000_0000;
    let mut machine = match Machine::with_split(
        alloc,
        4,
        State::from_words(&words, 4)?,
        seed % 2 == 0,
    ) {
        Ok(machine) => machine,
        Err(NoMemory) => panic!(rt; "no memory"),
    };
    let mut number = seed;
    for index in 0..511u32 {
        number = next(number);
        let place = 0x8000_0000 + 4 * index;
        transfer(rt, &mut machine, place, &drawn(number).to_le_bytes());
    }
    transfer(rt, &mut machine, 0x8000_07fc, &BACK.to_le_bytes());
    for (place, entry) in TABLES {
        transfer(rt, &mut machine, place, &entry.to_le_bytes());
    }
    Ok(machine)
}

/// Three machines that are the same, each of which steps in a way of its own.
#[derive(Drop)]
struct Three {
    answering: Machine,
    telling: Machine,
    untold: Machine,
    rec: StepRec,
}

impl Three {
    /// Takes a step of each machine, and compares; how it went.
    fn step<L: Ledger>(&mut self, rt: &impl Abort, due: Due, steps: &mut Steps<L>) -> Went {
        if let Some(lines) = due.lines {
            assert!(rt; lines.0 & 0xa88 == lines.0);
        }
        assert!(rt; self.answering.reserve(2).is_ok());
        assert!(rt; self.telling.reserve(2).is_ok());
        assert!(rt; self.untold.reserve(2).is_ok());
        let answer = self.answering.step(due, steps);
        let went = self.telling.step_into(due, steps, &mut self.rec);
        assert_eq!(rt; self.untold.step_untold(due, steps), went);
        let told = match went {
            Went::Stepped => StepAnswer::Stepped(self.rec),
            Went::NeedsValue(what) => StepAnswer::NeedsValue(what),
            Went::ValueLeft => StepAnswer::ValueLeft,
        };
        assert_eq!(rt; answer, told);
        assert_eq!(rt; *self.answering.state(), *self.telling.state());
        assert_eq!(rt; *self.answering.state(), *self.untold.state());
        went
    }

    /// Compares what stands in memory.
    fn compare(&self, rt: &impl Abort) {
        for index in 0..64u32 {
            let place = 0x8000_1000 + 4 * index;
            assert!(rt; self.answering.ram().contains(place, 4));
            assert!(rt; self.telling.ram().contains(place, 4));
            assert!(rt; self.untold.ram().contains(place, 4));
            let word = self.answering.ram().load(place, 4);
            assert_eq!(rt; word, self.telling.ram().load(place, 4));
            assert_eq!(rt; word, self.untold.ram().load(place, 4));
        }
    }
}

/// Takes many steps; now and then lines change or a value comes, and a value that is asked for comes at once.
fn take_steps<L: Ledger>(rt: &impl Abort, three: &mut Three, seed: u32, blank: Blank)
    requires name { blank.name ≡ L.name }
    requires parts { blank.parts ≡ L.parts }
    requires some { 0 < blank.parts }
{
    let mut steps: Steps<L> = Steps::none(blank);
    let mut number = seed;
    for _ in 0..3_000u32 {
        number = next(number);
        let lines = if (number >> 8) % 64 == 0 {
            Some(Lines((number >> 4) & 0xa88))
        } else {
            None
        };
        let value = if (number >> 14) % 32 == 0 {
            Some(number)
        } else {
            None
        };
        if let Went::NeedsValue(_) = three.step(rt, Due { lines, value }, &mut steps) {
            let value = Some(number);
            three.step(rt, Due { lines, value }, &mut steps);
        }
    }
}

#[test]
fn three_ways_go_the_same_way(rt: HostRuntime) -> Result<(), Fail> {
    for seed in 1..5u32 {
        let mut three = Three {
            answering: machine(&rt, rt.alloc(), seed)?,
            telling: machine(&rt, rt.alloc(), seed)?,
            untold: machine(&rt, rt.alloc(), seed)?,
            rec: StepRec::BLANK,
        };
        take_steps::<Brand>(&rt, &mut three, seed, Blank::new(1));
        three.compare(&rt);
    }
    Ok(())
}
