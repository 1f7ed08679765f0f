//! From a program to the words of a page.

use crate::line::Line;
use crate::program::Program;
use crate::register::Register;
use crate::words::lay_word;
use cx_decode::{Ins, Op, encode, well_formed};
use cx_map::PAGE_SIZE;

/// What stands for an instruction that can't be spelled: a word that is illegal.
const ILLEGAL: u32 = 0;

/// The last of the registers that are saved and loaded all at once, of which the first is x1.
const LAST_SAVED: u8 = 30;

/// A page that words are laid into, one behind the other, as many as it has room for.
#[derive(Drop)]
struct Code {
    page: [u8; PAGE_SIZE],
    at: usize,
}

impl Code {
    /// Lays a word behind the last one.
    fn word(&mut self, word: u32) {
        if self.at < PAGE_SIZE - 3 {
            lay_word(&mut self.page, self.at, word);
            self.at += 4;
        }
    }

    /// Lays an instruction.
    fn instruction(&mut self, op: Op, rd: u8, rs1: u8, rs2: u8, imm: u32) {
        let ins = Ins {
            op,
            rd,
            rs1,
            rs2,
            imm,
        };
        self.word(if well_formed(&ins) {
            encode(ins)
        } else {
            ILLEGAL
        });
    }

    /// Lays the two instructions by which a register becomes any word: its upper part, and what is to be added.
    fn set(&mut self, register: Register, word: u32) {
        let upper = word.wrapping_add(0x800) & 0xffff_f000;
        let number = register as u8;
        self.instruction(Op::Lui, number, 0, 0, upper);
        self.instruction(Op::Addi, number, number, 0, word.wrapping_sub(upper));
    }

    /// Lays an instruction on registers alone.
    fn registers(&mut self, op: Op, to: Register, one: Register, other: Register) {
        self.instruction(op, to as u8, one as u8, other as u8, 0);
    }

    /// Lays an instruction on a register and a number of twelve bits.
    fn short(&mut self, op: Op, to: Register, from: Register, number: i32) {
        self.instruction(op, to as u8, from as u8, 0, number.cast_unsigned());
    }

    /// Lays an instruction on a control register.
    fn control(&mut self, op: Op, to: Register, number: u16, from: Register) {
        self.instruction(op, to as u8, from as u8, 0, number as u32);
    }

    /// Lays a store of a register.
    fn store(&mut self, number: u8, offset: u32, base: Register) {
        self.instruction(Op::Sw, 0, base as u8, number, offset);
    }

    /// Lays a store of each register that is saved.
    fn save_all(&mut self, base: Register) {
        for number in 1..=LAST_SAVED {
            self.store(number, 4 * number as u32, base);
        }
    }

    /// Lays a load of each register that is saved.
    fn load_all(&mut self, base: Register) {
        for number in 1..=LAST_SAVED {
            self.instruction(Op::Lw, number, base as u8, 0, 4 * number as u32);
        }
    }

    /// Lays the instructions of a line that stands at an address.
    fn line(&mut self, line: Line, address: u32, program: &Program) {
        match line {
            Line::Label(_) => {}
            Line::Plain(op) => self.instruction(op, 0, 0, 0, 0),
            Line::Compute(op, to, one, other) => self.registers(op, to, one, other),
            Line::Short(op, to, from, number) => self.short(op, to, from, number),
            Line::Move(to, from) => self.short(Op::Addi, to, from, 0),
            Line::Set(to, word) => self.set(to, word),
            Line::Address(to, name) => self.set(to, program.address_of(name)),
            Line::Device(to, word) => self.set(to, word.place()),
            Line::Load(to, offset, base) => self.short(Op::Lw, to, base, offset),
            Line::Store(from, offset, base) => self.store(from as u8, offset.cast_unsigned(), base),
            Line::Branch(op, one, other, name) => {
                let offset = program.offset_to(name, address);
                self.instruction(op, 0, one as u8, other as u8, offset)
            }
            Line::Jump(link, name) => {
                let offset = program.offset_to(name, address);
                self.instruction(Op::Jal, link as u8, 0, 0, offset)
            }
            Line::Return(to) => self.short(Op::Jalr, Register::Zero, to, 0),
            Line::Read(to, number) => self.control(Op::Csrrs, to, number, Register::Zero),
            Line::Write(number, from) => self.control(Op::Csrrw, Register::Zero, number, from),
            Line::Swap(to, number, from) => self.control(Op::Csrrw, to, number, from),
            Line::Atomic(op, to, with, base) => self.registers(op, to, base, with),
            Line::SaveAll(base) => self.save_all(base),
            Line::LoadAll(base) => self.load_all(base),
        }
    }

    /// Lays the lines of a routine that stands at an address, and answers the address behind it.
    fn routine(&mut self, routine: &[Line], start: u32, program: &Program) -> u32 {
        let mut address = start;
        for line in routine {
            self.line(*line, address, program);
            address = address.wrapping_add(line.size());
        }
        address
    }
}

/// The page that begins with the instructions of a program, as many as it has room for, and has zeros behind them.
pub(crate) fn assemble(program: &Program) -> [u8; PAGE_SIZE] {
    let mut code = Code {
        page: [0; PAGE_SIZE],
        at: 0,
    };
    let mut address = program.start;
    for routine in program.routines {
        address = code.routine(routine, address, program);
    }
    code.page
}
