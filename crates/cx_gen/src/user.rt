//! The program that each process runs, round after round: it reads a sector of the disk, adds up its words, counts on a
//! board that all processes share, and writes down the time. It looks for a byte of the console and prints it.
//!
//! It begins with the number of the process in a0. s0 has the address of the heap, s1 that of the heap's first page
//! once more, s2 that of the board, s3 the number of rounds, s4 that of the process, and s5 the sum.

use crate::layout::{BOARD, BUFFER, GET_BYTE, HEAP, PUT_BYTE, READ_SECTOR, SHARE, TWIN, YIELD};
use crate::line::Line::{self, *};
use crate::name::Name;
use crate::register::Register::*;
use cx_csr::numbers::CSR_TIME;
use cx_decode::Op;

/// All of the program, as it lies in RAM.
pub(crate) const ROUTINES: [&[Line]; 8] = [
    BEGIN, READ_IT, ADD_UP, WRITE_DOWN, COUNT, GROW, ECHO, END_ROUND,
];

/// The first page of the heap is written to, so that it is there, and gets a second address.
const BEGIN: &[Line] = &[
    Move(S4, A0),
    Set(S0, HEAP),
    Set(S1, TWIN),
    Set(S2, BOARD),
    Set(S3, 0),
    Store(S4, 0, S0),
    Move(A0, S1),
    Move(A1, S0),
    Short(Op::Addi, A7, Zero, SHARE),
    Plain(Op::Ecall),
];

/// A sector of the disk is read, again and again while the disk is busy. The page that it goes to is there once it was
/// looked at.
const READ_IT: &[Line] = &[
    Label(Name::Round),
    Label(Name::Ask),
    Set(A0, BUFFER),
    Load(Zero, 0, A0),
    Compute(Op::Add, A1, S3, S4),
    Short(Op::Andi, A1, A1, 15),
    Short(Op::Addi, A7, Zero, READ_SECTOR),
    Plain(Op::Ecall),
    Branch(Op::Beq, A0, Zero, Name::Ask),
];

/// s5 becomes the sum of its 128 words, each of which counts 31 times as much as the one behind it.
const ADD_UP: &[Line] = &[
    Set(A0, BUFFER),
    Short(Op::Addi, T0, A0, 512),
    Set(T1, 31),
    Set(S5, 0),
    Label(Name::Add),
    Load(T2, 0, A0),
    Compute(Op::Mul, S5, S5, T1),
    Compute(Op::Add, S5, S5, T2),
    Short(Op::Addi, A0, A0, 4),
    Branch(Op::Bltu, A0, T0, Name::Add),
];

/// The sum is written at the second address of the heap's first page, and looked for at the first. Behind it stands the
/// time.
const WRITE_DOWN: &[Line] = &[
    Store(S5, 4, S1),
    Load(T0, 4, S0),
    Branch(Op::Bne, T0, S5, Name::Wrong),
    Read(T0, CSR_TIME),
    Store(T0, 8, S0),
];

/// The first word of the board grows by one, again where another process came in between.
const COUNT: &[Line] = &[
    Label(Name::Count),
    Atomic(Op::LrW, T0, Zero, S2),
    Short(Op::Addi, T0, T0, 1),
    Atomic(Op::ScW, T1, T0, S2),
    Branch(Op::Bne, T1, Zero, Name::Count),
];

/// One of eight more pages of the heap keeps the sum.
const GROW: &[Line] = &[
    Short(Op::Andi, T0, S3, 7),
    Short(Op::Addi, T0, T0, 2),
    Short(Op::Slli, T0, T0, 12),
    Compute(Op::Add, T0, T0, S0),
    Store(S5, 0, T0),
];

/// The byte that waits in the console, if there is one, is printed as a capital.
const ECHO: &[Line] = &[
    Short(Op::Addi, A7, Zero, GET_BYTE),
    Plain(Op::Ecall),
    Branch(Op::Blt, A0, Zero, Name::EndRound),
    Short(Op::Addi, A0, A0, -32),
    Short(Op::Addi, A7, Zero, PUT_BYTE),
    Plain(Op::Ecall),
];

/// Others get their turn. Where something was wrong the kernel is told by a breakpoint, which stops the machine.
const END_ROUND: &[Line] = &[
    Label(Name::EndRound),
    Short(Op::Addi, S3, S3, 1),
    Short(Op::Addi, A7, Zero, YIELD),
    Plain(Op::Ecall),
    Jump(Zero, Name::Round),
    Label(Name::Wrong),
    Plain(Op::Ebreak),
];
