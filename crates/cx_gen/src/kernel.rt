//! The kernel. It runs in machine mode, and its processes in user mode, each under a root of its own. They take turns:
//! when the timer rings, when one of them yields, and while one of them waits for the disk.
//!
//! In all of it s0 has the place of the record of the process that was left or goes on, and s1 that of the kernel's own
//! words. No interrupt is taken in machine mode, since MIE is never set.

use crate::layout::{
    ANSWER_AT, FREE_AT, GET_BYTE, HEAP, HEAP_SIZE, KERNEL_WORDS, LAST_AT, NEXT_AT, PC_AT, PUT_BYTE,
    RAM_END, READ_SECTOR, RECORDS, SATP_AT, SHARE, TABLE_AT, WAITER_AT, WAITS_AT, YIELD,
};
use crate::line::Line::{self, *};
use crate::name::Name;
use crate::register::Register::*;
use crate::tables::PAGE_OF_DATA;
use cx_block::states::TO_RAM;
use cx_csr::causes::{CALL_FROM_USER, INSTRUCTION_PAGE_FAULT, LOAD_PAGE_FAULT, STORE_PAGE_FAULT};
use cx_csr::fields::COUNTEREN_FIELDS;
use cx_csr::interrupts::{MEI, MTI};
use cx_csr::numbers::{
    CSR_MCAUSE, CSR_MCOUNTEREN, CSR_MEPC, CSR_MIE, CSR_MSCRATCH, CSR_MTVAL, CSR_MTVEC, CSR_SATP,
    CSR_SCOUNTEREN, CSR_TIME, CSR_TIMEH,
};
use cx_decode::Op;
use cx_map::PAGE_SIZE;
use cx_walk::DeviceWord;

/// How long the turn of a process is, in ticks of the clock.
const TURN: i32 = 500;

/// The bit of the block device in the mask of a mode.
const DISK_BIT: u32 = 2;

/// All of the kernel, as it lies in RAM.
pub(crate) const KERNEL: [&[Line]; 14] = [
    START,
    ENTER,
    INTERRUPTED,
    DISK_DONE,
    SWITCH,
    RESUME,
    CALLED,
    READ,
    GET,
    PUT,
    SHARE_FRAME,
    PAGE_FAULT,
    FIND_ENTRY,
    STOP,
];

/// The machine is at reset. User mode may read the counters, the timer and the block device interrupt, and the first
/// process gets its turn, as it would behind the last one.
const START: &[Line] = &[
    Address(T0, Name::Enter),
    Write(CSR_MTVEC, T0),
    Set(T0, COUNTEREN_FIELDS),
    Write(CSR_MCOUNTEREN, T0),
    Write(CSR_SCOUNTEREN, T0),
    Set(T0, 1 << MTI | 1 << MEI),
    Write(CSR_MIE, T0),
    Device(T1, DeviceWord::MachineInterruptMask),
    Set(T0, DISK_BIT),
    Store(T0, 0, T1),
    Set(S1, KERNEL_WORDS),
    Set(S0, RECORDS),
    Jump(Zero, Name::TakeTurn),
];

/// A process was left. `mscratch` has the place of its record, where its registers are kept.
const ENTER: &[Line] = &[
    Label(Name::Enter),
    Swap(T6, CSR_MSCRATCH, T6),
    SaveAll(T6),
    Move(S0, T6),
    Read(T0, CSR_MSCRATCH),
    Store(T0, LAST_AT, S0),
    Read(T0, CSR_MEPC),
    Store(T0, PC_AT, S0),
    Set(S1, KERNEL_WORDS),
    Read(T0, CSR_MCAUSE),
    Branch(Op::Blt, T0, Zero, Name::Interrupted),
    Set(T1, CALL_FROM_USER),
    Branch(Op::Beq, T0, T1, Name::Called),
    Set(T1, INSTRUCTION_PAGE_FAULT),
    Branch(Op::Beq, T0, T1, Name::PageFault),
    Set(T1, LOAD_PAGE_FAULT),
    Branch(Op::Beq, T0, T1, Name::PageFault),
    Set(T1, STORE_PAGE_FAULT),
    Branch(Op::Beq, T0, T1, Name::PageFault),
    Jump(Zero, Name::Stop),
];

/// An interrupt, whose cause is in t0: of the block device, or of the timer.
const INTERRUPTED: &[Line] = &[
    Label(Name::Interrupted),
    Short(Op::Andi, T0, T0, 31),
    Set(T1, MEI),
    Branch(Op::Beq, T0, T1, Name::DiskDone),
    Jump(Zero, Name::Switch),
];

/// The block device has ended a command. The process that waits for it has its answer, and may have its turn again; the
/// one that was interrupted goes on.
const DISK_DONE: &[Line] = &[
    Label(Name::DiskDone),
    Device(T1, DeviceWord::BlockState),
    Store(Zero, 0, T1),
    Load(T0, WAITER_AT, S1),
    Store(Zero, WAITER_AT, S1),
    Store(Zero, WAITS_AT, T0),
    Set(T1, 1),
    Store(T1, ANSWER_AT, T0),
    Jump(Zero, Name::Resume),
];

/// The next process that doesn't wait gets its turn. There is one: of two processes or more one at most waits for the
/// disk. The timer rings at the turn's end. Where the clock's low half goes round between its two reads, it rings at
/// once, and the turn is short.
const SWITCH: &[Line] = &[
    Label(Name::Switch),
    Load(S0, NEXT_AT, S0),
    Load(T0, WAITS_AT, S0),
    Branch(Op::Bne, T0, Zero, Name::Switch),
    Label(Name::TakeTurn),
    Read(T1, CSR_TIMEH),
    Read(T0, CSR_TIME),
    Short(Op::Addi, T2, T0, TURN),
    Compute(Op::Sltu, T0, T2, T0),
    Compute(Op::Add, T1, T1, T0),
    Device(T3, DeviceWord::TimeCompareHigh),
    Store(T1, 0, T3),
    Device(T3, DeviceWord::TimeCompareLow),
    Store(T2, 0, T3),
    Jump(Zero, Name::Resume),
];

/// A process goes on in user mode, to which MPP points since the machine was at reset.
const RESUME: &[Line] = &[
    Label(Name::Resume),
    Load(T0, SATP_AT, S0),
    Write(CSR_SATP, T0),
    Plain(Op::SfenceVma),
    Load(T0, PC_AT, S0),
    Write(CSR_MEPC, T0),
    Write(CSR_MSCRATCH, S0),
    Move(T6, S0),
    LoadAll(T6),
    Load(T6, LAST_AT, T6),
    Plain(Op::Mret),
];

/// A process has called. It goes on behind its call. Its registers but t6, t0, t1, s0 and s1 are as it left them.
const CALLED: &[Line] = &[
    Label(Name::Called),
    Load(T0, PC_AT, S0),
    Short(Op::Addi, T0, T0, 4),
    Store(T0, PC_AT, S0),
    Short(Op::Addi, T0, A7, -YIELD),
    Branch(Op::Beq, T0, Zero, Name::Switch),
    Short(Op::Addi, T0, A7, -READ_SECTOR),
    Branch(Op::Beq, T0, Zero, Name::ReadSector),
    Short(Op::Addi, T0, A7, -GET_BYTE),
    Branch(Op::Beq, T0, Zero, Name::GetByte),
    Short(Op::Addi, T0, A7, -PUT_BYTE),
    Branch(Op::Beq, T0, Zero, Name::PutByte),
    Short(Op::Addi, T0, A7, -SHARE),
    Branch(Op::Beq, T0, Zero, Name::Share),
    Jump(Zero, Name::Stop),
];

/// The sector in a1 is read to the address in a0, whose page is there. The caller waits, and has its answer when the
/// block device is done. Where another waits for the disk already the answer is 0. Others get their turn.
const READ: &[Line] = &[
    Label(Name::ReadSector),
    Store(Zero, ANSWER_AT, S0),
    Load(T0, WAITER_AT, S1),
    Branch(Op::Bne, T0, Zero, Name::Switch),
    Device(T1, DeviceWord::BlockSector),
    Store(A1, 0, T1),
    Move(A1, A0),
    Jump(Ra, Name::FindEntry),
    Load(T0, 0, T0),
    // The number of the frame, and the offset in the page.
    Short(Op::Srli, T0, T0, 10),
    Short(Op::Slli, T0, T0, 12),
    Short(Op::Slli, T1, A0, 20),
    Short(Op::Srli, T1, T1, 20),
    Compute(Op::Add, T0, T0, T1),
    Device(T1, DeviceWord::BlockAddress),
    Store(T0, 0, T1),
    Set(T0, 1),
    Device(T1, DeviceWord::BlockCount),
    Store(T0, 0, T1),
    Store(T0, WAITS_AT, S0),
    Store(S0, WAITER_AT, S1),
    Set(T0, TO_RAM),
    Device(T1, DeviceWord::BlockCommand),
    Store(T0, 0, T1),
    Jump(Zero, Name::Switch),
];

/// The answer is the byte that waits in the console, or -1.
const GET: &[Line] = &[
    Label(Name::GetByte),
    Short(Op::Addi, A0, Zero, -1),
    Device(T1, DeviceWord::ConsoleState),
    Load(T0, 0, T1),
    Branch(Op::Beq, T0, Zero, Name::Answer),
    Device(T1, DeviceWord::ConsoleData),
    Load(A0, 0, T1),
    Label(Name::Answer),
    Store(A0, ANSWER_AT, S0),
    Jump(Zero, Name::Resume),
];

/// The byte in a0 is printed.
const PUT: &[Line] = &[
    Label(Name::PutByte),
    Device(T1, DeviceWord::ConsoleData),
    Store(A0, 0, T1),
    Jump(Zero, Name::Resume),
];

/// The page at a0 gets the entry of the page at a1.
const SHARE_FRAME: &[Line] = &[
    Label(Name::Share),
    Jump(Ra, Name::FindEntry),
    Load(T2, 0, T0),
    Move(A1, A0),
    Jump(Ra, Name::FindEntry),
    Store(T2, 0, T0),
    Jump(Zero, Name::Resume),
];

/// A page of the heap isn't there yet: it gets the next page of RAM, which is all zero, since no page is ever given
/// back. Any other fault, and the end of RAM, stops the machine.
const PAGE_FAULT: &[Line] = &[
    Label(Name::PageFault),
    Read(A1, CSR_MTVAL),
    Set(T0, HEAP),
    Compute(Op::Sub, T0, A1, T0),
    Set(T1, HEAP_SIZE),
    Branch(Op::Bgeu, T0, T1, Name::Stop),
    Jump(Ra, Name::FindEntry),
    Load(T1, 0, T0),
    Branch(Op::Bne, T1, Zero, Name::Stop),
    Load(T1, FREE_AT, S1),
    Set(T2, RAM_END),
    Branch(Op::Bgeu, T1, T2, Name::Stop),
    Short(Op::Srli, T2, T1, 2),
    Short(Op::Ori, T2, T2, PAGE_OF_DATA as i32),
    Store(T2, 0, T0),
    Set(T2, PAGE_SIZE as u32),
    Compute(Op::Add, T1, T1, T2),
    Store(T1, FREE_AT, S1),
    Jump(Zero, Name::Resume),
];

/// t0 becomes the place at which the table of the process has the entry of the page at a1. t1 is lost.
const FIND_ENTRY: &[Line] = &[
    Label(Name::FindEntry),
    Load(T1, TABLE_AT, S0),
    Short(Op::Srli, T0, A1, 12),
    Short(Op::Andi, T0, T0, 0x3ff),
    Short(Op::Slli, T0, T0, 2),
    Compute(Op::Add, T0, T0, T1),
    Return(Ra),
];

/// The machine is turned off.
const STOP: &[Line] = &[
    Label(Name::Stop),
    Device(T0, DeviceWord::Power),
    Store(Zero, 0, T0),
];
