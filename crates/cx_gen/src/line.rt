//! The lines that code is written in.

use crate::name::Name;
use crate::register::Register;
use cx_decode::Op;
use cx_walk::DeviceWord;

/// A line of code. Operands stand in the order in which an assembler has them.
#[derive(Clone, Copy, Debug, PartialEq, Eq)]
pub(crate) enum Line {
    /// No instruction: the next one has this name.
    Label(Name),
    /// An instruction without operands.
    Plain(Op),
    /// A register becomes what an instruction computes from two others.
    Compute(Op, Register, Register, Register),
    /// A register becomes what an instruction computes from another and a number of twelve bits.
    Short(Op, Register, Register, i32),
    /// A register becomes a copy of another.
    Move(Register, Register),
    /// A register becomes any word, by two instructions.
    Set(Register, u32),
    /// A register becomes the address of a name, by two instructions.
    Address(Register, Name),
    /// A register becomes the place of a word of the devices, by two instructions.
    Device(Register, DeviceWord),
    /// A register becomes the word at an offset from the address in another.
    Load(Register, i32, Register),
    /// The word at an offset from the address in the second register becomes that in the first.
    Store(Register, i32, Register),
    /// Where an instruction finds that two registers are so, the code goes on at a name.
    Branch(Op, Register, Register, Name),
    /// The code goes on at a name, and a register becomes the address behind this line.
    Jump(Register, Name),
    /// The code goes on at the address in a register.
    Return(Register),
    /// A register becomes a control register.
    Read(Register, u16),
    /// A control register becomes the word in a register.
    Write(u16, Register),
    /// A register and a control register change places; the first register becomes the control register, and this
    /// becomes the second.
    Swap(Register, u16, Register),
    /// A register becomes the answer of an atomic instruction on another and the word at the address in a third.
    Atomic(Op, Register, Register, Register),
    /// x1 to x30 are stored, each xN at 4N from the address in this register.
    SaveAll(Register),
    /// x1 to x30 are loaded from there.
    LoadAll(Register),
}

impl Line {
    /// How many bytes its instructions take.
    pub(crate) fn size(self) -> u32 {
        match self {
            Line::Label(_) => 0,
            Line::Set(..) | Line::Address(..) | Line::Device(..) => 8,
            Line::SaveAll(_) | Line::LoadAll(_) => 120,
            _ => 4,
        }
    }

    /// Whether it gives the next instruction this name.
    pub(crate) fn names(self, name: Name) -> bool {
        match self {
            Line::Label(label) => label == name,
            _ => false,
        }
    }
}
