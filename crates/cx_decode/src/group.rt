//! Groups of rows, by what an instruction of them works on.

ghost use Rattle.std.specs.Prelude.{◌≡◌};
ghost use Rattle.cx_decode.specs.Groups.{group_of};

use crate::op::Op;

/// What an instruction works on beside its operands.
#[derive(Clone, Copy, Debug, PartialEq, Eq)]
pub enum Group {
    /// Registers and pc alone, in each mode.
    Computes,
    /// So many bytes of memory too, which a plain load reads.
    Loads(u8),
    /// So many bytes of memory too, which a plain store writes.
    Stores(u8),
    /// Anything else: a reservation, control registers, the mode.
    Others,
}

impl Op {
    /// The group of the row.
    pub fn group(self) -> Group
        ensures { result ≡ group_of self }
    {
        match self {
            Op::Lb | Op::Lbu => Group::Loads(1),
            Op::Lh | Op::Lhu => Group::Loads(2),
            Op::Lw => Group::Loads(4),
            Op::Sb => Group::Stores(1),
            Op::Sh => Group::Stores(2),
            Op::Sw => Group::Stores(4),
            Op::LrW
            | Op::ScW
            | Op::AmoswapW
            | Op::AmoaddW
            | Op::AmoxorW
            | Op::AmoandW
            | Op::AmoorW
            | Op::AmominW
            | Op::AmomaxW
            | Op::AmominuW
            | Op::AmomaxuW => Group::Others,
            Op::Csrrw | Op::Csrrs | Op::Csrrc | Op::Csrrwi | Op::Csrrsi | Op::Csrrci =>
                Group::Others,
            Op::Ecall | Op::Ebreak | Op::Sret | Op::Mret | Op::Wfi | Op::SfenceVma => Group::Others,
            _ => Group::Computes,
        }
    }
}
