//! The rows of the instruction table.

ghost use Rattle.std.specs.Prelude.{◌≡◌};

use crate::format::Format;

/// One row of the instruction table. Its mask, bits and format are those of the definition `row_of`.
#[derive(Clone, Copy, Debug, PartialEq, Eq)]
pub enum Op {
    // RV32I: constants (Unprivileged ISA, 2.4)
    /// LUI: the upper immediate.
    Lui,
    /// AUIPC: pc plus the upper immediate.
    Auipc,
    // RV32I: jumps and branches (2.5)
    /// JAL: a jump by an offset, with a link.
    Jal,
    /// JALR: a jump to a register plus an offset, with a link.
    Jalr,
    /// BEQ: a branch where equal.
    Beq,
    /// BNE: a branch where not equal.
    Bne,
    /// BLT: a branch where less, signed.
    Blt,
    /// BGE: a branch where not less, signed.
    Bge,
    /// BLTU: a branch where less, unsigned.
    Bltu,
    /// BGEU: a branch where not less, unsigned.
    Bgeu,
    // RV32I: loads and stores (2.6)
    /// LB: a load of a byte, sign-extended.
    Lb,
    /// LH: a load of two bytes, sign-extended.
    Lh,
    /// LW: a load of a word.
    Lw,
    /// LBU: a load of a byte, zero-extended.
    Lbu,
    /// LHU: a load of two bytes, zero-extended.
    Lhu,
    /// SB: a store of a byte.
    Sb,
    /// SH: a store of two bytes.
    Sh,
    /// SW: a store of a word.
    Sw,
    // RV32I: computation with an immediate (2.4)
    /// ADDI: sum with an immediate.
    Addi,
    /// SLTI: less than an immediate, signed.
    Slti,
    /// SLTIU: less than an immediate, unsigned.
    Sltiu,
    /// XORI: exclusive or with an immediate.
    Xori,
    /// ORI: or with an immediate.
    Ori,
    /// ANDI: and with an immediate.
    Andi,
    /// SLLI: shift left by an immediate.
    Slli,
    /// SRLI: logical shift right by an immediate.
    Srli,
    /// SRAI: arithmetic shift right by an immediate.
    Srai,
    // RV32I: computation on registers (2.4)
    /// ADD: sum.
    Add,
    /// SUB: difference.
    Sub,
    /// SLL: shift left.
    Sll,
    /// SLT: less than, signed.
    Slt,
    /// SLTU: less than, unsigned.
    Sltu,
    /// XOR: exclusive or.
    Xor,
    /// SRL: logical shift right.
    Srl,
    /// SRA: arithmetic shift right.
    Sra,
    /// OR: or.
    Or,
    /// AND: and.
    And,
    // M: multiplication and division (7.1, 7.2)
    /// MUL: the low word of the product.
    Mul,
    /// MULH: the high word of the signed product.
    Mulh,
    /// MULHSU: the high word of the product of a signed and an unsigned number.
    Mulhsu,
    /// MULHU: the high word of the unsigned product.
    Mulhu,
    /// DIV: quotient, signed.
    Div,
    /// DIVU: quotient, unsigned.
    Divu,
    /// REM: remainder, signed.
    Rem,
    /// REMU: remainder, unsigned.
    Remu,
    // RV32I: the fence of memory (2.7), and Zifencei (3)
    /// FENCE: an order of memory accesses.
    Fence,
    /// FENCE.I: an order of stores and fetches.
    FenceI,
    // RV32I: calls of the environment and breakpoints (2.8)
    /// ECALL: a call of the environment.
    Ecall,
    /// EBREAK: a breakpoint.
    Ebreak,
    // Privileged instructions (Privileged Architecture, 3.3.2, 3.3.3, 4.2.1)
    /// SRET: the return from a trap to supervisor mode.
    Sret,
    /// MRET: the return from a trap to machine mode.
    Mret,
    /// WFI: a wait for an interrupt.
    Wfi,
    /// SFENCE.VMA: an order of table writes and translations.
    SfenceVma,
    // Zicsr: control registers (9.1)
    /// CSRRW: a control register read and written.
    Csrrw,
    /// CSRRS: a control register read, with bits set.
    Csrrs,
    /// CSRRC: a control register read, with bits cleared.
    Csrrc,
    /// CSRRWI: CSRRW with a five-bit operand.
    Csrrwi,
    /// CSRRSI: CSRRS with a five-bit operand.
    Csrrsi,
    /// CSRRCI: CSRRC with a five-bit operand.
    Csrrci,
    // A: load-reserved and store-conditional (8.2)
    /// LR.W: a load that reserves its word.
    LrW,
    /// SC.W: a store that succeeds where the reservation holds.
    ScW,
    // A: atomic memory operations (8.4)
    /// AMOSWAP.W: an atomic swap.
    AmoswapW,
    /// AMOADD.W: an atomic sum.
    AmoaddW,
    /// AMOXOR.W: an atomic exclusive or.
    AmoxorW,
    /// AMOAND.W: an atomic and.
    AmoandW,
    /// AMOOR.W: an atomic or.
    AmoorW,
    /// AMOMIN.W: an atomic minimum, signed.
    AmominW,
    /// AMOMAX.W: an atomic maximum, signed.
    AmomaxW,
    /// AMOMINU.W: an atomic minimum, unsigned.
    AmominuW,
    /// AMOMAXU.W: an atomic maximum, unsigned.
    AmomaxuW,
}

impl Op {
    ghost use Rattle.cx_decode.specs.Table.{row_of};

    /// Where the operands of the row's words lie.
    pub fn format(self) -> Format
        ensures { result ≡ (row_of self).format }
    {
        match self {
            Op::Add
            | Op::Sub
            | Op::Sll
            | Op::Slt
            | Op::Sltu
            | Op::Xor
            | Op::Srl
            | Op::Sra
            | Op::Or
            | Op::And
            | Op::Mul
            | Op::Mulh
            | Op::Mulhsu
            | Op::Mulhu
            | Op::Div
            | Op::Divu
            | Op::Rem
            | Op::Remu => Format::Register,
            Op::Jalr
            | Op::Lb
            | Op::Lh
            | Op::Lw
            | Op::Lbu
            | Op::Lhu
            | Op::Addi
            | Op::Slti
            | Op::Sltiu
            | Op::Xori
            | Op::Ori
            | Op::Andi => Format::Immediate,
            Op::Slli | Op::Srli | Op::Srai => Format::Shift,
            Op::Sb | Op::Sh | Op::Sw => Format::Store,
            Op::Beq | Op::Bne | Op::Blt | Op::Bge | Op::Bltu | Op::Bgeu => Format::Branch,
            Op::Lui | Op::Auipc => Format::Upper,
            Op::Jal => Format::Jump,
            Op::Fence | Op::FenceI => Format::Fence,
            Op::Csrrw | Op::Csrrs | Op::Csrrc => Format::Control,
            Op::Csrrwi | Op::Csrrsi | Op::Csrrci => Format::ControlImmediate,
            Op::Ecall | Op::Ebreak | Op::Sret | Op::Mret | Op::Wfi => Format::Plain,
            Op::SfenceVma => Format::Translation,
            Op::LrW => Format::Reserve,
            Op::ScW
            | Op::AmoswapW
            | Op::AmoaddW
            | Op::AmoxorW
            | Op::AmoandW
            | Op::AmoorW
            | Op::AmominW
            | Op::AmomaxW
            | Op::AmominuW
            | Op::AmomaxuW => Format::Atomic,
        }
    }

    /// The bits that a word of the row has under the row's mask, with 0 elsewhere.
    pub fn bits(self) -> u32
        ensures { result ≡ (row_of self).bits }
    {
        match self {
            Op::Lui => 0x0000_0037,
            Op::Auipc => 0x0000_0017,
            Op::Jal => 0x0000_006f,
            Op::Jalr => 0x0000_0067,
            Op::Beq => 0x0000_0063,
            Op::Bne => 0x0000_1063,
            Op::Blt => 0x0000_4063,
            Op::Bge => 0x0000_5063,
            Op::Bltu => 0x0000_6063,
            Op::Bgeu => 0x0000_7063,
            Op::Lb => 0x0000_0003,
            Op::Lh => 0x0000_1003,
            Op::Lw => 0x0000_2003,
            Op::Lbu => 0x0000_4003,
            Op::Lhu => 0x0000_5003,
            Op::Sb => 0x0000_0023,
            Op::Sh => 0x0000_1023,
            Op::Sw => 0x0000_2023,
            Op::Addi => 0x0000_0013,
            Op::Slti => 0x0000_2013,
            Op::Sltiu => 0x0000_3013,
            Op::Xori => 0x0000_4013,
            Op::Ori => 0x0000_6013,
            Op::Andi => 0x0000_7013,
            Op::Slli => 0x0000_1013,
            Op::Srli => 0x0000_5013,
            Op::Srai => 0x4000_5013,
            Op::Add => 0x0000_0033,
            Op::Sub => 0x4000_0033,
            Op::Sll => 0x0000_1033,
            Op::Slt => 0x0000_2033,
            Op::Sltu => 0x0000_3033,
            Op::Xor => 0x0000_4033,
            Op::Srl => 0x0000_5033,
            Op::Sra => 0x4000_5033,
            Op::Or => 0x0000_6033,
            Op::And => 0x0000_7033,
            Op::Mul => 0x0200_0033,
            Op::Mulh => 0x0200_1033,
            Op::Mulhsu => 0x0200_2033,
            Op::Mulhu => 0x0200_3033,
            Op::Div => 0x0200_4033,
            Op::Divu => 0x0200_5033,
            Op::Rem => 0x0200_6033,
            Op::Remu => 0x0200_7033,
            Op::Fence => 0x0000_000f,
            Op::FenceI => 0x0000_100f,
            Op::Ecall => 0x0000_0073,
            Op::Ebreak => 0x0010_0073,
            Op::Sret => 0x1020_0073,
            Op::Mret => 0x3020_0073,
            Op::Wfi => 0x1050_0073,
            Op::SfenceVma => 0x1200_0073,
            Op::Csrrw => 0x0000_1073,
            Op::Csrrs => 0x0000_2073,
            Op::Csrrc => 0x0000_3073,
            Op::Csrrwi => 0x0000_5073,
            Op::Csrrsi => 0x0000_6073,
            Op::Csrrci => 0x0000_7073,
            Op::LrW => 0x1000_202f,
            Op::ScW => 0x1800_202f,
            Op::AmoswapW => 0x0800_202f,
            Op::AmoaddW => 0x0000_202f,
            Op::AmoxorW => 0x2000_202f,
            Op::AmoandW => 0x6000_202f,
            Op::AmoorW => 0x4000_202f,
            Op::AmominW => 0x8000_202f,
            Op::AmomaxW => 0xa000_202f,
            Op::AmominuW => 0xc000_202f,
            Op::AmomaxuW => 0xe000_202f,
        }
    }
}
