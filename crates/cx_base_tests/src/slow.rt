//! The table as data, and a plain loop over it: the slow program that `decode` is compared with.

use cx_decode::Op;

/// A row, its mask, and the bits that its words have under the mask.
pub const TABLE: [(Op, u32, u32); 70] = [
    (Op::Lui, 0x0000_007f, 0x0000_0037),
    (Op::Auipc, 0x0000_007f, 0x0000_0017),
    (Op::Jal, 0x0000_007f, 0x0000_006f),
    (Op::Jalr, 0x0000_707f, 0x0000_0067),
    (Op::Beq, 0x0000_707f, 0x0000_0063),
    (Op::Bne, 0x0000_707f, 0x0000_1063),
    (Op::Blt, 0x0000_707f, 0x0000_4063),
    (Op::Bge, 0x0000_707f, 0x0000_5063),
    (Op::Bltu, 0x0000_707f, 0x0000_6063),
    (Op::Bgeu, 0x0000_707f, 0x0000_7063),
    (Op::Lb, 0x0000_707f, 0x0000_0003),
    (Op::Lh, 0x0000_707f, 0x0000_1003),
    (Op::Lw, 0x0000_707f, 0x0000_2003),
    (Op::Lbu, 0x0000_707f, 0x0000_4003),
    (Op::Lhu, 0x0000_707f, 0x0000_5003),
    (Op::Sb, 0x0000_707f, 0x0000_0023),
    (Op::Sh, 0x0000_707f, 0x0000_1023),
    (Op::Sw, 0x0000_707f, 0x0000_2023),
    (Op::Addi, 0x0000_707f, 0x0000_0013),
    (Op::Slti, 0x0000_707f, 0x0000_2013),
    (Op::Sltiu, 0x0000_707f, 0x0000_3013),
    (Op::Xori, 0x0000_707f, 0x0000_4013),
    (Op::Ori, 0x0000_707f, 0x0000_6013),
    (Op::Andi, 0x0000_707f, 0x0000_7013),
    (Op::Slli, 0xfe00_707f, 0x0000_1013),
    (Op::Srli, 0xfe00_707f, 0x0000_5013),
    (Op::Srai, 0xfe00_707f, 0x4000_5013),
    (Op::Add, 0xfe00_707f, 0x0000_0033),
    (Op::Sub, 0xfe00_707f, 0x4000_0033),
    (Op::Sll, 0xfe00_707f, 0x0000_1033),
    (Op::Slt, 0xfe00_707f, 0x0000_2033),
    (Op::Sltu, 0xfe00_707f, 0x0000_3033),
    (Op::Xor, 0xfe00_707f, 0x0000_4033),
    (Op::Srl, 0xfe00_707f, 0x0000_5033),
    (Op::Sra, 0xfe00_707f, 0x4000_5033),
    (Op::Or, 0xfe00_707f, 0x0000_6033),
    (Op::And, 0xfe00_707f, 0x0000_7033),
    (Op::Mul, 0xfe00_707f, 0x0200_0033),
    (Op::Mulh, 0xfe00_707f, 0x0200_1033),
    (Op::Mulhsu, 0xfe00_707f, 0x0200_2033),
    (Op::Mulhu, 0xfe00_707f, 0x0200_3033),
    (Op::Div, 0xfe00_707f, 0x0200_4033),
    (Op::Divu, 0xfe00_707f, 0x0200_5033),
    (Op::Rem, 0xfe00_707f, 0x0200_6033),
    (Op::Remu, 0xfe00_707f, 0x0200_7033),
    (Op::Fence, 0x0000_707f, 0x0000_000f),
    (Op::FenceI, 0x0000_707f, 0x0000_100f),
    (Op::Ecall, 0xffff_ffff, 0x0000_0073),
    (Op::Ebreak, 0xffff_ffff, 0x0010_0073),
    (Op::Sret, 0xffff_ffff, 0x1020_0073),
    (Op::Mret, 0xffff_ffff, 0x3020_0073),
    (Op::Wfi, 0xffff_ffff, 0x1050_0073),
    (Op::SfenceVma, 0xfe00_7fff, 0x1200_0073),
    (Op::Csrrw, 0x0000_707f, 0x0000_1073),
    (Op::Csrrs, 0x0000_707f, 0x0000_2073),
    (Op::Csrrc, 0x0000_707f, 0x0000_3073),
    (Op::Csrrwi, 0x0000_707f, 0x0000_5073),
    (Op::Csrrsi, 0x0000_707f, 0x0000_6073),
    (Op::Csrrci, 0x0000_707f, 0x0000_7073),
    (Op::LrW, 0xf9f0_707f, 0x1000_202f),
    (Op::ScW, 0xf800_707f, 0x1800_202f),
    (Op::AmoswapW, 0xf800_707f, 0x0800_202f),
    (Op::AmoaddW, 0xf800_707f, 0x0000_202f),
    (Op::AmoxorW, 0xf800_707f, 0x2000_202f),
    (Op::AmoandW, 0xf800_707f, 0x6000_202f),
    (Op::AmoorW, 0xf800_707f, 0x4000_202f),
    (Op::AmominW, 0xf800_707f, 0x8000_202f),
    (Op::AmomaxW, 0xf800_707f, 0xa000_202f),
    (Op::AmominuW, 0xf800_707f, 0xc000_202f),
    (Op::AmomaxuW, 0xf800_707f, 0xe000_202f),
];

/// The first row that matches a word.
pub fn row(word: u32) -> Option<Op> {
    for (op, mask, bits) in TABLE {
        if word & mask == bits {
            return Some(op);
        }
    }
    None
}
