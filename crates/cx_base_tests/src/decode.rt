//! The table against an outside judge, and `decode` against a plain loop over all rows.

use crate::slow;
use cx_decode::{Decoder, Group, Ins, Op, decode, encode, well_formed};

/// A word, and its row, rd, rs1, rs2 and immediate. The words were made by hand with GNU as 2.40 (Debian's
/// riscv64-unknown-elf-as -march=rv32ima_zicsr_zifencei -mabi=ilp32) from the lines beside them, and not from the table
/// of this crate; `.` is the place of the instruction. Every row is there at least once.
const WORDS: [(u32, Op, u8, u8, u8, u32); 78] = [
    (0x1234_52b7, Op::Lui, 5, 0, 0, 0x1234_5000), // lui x5, 0x12345
    (0xffff_ffb7, Op::Lui, 31, 0, 0, 0xffff_f000), // lui x31, 0xfffff
    (0x8000_0097, Op::Auipc, 1, 0, 0, 0x8000_0000), // auipc x1, 0x80000
    (0x7fe0_00ef, Op::Jal, 1, 0, 0, 0x0000_07fe), // jal x1, . + 0x7fe
    (0x8000_006f, Op::Jal, 0, 0, 0, 0xfff0_0000), // jal x0, . - 0x100000
    (0x7fff_f1ef, Op::Jal, 3, 0, 0, 0x000f_fffe), // jal x3, . + 0xffffe
    (0xfff1_00e7, Op::Jalr, 1, 2, 0, 0xffff_ffff), // jalr x1, -1(x2)
    (0x7e20_8fe3, Op::Beq, 0, 1, 2, 0x0000_0ffe), // beq x1, x2, . + 0xffe
    (0x8041_9063, Op::Bne, 0, 3, 4, 0xffff_f000), // bne x3, x4, . - 0x1000
    (0xfe62_cfe3, Op::Blt, 0, 5, 6, 0xffff_fffe), // blt x5, x6, . - 2
    (0x0083_d0e3, Op::Bge, 0, 7, 8, 0x0000_0800), // bge x7, x8, . + 0x800
    (0x7ea4_e063, Op::Bltu, 0, 9, 10, 0x0000_07e0), // bltu x9, x10, . + 0x7e0
    (0x01ff_7f63, Op::Bgeu, 0, 30, 31, 0x0000_001e), // bgeu x30, x31, . + 0x1e
    (0x8001_0083, Op::Lb, 1, 2, 0, 0xffff_f800), // lb x1, -2048(x2)
    (0x7ff2_1183, Op::Lh, 3, 4, 0, 0x0000_07ff), // lh x3, 2047(x4)
    (0xfff3_2283, Op::Lw, 5, 6, 0, 0xffff_ffff), // lw x5, -1(x6)
    (0x0014_4383, Op::Lbu, 7, 8, 0, 1), // lbu x7, 1(x8)
    (0x5555_5483, Op::Lhu, 9, 10, 0, 0x0000_0555), // lhu x9, 0x555(x10)
    (0x8011_0023, Op::Sb, 0, 2, 1, 0xffff_f800), // sb x1, -2048(x2)
    (0x7e32_1fa3, Op::Sh, 0, 4, 3, 0x0000_07ff), // sh x3, 2047(x4)
    (0xfe53_2fa3, Op::Sw, 0, 6, 5, 0xffff_ffff), // sw x5, -1(x6)
    (0x0000_0013, Op::Addi, 0, 0, 0, 0), // addi x0, x0, 0
    (0xeef5_0513, Op::Addi, 10, 10, 0, 0xffff_feef), // addi x10, x10, -273
    (0x7ff6_2593, Op::Slti, 11, 12, 0, 0x0000_07ff), // slti x11, x12, 0x7ff
    (0x8007_3693, Op::Sltiu, 13, 14, 0, 0xffff_f800), // sltiu x13, x14, -2048
    (0xfff8_4793, Op::Xori, 15, 16, 0, 0xffff_ffff), // xori x15, x16, -1
    (0x2aa9_6893, Op::Ori, 17, 18, 0, 0x0000_02aa), // ori x17, x18, 0x2aa
    (0x155a_7993, Op::Andi, 19, 20, 0, 0x0000_0155), // andi x19, x20, 0x155
    (0x01fb_1a93, Op::Slli, 21, 22, 0, 0x0000_001f), // slli x21, x22, 31
    (0x001c_5b93, Op::Srli, 23, 24, 0, 1), // srli x23, x24, 1
    (0x411d_5c93, Op::Srai, 25, 26, 0, 0x0000_0011), // srai x25, x26, 17
    (0x0031_00b3, Op::Add, 1, 2, 3, 0), // add x1, x2, x3
    (0x4062_8233, Op::Sub, 4, 5, 6, 0), // sub x4, x5, x6
    (0x0094_13b3, Op::Sll, 7, 8, 9, 0), // sll x7, x8, x9
    (0x00c5_a533, Op::Slt, 10, 11, 12, 0), // slt x10, x11, x12
    (0x00f7_36b3, Op::Sltu, 13, 14, 15, 0), // sltu x13, x14, x15
    (0x0128_c833, Op::Xor, 16, 17, 18, 0), // xor x16, x17, x18
    (0x015a_59b3, Op::Srl, 19, 20, 21, 0), // srl x19, x20, x21
    (0x418b_db33, Op::Sra, 22, 23, 24, 0), // sra x22, x23, x24
    (0x01bd_6cb3, Op::Or, 25, 26, 27, 0), // or x25, x26, x27
    (0x01ee_fe33, Op::And, 28, 29, 30, 0), // and x28, x29, x30
    (0x03df_0fb3, Op::Mul, 31, 30, 29, 0), // mul x31, x30, x29
    (0x03ad_9e33, Op::Mulh, 28, 27, 26, 0), // mulh x28, x27, x26
    (0x037c_2cb3, Op::Mulhsu, 25, 24, 23, 0), // mulhsu x25, x24, x23
    (0x034a_bb33, Op::Mulhu, 22, 21, 20, 0), // mulhu x22, x21, x20
    (0x0319_49b3, Op::Div, 19, 18, 17, 0), // div x19, x18, x17
    (0x02e7_d833, Op::Divu, 16, 15, 14, 0), // divu x16, x15, x14
    (0x02b6_66b3, Op::Rem, 13, 12, 11, 0), // rem x13, x12, x11
    (0x0284_f533, Op::Remu, 10, 9, 8, 0), // remu x10, x9, x8
    (0x0310_000f, Op::Fence, 0, 0, 0, 0x0000_0031), // fence rw, w
    (0x0ff0_000f, Op::Fence, 0, 0, 0, 0x0000_00ff), // fence iorw, iorw
    (0x0000_100f, Op::FenceI, 0, 0, 0, 0), // fence.i
    (0x0000_0073, Op::Ecall, 0, 0, 0, 0), // ecall
    (0x0010_0073, Op::Ebreak, 0, 0, 0, 0), // ebreak
    (0x1020_0073, Op::Sret, 0, 0, 0, 0), // sret
    (0x3020_0073, Op::Mret, 0, 0, 0, 0), // mret
    (0x1050_0073, Op::Wfi, 0, 0, 0, 0), // wfi
    (0x1200_0073, Op::SfenceVma, 0, 0, 0, 0), // sfence.vma x0, x0
    (0x13d3_8073, Op::SfenceVma, 0, 7, 29, 0), // sfence.vma x7, x29
    (0x3001_10f3, Op::Csrrw, 1, 2, 0, 0x0000_0300), // csrrw x1, mstatus, x2
    (0xc000_21f3, Op::Csrrs, 3, 0, 0, 0x0000_0c00), // csrrs x3, cycle, x0
    (0x1442_b273, Op::Csrrc, 4, 5, 0, 0x0000_0144), // csrrc x4, sip, x5
    (0x180f_d373, Op::Csrrwi, 6, 31, 0, 0x0000_0180), // csrrwi x6, satp, 31
    (0xfff0_e3f3, Op::Csrrsi, 7, 1, 0, 0x0000_0fff), // csrrsi x7, 0xfff, 1
    (0x3048_7473, Op::Csrrci, 8, 16, 0, 0x0000_0304), // csrrci x8, mie, 16
    (0x1001_20af, Op::LrW, 1, 2, 0, 0), // lr.w x1, (x2)
    (0x160f_2faf, Op::LrW, 31, 30, 0, 3), // lr.w.aqrl x31, (x30)
    (0x1842_a1af, Op::ScW, 3, 5, 4, 0), // sc.w x3, x4, (x5)
    (0x1a74_232f, Op::ScW, 6, 8, 7, 1), // sc.w.rl x6, x7, (x8)
    (0x0c21_a0af, Op::AmoswapW, 1, 3, 2, 2), // amoswap.w.aq x1, x2, (x3)
    (0x0053_222f, Op::AmoaddW, 4, 6, 5, 0), // amoadd.w x4, x5, (x6)
    (0x2284_a3af, Op::AmoxorW, 7, 9, 8, 1), // amoxor.w.rl x7, x8, (x9)
    (0x60b6_252f, Op::AmoandW, 10, 12, 11, 0), // amoand.w x10, x11, (x12)
    (0x46e7_a6af, Op::AmoorW, 13, 15, 14, 3), // amoor.w.aqrl x13, x14, (x15)
    (0x8119_282f, Op::AmominW, 16, 18, 17, 0), // amomin.w x16, x17, (x18)
    (0xa14a_a9af, Op::AmomaxW, 19, 21, 20, 0), // amomax.w x19, x20, (x21)
    (0xc17c_2b2f, Op::AmominuW, 22, 24, 23, 0), // amominu.w x22, x23, (x24)
    (0xe5ad_acaf, Op::AmomaxuW, 25, 27, 26, 2), // amomaxu.w.aq x25, x26, (x27)
];

#[test]
fn assembled_words_decode_and_encode(rt: HostRuntime) {
    for (word, op, rd, rs1, rs2, imm) in WORDS {
        let ins = Ins {
            op,
            rd,
            rs1,
            rs2,
            imm,
        };
        assert_eq!(rt; decode(word), Some(ins), "{word:x}");
        assert!(rt; well_formed(&ins), "{word:x}");
        assert_eq!(rt; encode(ins), word, "{word:x}");
    }
}

/// Each row's bits with one bit turned, and words that a generator makes within each major opcode.
#[test]
fn the_loop_finds_the_same_rows(rt: HostRuntime) {
    for (_, _, bits) in slow::TABLE {
        for place in 0..32u32 {
            let word = bits ^ (1 << place);
            assert_eq!(rt; decode(word).map(|ins| ins.op), slow::row(word), "{word:x}");
        }
    }
    let mut word = 1u32;
    for _ in 0..2_000u32 {
        word = word.wrapping_mul(1_664_525).wrapping_add(1_013_904_223);
        for (_, _, bits) in slow::TABLE {
            let near = (word & 0xffff_ff80) + (bits & 0x7f);
            assert_eq!(rt; decode(near).map(|ins| ins.op), slow::row(near), "{near:x}");
        }
    }
}

/// A register of 32, a field that the format lacks, and immediates just outside of what their formats spell.
#[test]
fn some_operands_have_no_word(rt: HostRuntime) {
    let cases = [
        (Op::Add, 32, 0, 0, 0),
        (Op::Add, 0, 0, 0, 1),
        (Op::Addi, 0, 0, 1, 0),
        (Op::Addi, 0, 0, 0, 0x800),
        (Op::Sw, 1, 0, 0, 0),
        (Op::Beq, 0, 0, 0, 3),
        (Op::Beq, 0, 0, 0, 0x1000),
        (Op::Jal, 0, 0, 0, 0xffef_fffe),
        (Op::Lui, 0, 0, 0, 0x800),
        (Op::Slli, 0, 0, 0, 32),
        (Op::Csrrw, 0, 0, 0, 0x1000),
        (Op::LrW, 0, 0, 1, 0),
        (Op::ScW, 0, 0, 0, 4),
    ];
    for (op, rd, rs1, rs2, imm) in cases {
        assert!(rt;
            !well_formed(&Ins {
                op,
                rd,
                rs1,
                rs2,
                imm
            }),
            "{op:?}"
        );
    }
}

/// Words that share a place of the table of kept words, turn by turn: two instructions, one and a word that is none,
/// and one and the word that stood there from the start.
#[test]
fn words_that_share_a_place(rt: HostRuntime) {
    let mut decoder = match Decoder::new(rt.alloc()) {
        Ok(decoder) => decoder,
        Err(_) => panic!(rt; "no memory"),
    };
    let pairs: [(u32, u32); 3] = [
        (0x0000_8093, 0x2430_8093), // addi x1, x1, 0 and addi x1, x1, 0x243
        (0x2c62_8313, 0xffff_ffff), // addi x6, x5, 0x2c6
        (0x3e62_8313, 0x0000_0000), // addi x6, x5, 0x3e6
    ];
    for (one, other) in pairs {
        for word in [one, other, other, one, other] {
            let known = decoder.decode(word);
            assert_eq!(rt; known.map(|known| known.ins), decode(word), "{word:x}");
            if let Some(known) = known {
                assert_eq!(rt; known.group, Group::Computes, "{word:x}");
            }
        }
    }
    let groups: [(u32, Group); 4] = [
        (0x0014_4383, Group::Loads(1)), // lbu x7, 1(x8)
        (0x7e32_1fa3, Group::Stores(2)), // sh x3, 2047(x4)
        (0x1050_0073, Group::Others), // wfi
        (0x7fe0_00ef, Group::Computes), // jal x1, . + 0x7fe
    ];
    for (word, group) in groups {
        assert_eq!(rt;
            decoder.decode(word).map(|known| known.group),
            Some(group),
            "{word:x}"
        );
    }
}
