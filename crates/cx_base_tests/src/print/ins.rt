//! Instructions as text.

use cx_decode::decode;
use cx_print::ins_text;

/// Words and their texts. All but the last 5 words were made with GNU as 2.40, and their texts are its lines with what
/// differs here put in by hand: distances from `pc`, decimal immediates, numbers of control registers, and fences that
/// stand alone.
const TEXTS: [(u32, &[u8]); 83] = [
    (0x1234_52b7, b"lui x5, 0x12345"),
    (0xffff_ffb7, b"lui x31, 0xfffff"),
    (0x8000_0097, b"auipc x1, 0x80000"),
    (0x7fe0_00ef, b"jal x1, pc+2046"),
    (0x8000_006f, b"jal x0, pc-1048576"),
    (0x7fff_f1ef, b"jal x3, pc+1048574"),
    (0xfff1_00e7, b"jalr x1, -1(x2)"),
    (0x7e20_8fe3, b"beq x1, x2, pc+4094"),
    (0x8041_9063, b"bne x3, x4, pc-4096"),
    (0xfe62_cfe3, b"blt x5, x6, pc-2"),
    (0x0083_d0e3, b"bge x7, x8, pc+2048"),
    (0x7ea4_e063, b"bltu x9, x10, pc+2016"),
    (0x01ff_7f63, b"bgeu x30, x31, pc+30"),
    (0x8001_0083, b"lb x1, -2048(x2)"),
    (0x7ff2_1183, b"lh x3, 2047(x4)"),
    (0xfff3_2283, b"lw x5, -1(x6)"),
    (0x0014_4383, b"lbu x7, 1(x8)"),
    (0x5555_5483, b"lhu x9, 1365(x10)"),
    (0x8011_0023, b"sb x1, -2048(x2)"),
    (0x7e32_1fa3, b"sh x3, 2047(x4)"),
    (0xfe53_2fa3, b"sw x5, -1(x6)"),
    (0x0000_0013, b"addi x0, x0, 0"),
    (0xeef5_0513, b"addi x10, x10, -273"),
    (0x7ff6_2593, b"slti x11, x12, 2047"),
    (0x8007_3693, b"sltiu x13, x14, -2048"),
    (0xfff8_4793, b"xori x15, x16, -1"),
    (0x2aa9_6893, b"ori x17, x18, 682"),
    (0x155a_7993, b"andi x19, x20, 341"),
    (0x01fb_1a93, b"slli x21, x22, 31"),
    (0x001c_5b93, b"srli x23, x24, 1"),
    (0x411d_5c93, b"srai x25, x26, 17"),
    (0x0031_00b3, b"add x1, x2, x3"),
    (0x4062_8233, b"sub x4, x5, x6"),
    (0x0094_13b3, b"sll x7, x8, x9"),
    (0x00c5_a533, b"slt x10, x11, x12"),
    (0x00f7_36b3, b"sltu x13, x14, x15"),
    (0x0128_c833, b"xor x16, x17, x18"),
    (0x015a_59b3, b"srl x19, x20, x21"),
    (0x418b_db33, b"sra x22, x23, x24"),
    (0x01bd_6cb3, b"or x25, x26, x27"),
    (0x01ee_fe33, b"and x28, x29, x30"),
    (0x03df_0fb3, b"mul x31, x30, x29"),
    (0x03ad_9e33, b"mulh x28, x27, x26"),
    (0x037c_2cb3, b"mulhsu x25, x24, x23"),
    (0x034a_bb33, b"mulhu x22, x21, x20"),
    (0x0319_49b3, b"div x19, x18, x17"),
    (0x02e7_d833, b"divu x16, x15, x14"),
    (0x02b6_66b3, b"rem x13, x12, x11"),
    (0x0284_f533, b"remu x10, x9, x8"),
    (0x0310_000f, b"fence"),
    (0x0ff0_000f, b"fence"),
    (0x0000_100f, b"fence.i"),
    (0x0000_0073, b"ecall"),
    (0x0010_0073, b"ebreak"),
    (0x1020_0073, b"sret"),
    (0x3020_0073, b"mret"),
    (0x1050_0073, b"wfi"),
    (0x1200_0073, b"sfence.vma x0, x0"),
    (0x13d3_8073, b"sfence.vma x7, x29"),
    (0x3001_10f3, b"csrrw x1, 300, x2"),
    (0xc000_21f3, b"csrrs x3, c00, x0"),
    (0x1442_b273, b"csrrc x4, 144, x5"),
    (0x180f_d373, b"csrrwi x6, 180, 31"),
    (0xfff0_e3f3, b"csrrsi x7, fff, 1"),
    (0x3048_7473, b"csrrci x8, 304, 16"),
    (0x1001_20af, b"lr.w x1, (x2)"),
    (0x160f_2faf, b"lr.w.aqrl x31, (x30)"),
    (0x1842_a1af, b"sc.w x3, x4, (x5)"),
    (0x1a74_232f, b"sc.w.rl x6, x7, (x8)"),
    (0x0c21_a0af, b"amoswap.w.aq x1, x2, (x3)"),
    (0x0053_222f, b"amoadd.w x4, x5, (x6)"),
    (0x2284_a3af, b"amoxor.w.rl x7, x8, (x9)"),
    (0x60b6_252f, b"amoand.w x10, x11, (x12)"),
    (0x46e7_a6af, b"amoor.w.aqrl x13, x14, (x15)"),
    (0x8119_282f, b"amomin.w x16, x17, (x18)"),
    (0xa14a_a9af, b"amomax.w x19, x20, (x21)"),
    (0xc17c_2b2f, b"amominu.w x22, x23, (x24)"),
    (0xe5ad_acaf, b"amomaxu.w.aq x25, x26, (x27)"),
    (0x0000_00b7, b"lui x1, 0x0"),
    (0x0000_a0b7, b"lui x1, 0xa"),
    (0x0000_00ef, b"jal x1, pc+0"),
    (0x0042_a303, b"lw x6, 4(x5)"),
    (0x1811_232f, b"sc.w x6, x1, (x2)"),
];

#[test]
fn instructions_are_shown(rt: HostRuntime) {
    for (word, text) in TEXTS {
        let shown = decode(word).map(|ins| ins_text(&ins));
        assert!(rt;
            shown.is_some_and(|shown| shown.bytes() == text),
            "{word:x}"
        );
    }
}
