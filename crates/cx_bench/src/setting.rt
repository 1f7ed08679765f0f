//! What stands in RAM when the course begins: the code in the first page, the data in the second, and the page tables
//! in the two behind it (RISC-V Unprivileged ISA 20191213, 2; Privileged Architecture 1.12, 4.3).

/// How many pages RAM has.
pub const PAGES: u32 = 4;

/// Where the code begins.
pub const CODE_START: u32 = 0x8000_0000;

/// The loop, which finds its data at x1.
pub static CODE: [u32; 17] = [
    0x0000_a283, // lw x5, 0(x1)
    0x04d2_8293, // addi x5, x5, 77
    0x0053_4333, // xor x6, x6, x5
    0x0033_1393, // slli x7, x6, 3
    0x0053_5413, // srli x8, x6, 5
    0x4083_84b3, // sub x9, x7, x8
    0x0090_a023, // sw x9, 0(x1)
    0x0020_c503, // lbu x10, 2(x1)
    0x00a5_85b3, // add x11, x11, x10
    0x0075_f613, // andi x12, x11, 7
    0x0006_1463, // bne x12, x0, 8
    0x0016_8693, // addi x13, x13, 1
    0x00b0_9223, // sh x11, 4(x1)
    0x0040_d703, // lhu x14, 4(x1)
    0x0097_4463, // blt x14, x9, 8
    0x00e7_87b3, // add x15, x15, x14
    0xfc1f_f06f, // jal x0, -64
];

/// Nearer to a program: a function that is called sums up and changes an array at x1, with a frame of its own, and each
/// thousandth step or so is a call of the environment.
pub static MIX: [u32; 29] = [
    0x7000_8113, // addi x2, x1, 0x700
    0x0060_0493, // addi x9, x0, 6
    0x0000_8513, // addi x10, x1, 0
    0x0100_0593, // addi x11, x0, 16
    0x01c0_02ef, // jal x5, 28
    0x10c0_a023, // sw x12, 256(x1)
    0xfff4_8493, // addi x9, x9, -1
    0xfe04_96e3, // bne x9, x0, -20
    0x0000_0073, // ecall
    0x0060_0493, // addi x9, x0, 6
    0xfe1f_f06f, // jal x0, -32
    0xff01_0113, // addi x2, x2, -16
    0x0051_2623, // sw x5, 12(x2)
    0x0091_2423, // sw x9, 8(x2)
    0x0000_0613, // addi x12, x0, 0
    0x0005_2683, // lw x13, 0(x10)
    0x00d6_0633, // add x12, x12, x13
    0x0016_f713, // andi x14, x13, 1
    0x0007_0463, // beq x14, x0, 8
    0x0556_c693, // xori x13, x13, 85
    0x0036_8693, // addi x13, x13, 3
    0x00d5_2023, // sw x13, 0(x10)
    0x0045_0513, // addi x10, x10, 4
    0xfff5_8593, // addi x11, x11, -1
    0xfc05_9ee3, // bne x11, x0, -36
    0x0081_2483, // lw x9, 8(x2)
    0x00c1_2283, // lw x5, 12(x2)
    0x0101_0113, // addi x2, x2, 16
    0x0002_8067, // jalr x0, 0(x5)
];

/// Where the code of machine mode begins that answers such a call.
pub const HANDLER_START: u32 = 0x8000_0800;

/// It goes on behind the call.
pub static HANDLER: [u32; 4] = [
    0x3410_2ff3, // csrrs x31, mepc, x0
    0x004f_8f93, // addi x31, x31, 4
    0x341f_9073, // csrrw x0, mepc, x31
    0x3020_0073, // mret
];

/// Where the entry of the table of level 1 stands that the addresses from 0x0040_0000 on go through.
pub const UPPER_ENTRY: u32 = 0x8000_2004;

/// It points to the table of level 0.
pub static UPPER_TABLE: [u32; 1] = [0x2000_0c01];

/// Where the table of level 0 begins.
pub const LOWER_ENTRY: u32 = 0x8000_3000;

/// The page of the code, which user mode may read and run, and that of the data, which it may read and write.
pub static LOWER_TABLE: [u32; 2] = [0x2000_005b, 0x2000_04d7];

/// The register `satp` for these tables.
pub const SATP: u32 = 0x8008_0002;
