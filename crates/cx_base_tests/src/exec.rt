//! The rows against an outside judge, and the edges of jumps.

use crate::results;
use cx_csr::numbers::{CSR_CYCLE, CSR_MSCRATCH};
use cx_decode::{Format, Ins, Op, decode, well_formed};
use cx_exec::{
    Access, Ask, Done, Got, Misaligned, ask, control_operand, control_value, finish, reads_control,
    user_word, writes_control,
};
use std::process::Abort;

const PC: u32 = 0x8000_0100;

/// What x5 has before.
const BEFORE: u32 = 0x5555_5555;

/// An instruction with x5 as rd, x6 as rs1 and x7 as rs2, where its format has them.
fn instruction(op: Op, imm: u32) -> Ins {
    let (rd, rs1, rs2) = match op.format() {
        Format::Register | Format::Atomic => (5, 6, 7),
        Format::Store | Format::Branch | Format::Translation => (0, 6, 7),
        Format::Upper | Format::Jump => (5, 0, 0),
        Format::Plain => (0, 0, 0),
        _ => (5, 6, 0),
    };
    Ins {
        op,
        rd,
        rs1,
        rs2,
        imm,
    }
}

/// Registers with these values in x5, x6 and x7.
fn registers(x5: u32, a: u32, b: u32) -> [u32; 32] {
    let mut regs = [0; 32];
    regs[5] = x5;
    regs[6] = a;
    regs[7] = b;
    regs
}

/// What `finish` answers, once its conditions are tested.
fn finished(
    rt: &impl Abort,
    ins: Ins,
    pc: u32,
    regs: &[u32; 32],
    got: Got,
) -> Result<Done, Misaligned> {
    assert!(rt; well_formed(&ins), "{ins:?}");
    assert!(rt; ask(&ins, pc, regs).is_answered_by(got), "{ins:?}");
    finish(&ins, pc, regs, got)
}

/// One row at PC, with the values of rs1 and rs2: x5 and the value stored afterwards, with all else as it was.
fn check(rt: &impl Abort, ins: Ins, a: u32, b: u32, got: Got, x5: u32, write: Option<u32>) {
    let done = finished(rt, ins, PC, &registers(BEFORE, a, b), got);
    let wanted = Done {
        regs: registers(x5, a, b),
        pc: PC + 4,
        write,
    };
    assert_eq!(rt; done, Ok(wanted), "{ins:?} {a:x} {b:x}");
}

#[test]
fn rows_give_what_an_emulator_gives(rt: HostRuntime) {
    for (op, a, b, result) in results::REGISTERS {
        check(&rt, instruction(op, 0), a, b, Got::Nothing, result, None);
    }
    for (op, a, imm, result) in results::IMMEDIATES {
        check(&rt, instruction(op, imm), a, 0, Got::Nothing, result, None);
    }
    for (op, bytes, result) in results::LOADS {
        check(
            &rt,
            instruction(op, 0),
            0,
            0,
            Got::Bytes(bytes),
            result,
            None,
        );
    }
    for (op, b, stored) in results::STORES {
        check(
            &rt,
            instruction(op, 0),
            0,
            b,
            Got::Nothing,
            BEFORE,
            Some(stored),
        );
    }
    for (op, old, b, new) in results::ATOMICS {
        check(
            &rt,
            instruction(op, 0),
            0,
            b,
            Got::Bytes(old),
            old,
            Some(new),
        );
    }
}

#[test]
fn the_rows_that_no_emulator_shows_give_what_the_standard_says(rt: HostRuntime) {
    for (op, imm, result) in [
        (Op::Lui, 0xfedc_b000, 0xfedc_b000),
        (Op::Auipc, 0x8000_0000, 0x0000_0100),
        (Op::Fence, 0x0ff, BEFORE),
        (Op::FenceI, 0, BEFORE),
        (Op::Wfi, 0, BEFORE),
        (Op::SfenceVma, 0, BEFORE),
    ] {
        check(&rt, instruction(op, imm), 1, 2, Got::Nothing, result, None);
    }
    for op in [
        Op::Csrrw,
        Op::Csrrs,
        Op::Csrrc,
        Op::Csrrwi,
        Op::Csrrsi,
        Op::Csrrci,
    ] {
        check(
            &rt,
            instruction(op, CSR_CYCLE.into()),
            1,
            2,
            Got::Old(7),
            7,
            None,
        );
    }
    check(&rt, instruction(Op::LrW, 3), 1, 2, Got::Bytes(7), 7, None);
    check(
        &rt,
        instruction(Op::ScW, 0),
        1,
        2,
        Got::Outcome(0),
        0,
        Some(2),
    );
    check(&rt, instruction(Op::ScW, 0), 1, 2, Got::Outcome(1), 1, None);
    // register 0 reads 0, and drops what goes to it
    let mut to_zero = instruction(Op::Add, 0);
    to_zero.rd = 0;
    check(&rt, to_zero, 1, 2, Got::Nothing, BEFORE, None);
    let mut from_zero = instruction(Op::Add, 0);
    from_zero.rs1 = 0;
    check(&rt, from_zero, 1, 2, Got::Nothing, 2, None);
}

#[test]
fn branches_and_jumps_go_where_they_say(rt: HostRuntime) {
    for (op, a, b, taken) in results::BRANCHES {
        let regs = registers(BEFORE, a, b);
        let passed = Ok(Done {
            regs,
            pc: PC + 4,
            write: None,
        });
        let back = finished(&rt, instruction(op, 0xffff_fff8), PC, &regs, Got::Nothing);
        let odd = finished(&rt, instruction(op, 6), PC, &regs, Got::Nothing);
        if taken {
            assert_eq!(rt;
                back,
                Ok(Done {
                    regs,
                    pc: PC - 8,
                    write: None
                }),
                "{op:?} {a:x} {b:x}"
            );
            assert_eq!(rt;
                odd,
                Err(Misaligned { target: PC + 6 }),
                "{op:?} {a:x} {b:x}"
            );
        } else {
            assert_eq!(rt; back, passed, "{op:?} {a:x} {b:x}");
            assert_eq!(rt; odd, passed, "{op:?} {a:x} {b:x}");
        }
    }
    // a jump, its pc, rs1 and immediate, and the target
    for (op, pc, a, imm, target) in [
        (Op::Jal, PC, 0, 0x7fc, PC + 0x7fc),
        (Op::Jal, 4, 0, 0xffff_fff8, 0xffff_fffc),
        (Op::Jal, PC, 0, 2, PC + 2),
        (Op::Jalr, PC, 0x2003, 0xffff_fffe, 0x2000),
        (Op::Jalr, PC, 0xffff_ffff, 1, 0),
        (Op::Jalr, PC, 0x2003, 0, 0x2002),
    ] {
        let done = finished(
            &rt,
            instruction(op, imm),
            pc,
            &registers(BEFORE, a, 0),
            Got::Nothing,
        );
        if target % 4 == 0 {
            let regs = registers(pc + 4, a, 0);
            assert_eq!(rt;
                done,
                Ok(Done {
                    regs,
                    pc: target,
                    write: None
                }),
                "{op:?} {a:x} {imm:x}"
            );
        } else {
            assert_eq!(rt; done, Err(Misaligned { target }), "{op:?} {a:x} {imm:x}");
        }
    }
}

#[test]
fn rows_ask_for_what_they_need(rt: HostRuntime) {
    let regs = registers(0, 0x8000_1000, 0);
    let va = 0x8000_0fff;
    for (op, access, len) in [
        (Op::Lb, Access::Load, 1),
        (Op::Lhu, Access::Load, 2),
        (Op::Lw, Access::Load, 4),
        (Op::Sb, Access::Store, 1),
        (Op::Sh, Access::Store, 2),
        (Op::Sw, Access::Store, 4),
    ] {
        let ins = instruction(op, 0xffff_ffff);
        assert!(rt; well_formed(&ins), "{op:?}");
        let need = ask(&ins, PC, &regs)
            .need()
            .map(|need| (need.access, need.va, need.len));
        assert_eq!(rt; need, Some((access, va, len)), "{op:?}");
    }
    let va = 0x8000_1000;
    for (op, asked) in [
        (Op::LrW, Ask::Reserve { va }),
        (Op::ScW, Ask::Conditional { va }),
        (Op::AmomaxuW, Ask::Amo { va }),
        (Op::Csrrsi, Ask::Csr),
        (Op::Mret, Ask::System),
        (Op::Wfi, Ask::Nothing),
    ] {
        let ins = instruction(op, 0);
        assert!(rt; well_formed(&ins), "{op:?}");
        assert_eq!(rt; ask(&ins, PC, &regs), asked, "{op:?}");
        assert_eq!(rt;
            asked.need().is_some(),
            asked != Ask::Csr && asked != Ask::System && asked != Ask::Nothing
        );
    }
}

/// A word; whether it reads a control register, whether it writes one, and whether user mode can retire it.
#[test]
fn words_read_and_write_control_registers_and_retire_in_user_mode_as_they_say(rt: HostRuntime) {
    for (word, reads, writes, user) in [
        (0x3001_10f3, true, true, false), // csrrw x1, mstatus, x2
        (0x3001_1073, false, true, false), // csrrw x0, mstatus, x2
        (0x180f_d073, false, true, false), // csrrwi x0, satp, 31
        (0xc000_21f3, true, false, true), // csrrs x3, cycle, x0
        (0xc000_a1f3, true, true, false), // csrrs x3, cycle, x1
        (0xc030_21f3, true, false, false), // csrrs x3, hpmcounter3, x0
        (0xc820_7073, true, false, true), // csrrci x0, instreth, 0
        (0x0000_0073, false, false, false), // ecall
        (0x1200_0073, false, false, false), // sfence.vma x0, x0
        (0x1050_0073, false, false, true), // wfi
        (0x0000_0000, false, false, false), // no instruction
    ] {
        assert_eq!(rt;
            decode(word).is_some_and(|ins| reads_control(&ins)),
            reads,
            "{word:x}"
        );
        assert_eq!(rt;
            decode(word).is_some_and(|ins| writes_control(&ins)),
            writes,
            "{word:x}"
        );
        assert_eq!(rt; user_word(word), user, "{word:x}");
    }
    // a row, its operand, and the value that it writes over 0xff
    let regs = registers(0, 0xf0f0, 0);
    for (op, operand, value) in [
        (Op::Csrrw, 0xf0f0, 0xf0f0),
        (Op::Csrrs, 0xf0f0, 0xf0ff),
        (Op::Csrrc, 0xf0f0, 0x0f),
        (Op::Csrrci, 6, 0xf9),
    ] {
        let ins = instruction(op, CSR_MSCRATCH.into());
        assert!(rt; well_formed(&ins), "{op:?}");
        assert_eq!(rt; control_operand(&ins, &regs), operand, "{op:?}");
        assert_eq!(rt; control_value(op, 0xff, operand), value, "{op:?}");
    }
}
