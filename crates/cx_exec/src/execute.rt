//! An instruction carried out.

ghost use Rattle.std.specs.Prelude.{◌≡◌, ◌<◌, IfOk, is_some};
ghost use Rattle.cx_decode.specs.WellFormed.{WellFormed};
ghost use Rattle.cx_exec.specs.Asking.{FitsAsk, ask_of, writes_memory};
ghost use Rattle.cx_exec.specs.Effect.{done_of, effect_of};
ghost use Rattle.cx_exec.specs.Values.{registers_with};

use crate::arithmetic::{
    greater_signed, less_signed, lesser_signed, quotient, quotient_signed, remainder,
    remainder_signed, shifted_right_signed, signed_byte, signed_half, truth, upper_mixed,
    upper_signed, upper_unsigned,
};
use crate::effect::{Done, Effect, Misaligned};
use crate::got::Got;
use crate::values::Values;
use cx_decode::{Ins, Op};

/// The effect of an instruction at pc, with these registers and what it got for its ask; of an answer of another kind
/// its number counts alone. `Misaligned` comes exactly where a jump or a taken branch has a target that isn't a
/// multiple of 4. A value is stored exactly where the ask is for a store. ECALL, EBREAK, SRET and MRET go on to pc + 4:
/// what they do besides is no matter of these values.
#[inline(always)]
pub fn carry_out(ins: &Ins, pc: u32, regs: &[u32; 32], got: Got) -> Result<Effect, Misaligned>
    requires { WellFormed ins.now }
    ensures effect { result ≡ effect_of ins.now pc regs.now got }
    ensures register { IfOk result (λ e. e.rd < 32) }
    ensures stored { IfOk result (λ e. is_some e.write ≡ writes_memory (ask_of ins.now pc regs.now) got) }
{
    let v = Values::of(ins, pc, regs, got);
    match ins.op {
        // RV32I: constants (Unprivileged ISA, 2.4)
        Op::Lui => v.gives(v.imm),
        Op::Auipc => v.gives(v.pc.wrapping_add(v.imm)),
        // RV32I: jumps and branches (2.5)
        Op::Jal => v.jumps(v.pc.wrapping_add(v.imm)),
        Op::Jalr => v.jumps(v.a.wrapping_add(v.imm) & 0xffff_fffe),
        Op::Beq => v.branches(v.a == v.b),
        Op::Bne => v.branches(v.a != v.b),
        Op::Blt => v.branches(less_signed(v.a, v.b)),
        Op::Bge => v.branches(!less_signed(v.a, v.b)),
        Op::Bltu => v.branches(v.a < v.b),
        Op::Bgeu => v.branches(v.a >= v.b),
        // RV32I: loads and stores (2.6)
        Op::Lb => v.gives(signed_byte(v.got)),
        Op::Lh => v.gives(signed_half(v.got)),
        Op::Lw => v.gives(v.got),
        Op::Lbu => v.gives(v.got & 0xff),
        Op::Lhu => v.gives(v.got & 0xffff),
        Op::Sb => v.stores(v.b & 0xff),
        Op::Sh => v.stores(v.b & 0xffff),
        Op::Sw => v.stores(v.b),
        // RV32I: computation with an immediate (2.4)
        Op::Addi => v.gives(v.a.wrapping_add(v.imm)),
        Op::Slti => v.gives(truth(less_signed(v.a, v.imm))),
        Op::Sltiu => v.gives(truth(v.a < v.imm)),
        Op::Xori => v.gives(v.a ^ v.imm),
        Op::Ori => v.gives(v.a | v.imm),
        Op::Andi => v.gives(v.a & v.imm),
        Op::Slli => v.gives(v.a << v.imm),
        Op::Srli => v.gives(v.a >> v.imm),
        Op::Srai => v.gives(shifted_right_signed(v.a, v.imm)),
        // RV32I: computation on registers (2.4)
        Op::Add => v.gives(v.a.wrapping_add(v.b)),
        Op::Sub => v.gives(v.a.wrapping_sub(v.b)),
        Op::Sll => v.gives(v.a << (v.b % 32)),
        Op::Slt => v.gives(truth(less_signed(v.a, v.b))),
        Op::Sltu => v.gives(truth(v.a < v.b)),
        Op::Xor => v.gives(v.a ^ v.b),
        Op::Srl => v.gives(v.a >> (v.b % 32)),
        Op::Sra => v.gives(shifted_right_signed(v.a, v.b % 32)),
        Op::Or => v.gives(v.a | v.b),
        Op::And => v.gives(v.a & v.b),
        // M: multiplication and division (7.1, 7.2)
        Op::Mul => v.gives(v.a.wrapping_mul(v.b)),
        Op::Mulh => v.gives(upper_signed(v.a, v.b)),
        Op::Mulhsu => v.gives(upper_mixed(v.a, v.b)),
        Op::Mulhu => v.gives(upper_unsigned(v.a, v.b)),
        Op::Div => v.gives(quotient_signed(v.a, v.b)),
        Op::Divu => v.gives(quotient(v.a, v.b)),
        Op::Rem => v.gives(remainder_signed(v.a, v.b)),
        Op::Remu => v.gives(remainder(v.a, v.b)),
        // Zicsr: control registers (9.1)
        Op::Csrrw | Op::Csrrs | Op::Csrrc | Op::Csrrwi | Op::Csrrsi | Op::Csrrci => v.gives(v.got),
        // A: load-reserved and store-conditional (8.2)
        Op::LrW => v.gives(v.got),
        Op::ScW => v.concludes(v.got == 0),
        // A: atomic memory operations (8.4)
        Op::AmoswapW => v.swaps(v.b),
        Op::AmoaddW => v.swaps(v.got.wrapping_add(v.b)),
        Op::AmoxorW => v.swaps(v.got ^ v.b),
        Op::AmoandW => v.swaps(v.got & v.b),
        Op::AmoorW => v.swaps(v.got | v.b),
        Op::AmominW => v.swaps(lesser_signed(v.got, v.b)),
        Op::AmomaxW => v.swaps(greater_signed(v.got, v.b)),
        Op::AmominuW => v.swaps(v.got.min(v.b)),
        Op::AmomaxuW => v.swaps(v.got.max(v.b)),
        // fences, waits, and what the hart does itself
        Op::Fence
        | Op::FenceI
        | Op::Ecall
        | Op::Ebreak
        | Op::Sret
        | Op::Mret
        | Op::Wfi
        | Op::SfenceVma => v.passes(),
    }
}

/// A value goes to a register; register 0 drops it.
#[inline(always)]
pub fn put(regs: &mut [u32; 32], rd: u8, value: u32)
    requires { rd < 32 }
    ensures { regs.new ≡ registers_with regs.old rd value }
{
    if rd != 0 {
        regs[rd as usize] = value;
    }
}

/// All registers, pc and the value stored once an instruction is carried out, as `carry_out` has it.
pub fn finish(ins: &Ins, pc: u32, regs: &[u32; 32], got: Got) -> Result<Done, Misaligned>
    requires formed { WellFormed ins.now }
    requires answered { FitsAsk (ask_of ins.now pc regs.now) got }
    ensures { result ≡ done_of regs.now (effect_of ins.now pc regs.now got) }
{
    match carry_out(ins, pc, regs, got) {
        Ok(effect) => {
            let mut regs = *regs;
            put(&mut regs, effect.rd, effect.value);
            Ok(Done {
                regs,
                pc: effect.pc,
                write: effect.write,
            })
        }
        Err(misaligned) => Err(misaligned),
    }
}
