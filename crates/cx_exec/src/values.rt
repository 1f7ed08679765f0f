//! The values that an instruction works on, and the kinds of effect.

ghost use Rattle.std.specs.Prelude.{◌≡◌, ◌^◌, ◌<◌, length};
ghost use Rattle.cx_exec.specs.Effect.{goes};
ghost use Rattle.cx_exec.specs.Values.{register};

use crate::effect::{Effect, Misaligned};
use crate::got::Got;
use cx_decode::Ins;

/// The values that an instruction works on, and the number of the register that its result goes to.
#[derive(Clone, Copy, Debug, PartialEq, Eq)]
pub struct Values {
    /// The register of the result.
    pub rd: u8,
    /// Where the instruction stands.
    pub pc: u32,
    /// The value of rs1.
    pub a: u32,
    /// The value of rs2.
    pub b: u32,
    /// The immediate.
    pub imm: u32,
    /// What was got.
    pub got: u32,
}

/// The value of a register; register 0 reads 0.
#[inline(always)]
pub fn register(regs: &[u32; 32], number: u8) -> u32
    requires { number < 32 }
    ensures { result ≡ register regs.now number }
{
    if number == 0 {
        0
    } else {
        regs[number as usize]
    }
}

impl Values {
    ghost use Rattle.cx_exec.specs.Effect.{branches, concludes, following, gives, jumps, passes, stores, swaps};
    ghost use Rattle.cx_exec.specs.Values.{values_of};

    /// The values of an instruction.
    #[inline(always)]
    pub fn of(ins: &Ins, pc: u32, regs: &[u32; 32], got: Got) -> Values
        requires rs1 { ins.now.rs1 < 32 }
        requires rs2 { ins.now.rs2 < 32 }
        ensures { result ≡ values_of ins.now pc regs.now got }
    {
        Values {
            rd: ins.rd,
            pc,
            a: register(regs, ins.rs1),
            b: register(regs, ins.rs2),
            imm: ins.imm,
            got: got.number(),
        }
    }

    #[inline(always)]
    fn following(&self) -> u32
        ensures { result ≡ following self.now }
    {
        self.pc.wrapping_add(4)
    }

    /// No result and no store.
    #[inline(always)]
    pub fn passes(&self) -> Result<Effect, Misaligned>
        ensures { result ≡ passes self.now }
    {
        Ok(Effect {
            rd: 0,
            value: 0,
            pc: self.following(),
            write: None,
        })
    }

    /// A value to rd.
    #[inline(always)]
    pub fn gives(&self, value: u32) -> Result<Effect, Misaligned>
        ensures { result ≡ gives self.now value }
    {
        Ok(Effect {
            rd: self.rd,
            value,
            pc: self.following(),
            write: None,
        })
    }

    /// A value to memory.
    #[inline(always)]
    pub fn stores(&self, value: u32) -> Result<Effect, Misaligned>
        ensures { result ≡ stores self.now value }
    {
        Ok(Effect {
            rd: 0,
            value: 0,
            pc: self.following(),
            write: Some(value),
        })
    }

    /// The old word to rd, and a new one to memory.
    pub fn swaps(&self, value: u32) -> Result<Effect, Misaligned>
        ensures { result ≡ swaps self.now value }
    {
        Ok(Effect {
            rd: self.rd,
            value: self.got,
            pc: self.following(),
            write: Some(value),
        })
    }

    /// An SC: b to memory and 0 to rd where it succeeds, else 1 to rd.
    pub fn concludes(&self, succeeds: bool) -> Result<Effect, Misaligned>
        ensures { result ≡ concludes self.now succeeds }
    {
        let pc = self.following();
        if succeeds {
            Ok(Effect {
                rd: self.rd,
                value: 0,
                pc,
                write: Some(self.b),
            })
        } else {
            Ok(Effect {
                rd: self.rd,
                value: 1,
                pc,
                write: None,
            })
        }
    }

    /// A jump, which leaves the place behind it in rd.
    #[inline(always)]
    pub fn jumps(&self, target: u32) -> Result<Effect, Misaligned>
        ensures { result ≡ jumps self.now target }
    {
        goes(self.rd, self.following(), target)
    }

    /// A branch by the immediate where it is taken.
    #[inline(always)]
    pub fn branches(&self, taken: bool) -> Result<Effect, Misaligned>
        ensures { result ≡ branches self.now taken }
    {
        if taken {
            goes(0, 0, self.pc.wrapping_add(self.imm))
        } else {
            self.passes()
        }
    }
}

/// On to a target, with a value to a register.
#[inline(always)]
fn goes(rd: u8, value: u32, target: u32) -> Result<Effect, Misaligned>
    ensures { result ≡ goes rd value target }
{
    if target % 4 == 0 {
        Ok(Effect {
            rd,
            value,
            pc: target,
            write: None,
        })
    } else {
        Err(Misaligned { target })
    }
}
