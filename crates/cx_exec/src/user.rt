//! What user mode can retire.

ghost use Rattle.std.specs.Prelude.{◌≡◌, ◌↔◌, IsTrue};
ghost use Rattle.cx_exec.specs.User.{IsUserWord, is_base_counter, user_retires};

use cx_csr::numbers::{CSR_CYCLE, CSR_CYCLEH, CSR_INSTRET, CSR_INSTRETH, CSR_TIME, CSR_TIMEH};
use cx_decode::{Ins, Op, decode};

/// The counters that user mode may read: cycle, time, instret and their high halves.
fn is_base_counter(number: u32) -> bool
    ensures { result ≡ is_base_counter number }
{
    let Ok(number) = u16::try_from(number) else {
        return false;
    };
    matches!(
        number,
        CSR_CYCLE | CSR_TIME | CSR_INSTRET | CSR_CYCLEH | CSR_TIMEH | CSR_INSTRETH
    )
}

/// Whether an instruction is one that user mode can retire: all but ECALL, EBREAK, MRET, SRET and SFENCE.VMA, and those
/// of the control registers that do more than read a counter.
pub fn user_retires(ins: &Ins) -> bool
    ensures { result ≡ user_retires ins.now }
{
    match ins.op {
        Op::Ecall | Op::Ebreak | Op::Mret | Op::Sret | Op::SfenceVma | Op::Csrrw | Op::Csrrwi =>
            false,
        Op::Csrrs | Op::Csrrc | Op::Csrrsi | Op::Csrrci => ins.rs1 == 0 && is_base_counter(ins.imm),
        _ => true,
    }
}

/// Whether a word is one that user mode can retire.
pub fn user_word(word: u32) -> bool
    ensures { IsTrue result ↔ IsUserWord word }
{
    match decode(word) {
        Some(ins) => user_retires(&ins),
        None => false,
    }
}
