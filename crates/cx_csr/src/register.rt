//! The control and status registers by their numbers.

ghost use Rattle.std.specs.Prelude.{◌≡◌};
ghost use Rattle.cx_csr.specs.Table.{register_at, has_no_effect};

use crate::numbers::*;

/// A control and status register that this hart has, by its name in the Privileged Architecture 1.12 (section 2.2).
#[derive(Clone, Copy, PartialEq, Eq, Debug)]
pub enum Register {
    Sstatus,
    Sie,
    Stvec,
    Scounteren,
    Sscratch,
    Sepc,
    Scause,
    Stval,
    Sip,
    Satp,
    Mstatus,
    Misa,
    Medeleg,
    Mideleg,
    Mie,
    Mtvec,
    Mcounteren,
    Mscratch,
    Mepc,
    Mcause,
    Mtval,
    Mip,
    Mcycle,
    Mcycleh,
    Minstret,
    Minstreth,
    Cycle,
    Cycleh,
    Time,
    Timeh,
    Instret,
    Instreth,
    /// One of the registers that read 0 and keep nothing: the environment's configuration, physical memory protection,
    /// the counters and events beyond the first three, and the numbers of vendor, architecture and hart.
    NoEffect,
}

impl Register {
    /// The register of this number, where this hart has one.
    #[tactic(auto, unfolding(crate::specs::Table::register_at))]
    pub fn at(number: u16) -> Option<Register>
        ensures { result ≡ register_at number }
    {
        match number {
            CSR_SSTATUS => Some(Register::Sstatus),
            CSR_SIE => Some(Register::Sie),
            CSR_STVEC => Some(Register::Stvec),
            CSR_SCOUNTEREN => Some(Register::Scounteren),
            CSR_SSCRATCH => Some(Register::Sscratch),
            CSR_SEPC => Some(Register::Sepc),
            CSR_SCAUSE => Some(Register::Scause),
            CSR_STVAL => Some(Register::Stval),
            CSR_SIP => Some(Register::Sip),
            CSR_SATP => Some(Register::Satp),
            CSR_MSTATUS => Some(Register::Mstatus),
            CSR_MISA => Some(Register::Misa),
            CSR_MEDELEG => Some(Register::Medeleg),
            CSR_MIDELEG => Some(Register::Mideleg),
            CSR_MIE => Some(Register::Mie),
            CSR_MTVEC => Some(Register::Mtvec),
            CSR_MCOUNTEREN => Some(Register::Mcounteren),
            CSR_MSCRATCH => Some(Register::Mscratch),
            CSR_MEPC => Some(Register::Mepc),
            CSR_MCAUSE => Some(Register::Mcause),
            CSR_MTVAL => Some(Register::Mtval),
            CSR_MIP => Some(Register::Mip),
            CSR_MCYCLE => Some(Register::Mcycle),
            CSR_MCYCLEH => Some(Register::Mcycleh),
            CSR_MINSTRET => Some(Register::Minstret),
            CSR_MINSTRETH => Some(Register::Minstreth),
            CSR_CYCLE => Some(Register::Cycle),
            CSR_CYCLEH => Some(Register::Cycleh),
            CSR_TIME => Some(Register::Time),
            CSR_TIMEH => Some(Register::Timeh),
            CSR_INSTRET => Some(Register::Instret),
            CSR_INSTRETH => Some(Register::Instreth),
            _ if is_without_effect(number) => Some(Register::NoEffect),
            _ => None,
        }
    }
}

/// Whether the number is one of a register that reads 0 and keeps nothing.
#[tactic(auto, unfolding(crate::specs::Table::has_no_effect))]
fn is_without_effect(number: u16) -> bool
    ensures { result ≡ has_no_effect number }
{
    matches!(
        number,
        CSR_SENVCFG | CSR_MENVCFG | CSR_MENVCFGH | CSR_MSTATUSH | CSR_MCOUNTINHIBIT
    ) || matches!(number, CSR_MHPMEVENT3..=CSR_MHPMEVENT31 | CSR_PMPCFG0..=CSR_PMPCFG3 | CSR_PMPADDR0..=CSR_PMPADDR15)
        || matches!(number, CSR_MHPMCOUNTER3..=CSR_MHPMCOUNTER31 | CSR_MHPMCOUNTER3H..=CSR_MHPMCOUNTER31H)
        || matches!(number, CSR_HPMCOUNTER3..=CSR_HPMCOUNTER31 | CSR_HPMCOUNTER3H..=CSR_HPMCOUNTER31H)
        || matches!(number, CSR_MVENDORID..=CSR_MCONFIGPTR)
}
