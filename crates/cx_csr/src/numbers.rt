//! The numbers of the control and status registers that this hart has (Privileged 1.12, section 2.2).

// Of supervisor mode.
/// The status of supervisor mode.
pub const CSR_SSTATUS: u16 = 0x100;
/// The interrupt enables of supervisor mode.
pub const CSR_SIE: u16 = 0x104;
/// The trap vector of supervisor mode.
pub const CSR_STVEC: u16 = 0x105;
/// The counters that user mode may read.
pub const CSR_SCOUNTEREN: u16 = 0x106;
/// The configuration of user mode's environment.
pub const CSR_SENVCFG: u16 = 0x10a;
/// A word of supervisor mode's own.
pub const CSR_SSCRATCH: u16 = 0x140;
/// Where the last trap to supervisor mode was taken.
pub const CSR_SEPC: u16 = 0x141;
/// Why it was taken.
pub const CSR_SCAUSE: u16 = 0x142;
/// The address or the word that it was taken for.
pub const CSR_STVAL: u16 = 0x143;
/// The pending interrupts of supervisor mode.
pub const CSR_SIP: u16 = 0x144;
/// The root of the page table.
pub const CSR_SATP: u16 = 0x180;

// Of machine mode.
/// The status of machine mode.
pub const CSR_MSTATUS: u16 = 0x300;
/// The extensions.
pub const CSR_MISA: u16 = 0x301;
/// The exceptions that go to supervisor mode.
pub const CSR_MEDELEG: u16 = 0x302;
/// The interrupts that go to supervisor mode.
pub const CSR_MIDELEG: u16 = 0x303;
/// The interrupt enables.
pub const CSR_MIE: u16 = 0x304;
/// The trap vector of machine mode.
pub const CSR_MTVEC: u16 = 0x305;
/// The counters that the modes below machine mode may read.
pub const CSR_MCOUNTEREN: u16 = 0x306;
/// The configuration of the environment of the modes below machine mode.
pub const CSR_MENVCFG: u16 = 0x30a;
/// The high half of the status.
pub const CSR_MSTATUSH: u16 = 0x310;
/// The high half of `menvcfg`.
pub const CSR_MENVCFGH: u16 = 0x31a;
/// The counters that stand still.
pub const CSR_MCOUNTINHIBIT: u16 = 0x320;
/// The first selector of an event to count.
pub const CSR_MHPMEVENT3: u16 = 0x323;
/// The last selector of an event to count.
pub const CSR_MHPMEVENT31: u16 = 0x33f;
/// A word of machine mode's own.
pub const CSR_MSCRATCH: u16 = 0x340;
/// Where the last trap to machine mode was taken.
pub const CSR_MEPC: u16 = 0x341;
/// Why it was taken.
pub const CSR_MCAUSE: u16 = 0x342;
/// The address or the word that it was taken for.
pub const CSR_MTVAL: u16 = 0x343;
/// The pending interrupts.
pub const CSR_MIP: u16 = 0x344;
/// The first configuration of physical memory protection.
pub const CSR_PMPCFG0: u16 = 0x3a0;
/// The last configuration of physical memory protection.
pub const CSR_PMPCFG3: u16 = 0x3a3;
/// The first address of physical memory protection.
pub const CSR_PMPADDR0: u16 = 0x3b0;
/// The last address of physical memory protection.
pub const CSR_PMPADDR15: u16 = 0x3bf;
/// The low half of the count of steps.
pub const CSR_MCYCLE: u16 = 0xb00;
/// The low half of the count of instructions that retired.
pub const CSR_MINSTRET: u16 = 0xb02;
/// The low half of the first count of events.
pub const CSR_MHPMCOUNTER3: u16 = 0xb03;
/// The low half of the last count of events.
pub const CSR_MHPMCOUNTER31: u16 = 0xb1f;
/// The high half of the count of steps.
pub const CSR_MCYCLEH: u16 = 0xb80;
/// The high half of the count of instructions that retired.
pub const CSR_MINSTRETH: u16 = 0xb82;
/// The high half of the first count of events.
pub const CSR_MHPMCOUNTER3H: u16 = 0xb83;
/// The high half of the last count of events.
pub const CSR_MHPMCOUNTER31H: u16 = 0xb9f;
/// The vendor, the first of the numbers that tell what hart this is.
pub const CSR_MVENDORID: u16 = 0xf11;
/// Where a description of the machine lies, the last of these numbers.
pub const CSR_MCONFIGPTR: u16 = 0xf15;

// Of user mode.
/// The low half of `mcycle`, to be read.
pub const CSR_CYCLE: u16 = 0xc00;
/// The low half of the time.
pub const CSR_TIME: u16 = 0xc01;
/// The low half of `minstret`, to be read.
pub const CSR_INSTRET: u16 = 0xc02;
/// The low half of the first count of events, to be read.
pub const CSR_HPMCOUNTER3: u16 = 0xc03;
/// The low half of the last count of events, to be read.
pub const CSR_HPMCOUNTER31: u16 = 0xc1f;
/// The high half of `mcycle`, to be read.
pub const CSR_CYCLEH: u16 = 0xc80;
/// The high half of the time.
pub const CSR_TIMEH: u16 = 0xc81;
/// The high half of `minstret`, to be read.
pub const CSR_INSTRETH: u16 = 0xc82;
/// The high half of the first count of events, to be read.
pub const CSR_HPMCOUNTER3H: u16 = 0xc83;
/// The high half of the last count of events, to be read.
pub const CSR_HPMCOUNTER31H: u16 = 0xc9f;
