//! The fields of `mstatus`, each by its bit, and the masks that are made of them (Privileged 1.12, section 3.1.6).

use crate::modes::RESERVED_MODE;

/// The interrupt enable of supervisor mode (3.1.6.1).
pub const SIE: u32 = 1;
/// The interrupt enable of machine mode (3.1.6.1).
pub const MIE: u32 = 3;
/// SIE before the last trap to supervisor mode (3.1.6.1).
pub const SPIE: u32 = 5;
/// MIE before the last trap to machine mode (3.1.6.1).
pub const MPIE: u32 = 7;
/// The mode before the last trap to supervisor mode (3.1.6.1).
pub const SPP: u32 = 8;
/// The lower of the two bits of the mode before the last trap to machine mode (3.1.6.1).
pub const MPP: u32 = 11;
/// Whether data accesses of machine mode have the privilege in MPP (3.1.6.3).
pub const MPRV: u32 = 17;
/// Whether supervisor mode may access the data of user pages (3.1.6.3).
pub const SUM: u32 = 18;
/// Whether loads may read what may only be executed (3.1.6.3).
pub const MXR: u32 = 19;
/// Whether supervisor mode's accesses to `satp` and its SFENCE.VMA trap (3.1.6.5).
pub const TVM: u32 = 20;
/// Whether WFI traps below machine mode (3.1.6.5).
pub const TW: u32 = 21;
/// Whether SRET traps in supervisor mode (3.1.6.5).
pub const TSR: u32 = 22;

/// Both bits of MPP.
pub const MPP_FIELD: u32 = 3 << MPP;
/// The value of MPP that is no mode, in its place.
pub const MPP_RESERVED: u32 = (RESERVED_MODE as u32) << MPP;

/// The fields that `sstatus` shows and writes (4.1.1).
pub const SSTATUS_FIELDS: u32 = 1 << SIE | 1 << SPIE | 1 << SPP | 1 << SUM | 1 << MXR;
/// The fields of `mstatus` that this hart has, but for MPP.
pub const MSTATUS_FIELDS_BUT_MPP: u32 = SSTATUS_FIELDS
    | 1 << MIE
    | 1 << MPIE
    | 1 << MPRV
    | 1 << TVM
    | 1 << TW
    | 1 << TSR;
/// The fields of `mstatus` that this hart has.
pub const MSTATUS_FIELDS: u32 = MSTATUS_FIELDS_BUT_MPP | MPP_FIELD;

/// The fields that a trap to machine mode writes (3.1.6.1).
pub const MACHINE_TRAP_FIELDS: u32 = 1 << MIE | 1 << MPIE | MPP_FIELD;
/// The fields that a return from one writes where it leaves machine mode (3.1.6.1 and 3.1.6.3).
pub const MACHINE_RETURN_FIELDS: u32 = MACHINE_TRAP_FIELDS | 1 << MPRV;
/// The fields that a trap to supervisor mode writes (3.1.6.1).
pub const SUPERVISOR_TRAP_FIELDS: u32 = 1 << SIE | 1 << SPIE | 1 << SPP;
/// The fields that a return from one writes (3.1.6.1 and 3.1.6.3).
pub const SUPERVISOR_RETURN_FIELDS: u32 = SUPERVISOR_TRAP_FIELDS | 1 << MPRV;
