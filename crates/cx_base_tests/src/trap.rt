use cx_csr::causes::*;
use cx_csr::interrupts::*;
use cx_csr::modes::{MACHINE, SUPERVISOR, USER};
use cx_csr::status::*;
use cx_csr::{Illegal, Lines, State};
use cx_map::RAM_START;
use cx_trap::*;
use std::process::Abort;
use std::test::Fail;

/// Where the state of a test stands.
const PC: u32 = RAM_START + 0x10;
/// Where its traps go.
const MACHINE_VECTOR: u32 = RAM_START + 0x100;

const SUPERVISOR_VECTOR: u32 = RAM_START + 0x200;
/// Where its returns go.
const MACHINE_EPC: u32 = RAM_START + 0x400;

const SUPERVISOR_EPC: u32 = RAM_START + 0x800;

/// A state of zeros in this mode, but for pc, the registers of traps' places and a reservation.
fn state(mode: u8, mstatus: u32) -> Result<State, Fail> {
    let mut s = State::from_words(&[0; 58], 1)?;
    s.pc = PC;
    s.mode = mode;
    s.reservation = Some(RAM_START + 0x20);
    s.csr.mstatus = mstatus;
    s.csr.mtvec = MACHINE_VECTOR;
    s.csr.stvec = SUPERVISOR_VECTOR;
    s.csr.mepc = MACHINE_EPC;
    s.csr.sepc = SUPERVISOR_EPC;
    Ok(s)
}

/// A trap: the mode and `mstatus` before it, `medeleg`, `mideleg`, whether vectors are vectored, and the cause; then
/// the mode, pc and `mstatus` behind it.
const ENTRIES: [((u8, u32), (u32, u32, bool, u32), (u8, u32, u32)); 8] = [
    (
        (USER, 1 << MIE),
        (0, 0, false, CALL_FROM_USER),
        (MACHINE, MACHINE_VECTOR, 1 << MPIE),
    ),
    (
        (SUPERVISOR, 1 << SIE),
        (1 << LOAD_PAGE_FAULT, 0, false, LOAD_PAGE_FAULT),
        (SUPERVISOR, SUPERVISOR_VECTOR, 1 << SPIE | 1 << SPP),
    ),
    (
        (MACHINE, 1 << MIE),
        (1 << LOAD_PAGE_FAULT, 0, false, LOAD_PAGE_FAULT),
        (MACHINE, MACHINE_VECTOR, 1 << MPIE | 3 << MPP),
    ),
    (
        (USER, 3 << MPP | 1 << MIE),
        (0, SUPERVISOR_INTERRUPTS, true, INTERRUPT_BIT | MTI),
        (MACHINE, MACHINE_VECTOR + 4 * 7, 1 << MPIE),
    ),
    (
        (SUPERVISOR, 0),
        (0, 0, true, ILLEGAL_INSTRUCTION),
        (MACHINE, MACHINE_VECTOR, 1 << MPP),
    ),
    (
        (USER, 1 << SPP | 1 << SIE),
        (0, 1 << SEI, true, INTERRUPT_BIT | SEI),
        (SUPERVISOR, SUPERVISOR_VECTOR + 4 * 9, 1 << SPIE),
    ),
    (
        (SUPERVISOR, 1 << SIE),
        (1 << SSI, 1 << SEI, false, INTERRUPT_BIT | SSI),
        (MACHINE, MACHINE_VECTOR, 1 << MPP | 1 << SIE),
    ),
    (
        (USER, 0),
        (1 << BREAKPOINT, 0, true, BREAKPOINT),
        (SUPERVISOR, SUPERVISOR_VECTOR, 0),
    ),
];

#[test]
fn a_trap_goes_where_its_cause_is_delegated(rt: HostRuntime) -> Result<(), Fail> {
    for ((mode, mstatus), (medeleg, mideleg, vectored, cause), after) in &ENTRIES {
        let mut s = state(*mode, *mstatus)?;
        s.csr.medeleg = *medeleg;
        s.csr.mideleg = *mideleg;
        s.csr.mtvec |= u32::from(*vectored);
        s.csr.stvec |= u32::from(*vectored);
        assert!(rt; is_trap_cause(*cause));
        enter(&mut s, *cause, 0x77);
        assert_eq!(rt;
            (s.mode, s.pc, s.csr.mstatus),
            *after,
            "cause {cause} in mode {mode}"
        );
        let kept = if s.mode == MACHINE {
            (s.csr.mepc, s.csr.mcause, s.csr.mtval)
        } else {
            (s.csr.sepc, s.csr.scause, s.csr.stval)
        };
        assert_eq!(rt; kept, (PC, *cause, 0x77), "cause {cause} in mode {mode}");
        assert_eq!(rt; s.reservation, None);
    }
    Ok(())
}

/// Mode and `mstatus` before; then mode and `mstatus` after MRET, or none.
const MACHINE_RETURNS: [((u8, u32), Option<(u8, u32)>); 4] = [
    (
        (MACHINE, 1 << MPRV | 1 << MPP | 1 << MPIE),
        Some((SUPERVISOR, 1 << MPIE | 1 << MIE)),
    ),
    (
        (MACHINE, 1 << MPRV | 3 << MPP),
        Some((MACHINE, 1 << MPRV | 1 << MPIE)),
    ),
    ((SUPERVISOR, 1 << MPP | 1 << MPIE), None),
    ((USER, 1 << MPP | 1 << MPIE), None),
];

/// The same of SRET.
const SUPERVISOR_RETURNS: [((u8, u32), Option<(u8, u32)>); 5] = [
    (
        (SUPERVISOR, 1 << SPP | 1 << SPIE),
        Some((SUPERVISOR, 1 << SPIE | 1 << SIE)),
    ),
    (
        (SUPERVISOR, 1 << MPRV | 3 << MPP),
        Some((USER, 3 << MPP | 1 << SPIE)),
    ),
    ((SUPERVISOR, 1 << TSR | 1 << SPP | 1 << SPIE), None),
    (
        (MACHINE, 1 << TSR | 1 << MPRV | 1 << SPIE),
        Some((USER, 1 << TSR | 1 << SPIE | 1 << SIE)),
    ),
    ((USER, 1 << SPP | 1 << SPIE), None),
];

fn returns(
    rt: &impl Abort,
    before: &(u8, u32),
    after: &Option<(u8, u32)>,
    machine: bool,
) -> Result<(), Fail> {
    let (mode, mstatus) = before;
    let old = state(*mode, *mstatus)?;
    let mut new = old;
    let (legal, answer, pc) = if machine {
        (can_mret(&old), mret(&mut new), MACHINE_EPC)
    } else {
        (can_sret(&old), sret(&mut new), SUPERVISOR_EPC)
    };
    assert_eq!(rt; legal, after.is_some());
    match after {
        None => {
            assert_eq!(rt; answer, Err(Illegal));
            assert_eq!(rt; new, old);
        }
        Some((to, status)) => {
            assert_eq!(rt; answer, Ok(()));
            assert_eq!(rt; (new.mode, new.pc, new.csr.mstatus), (*to, pc, *status));
            assert_eq!(rt; new.reservation, old.reservation);
        }
    }
    Ok(())
}

#[test]
fn a_return_restores_mode_and_enables_or_is_illegal(rt: HostRuntime) -> Result<(), Fail> {
    for (before, after) in &MACHINE_RETURNS {
        returns(&rt, before, after, true)?;
    }
    for (before, after) in &SUPERVISOR_RETURNS {
        returns(&rt, before, after, false)?;
    }
    Ok(())
}

/// Mode and `mstatus`; `mideleg`, `mie`, the software bits of `mip` and the lines; then the interrupt that is to be
/// taken.
const PENDING: [((u8, u32), [u32; 4], Option<u32>); 16] = [
    ((USER, 0), [0, 0xaaa, 0, 0], None),
    ((USER, 0), [0, 0, 0x222, 0xa88], None),
    ((USER, 0), [0, 0xaaa, 0x222, 0xa88], Some(MEI)),
    ((USER, 0), [0, 0x2aa, 0x222, 0xa88], Some(MSI)),
    ((USER, 0), [0, 0x2a2, 0x222, 0xa88], Some(MTI)),
    ((USER, 0), [0, 0x222, 0x222, 0xa88], Some(SEI)),
    ((USER, 0), [0, 0x022, 0x222, 0xa88], Some(SSI)),
    ((USER, 0), [0, 0x020, 0x222, 0xa88], Some(STI)),
    ((MACHINE, 1 << SIE), [0, 0xaaa, 0x222, 0xa88], None),
    ((MACHINE, 1 << MIE), [0, 0xaaa, 0x222, 0xa88], Some(MEI)),
    (
        (MACHINE, 1 << MIE | 1 << SIE),
        [0x222, 0x222, 0x222, 0xa88],
        None,
    ),
    ((SUPERVISOR, 1 << MIE), [0x222, 0x222, 0, 0x200], None),
    ((SUPERVISOR, 1 << SIE), [0x222, 0x222, 0, 0x200], Some(SEI)),
    ((USER, 0), [0x222, 0x222, 0, 0x200], Some(SEI)),
    ((SUPERVISOR, 1 << SIE), [0x222, 0xaaa, 0, 0x280], Some(MTI)),
    ((SUPERVISOR, 0), [0x020, 0x222, 0x022, 0], Some(SSI)),
];

#[test]
fn the_interrupt_of_the_highest_priority_that_is_enabled_comes_first(
    rt: HostRuntime,
) -> Result<(), Fail> {
    for ((mode, mstatus), [mideleg, mie, mip, lines], interrupt) in &PENDING {
        let mut s = state(*mode, *mstatus)?;
        s.csr.mideleg = *mideleg;
        s.csr.mie = *mie;
        s.csr.mip = *mip;
        s.lines = Lines(*lines);
        assert_eq!(rt;
            pending(&s),
            *interrupt,
            "mode {mode}, mstatus {mstatus}, mideleg {mideleg}, mie {mie}"
        );
    }
    Ok(())
}
