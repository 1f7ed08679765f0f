//! What flags, modes and bits of mstatus permit.

use crate::walk::KINDS;
use crate::walk::tables::ended;
use crate::walk::view::{memory, state_in, walked};
use cx_csr::fields::SATP_MODE;
use cx_csr::modes::{MACHINE, SUPERVISOR, USER};
use cx_csr::status;
use cx_map::{PAGE_SIZE, RAM_START};
use cx_walk::{Kind, Place};

// satp with the first page of RAM as the root, with translation off and on.
const OFF: u32 = RAM_START / PAGE_SIZE as u32;

const ON: u32 = 1 << SATP_MODE | OFF;

const MPRV: u32 = 1 << status::MPRV;

const SUM: u32 = 1 << status::SUM;

const MXR: u32 = 1 << status::MXR;

#[test]
fn a_leaf_permits_what_its_flags_and_mstatus_say(rt: HostRuntime) {
    // The mode, mstatus and the flags D, A, G, U, X, W, R and V of a leaf, and whether it permits each of the kinds.
    let cases = [
        (USER, 0, 0b1101_0011, [false, true, false, true, false]),
        (USER, 0, 0b1101_1001, [true, false, false, false, false]),
        (USER, MXR, 0b1101_1001, [true, true, false, true, false]),
        (USER, 0, 0b1101_0111, [false, true, true, true, true]),
        (USER, 0, 0b1101_1111, [true, true, true, true, true]),
        (USER, 0, 0b1111_1111, [true, true, true, true, true]),
        (USER, 0, 0b0101_1111, [true, true, false, true, false]),
        // W without R; no R, W or X; no V; no A
        (USER, 0, 0b1101_0101, [false, false, false, false, false]),
        (USER, MXR, 0b1101_1101, [false, false, false, false, false]),
        (USER, 0, 0b1101_0001, [false, false, false, false, false]),
        (USER, 0, 0b0000_0001, [false, false, false, false, false]),
        (USER, 0, 0b1101_1110, [false, false, false, false, false]),
        (USER, 0, 0b1001_1111, [false, false, false, false, false]),
        // the pages of the other mode
        (USER, SUM, 0b1100_1111, [false, false, false, false, false]),
        (SUPERVISOR, 0, 0b1100_1111, [true, true, true, true, true]),
        (
            SUPERVISOR,
            MPRV,
            0b1101_1111,
            [false, false, false, false, false],
        ),
        (
            SUPERVISOR,
            SUM,
            0b1101_1111,
            [false, true, true, true, true],
        ),
        (
            SUPERVISOR,
            SUM,
            0b1101_1001,
            [false, false, false, false, false],
        ),
        (
            SUPERVISOR,
            SUM | MXR,
            0b1101_1001,
            [false, true, false, true, false],
        ),
    ];
    for (mode, mstatus, flags, permitted) in cases {
        let view = memory(&[
            (RAM_START, 0x2000_0401),
            (RAM_START + 0x1000, 0x2000_0c00 | flags),
        ]);
        let state = state_in(mode, mstatus);
        for ((kind, page_fault, _), permits) in KINDS.iter().zip(&permitted) {
            let answer = walked(&rt, &view, &state, *kind, 0, 4).answer;
            let wanted = if *permits {
                Ok(Place::Ram(RAM_START + 0x3000))
            } else {
                Err(*page_fault)
            };
            assert_eq!(rt; answer, wanted, "{mode} {mstatus:x} {flags:x} {kind:?}");
        }
    }
}

#[test]
fn an_access_is_translated_with_the_privilege_of_its_mode(rt: HostRuntime) {
    let view = memory(&[(RAM_START, 0x2000_0401), (RAM_START + 0x1000, 0x2000_0cdf)]);
    // The addresses that a fetch and an access to data get for address 0, which the table gives to user mode alone.
    let own = Some(0);
    let given = Some(RAM_START as u64 + 0x3000);
    let cases = [
        (MACHINE, 0, ON, own, own),
        (SUPERVISOR, 0, OFF, own, own),
        (USER, 0, !(1 << SATP_MODE), own, own),
        // MPRV with each mode in MPP, and below machine mode
        (MACHINE, MPRV, ON, own, given),
        (MACHINE, MPRV | 1 << status::MPP, ON, own, None),
        (MACHINE, MPRV | 3 << status::MPP, ON, own, own),
        (MACHINE, MPRV, OFF, own, own),
        (USER, MPRV | 1 << status::MPP, ON, given, given),
    ];
    for (mode, mstatus, satp, fetched, accessed) in cases {
        let mut state = state_in(mode, mstatus);
        state.csr.satp = satp;
        for (kind, _, _) in KINDS {
            let address = walked(&rt, &view, &state, kind, 0, 4).address;
            let wanted = if kind == Kind::Fetch {
                fetched
            } else {
                accessed
            };
            assert_eq!(rt; address, wanted, "{mode} {mstatus:x} {satp:x} {kind:?}");
        }
    }
    assert_eq!(rt;
        walked(
            &rt,
            &view,
            &state_in(MACHINE, 0),
            Kind::Store,
            RAM_START + 0x4ffe,
            2
        ),
        ended([0, 0], Ok(RAM_START + 0x4ffe))
    );
}
