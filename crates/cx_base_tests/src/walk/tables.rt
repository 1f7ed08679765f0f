//! Walks of page tables.

use crate::walk::KINDS;
use crate::walk::view::{memory, state_in, walked};
use cx_csr::causes::*;
use cx_csr::fields::SATP_MODE;
use cx_csr::modes::USER;
use cx_map::{PAGE_SIZE, RAM_START};
use cx_walk::{Kind, Place, Walk};

// The page number of the first page of RAM.
const ROOT: u32 = RAM_START / PAGE_SIZE as u32;

// A walk through the entries at these places, of which those that are 0 were not read, to a place of RAM or a cause.
pub fn ended(places: [u32; 2], outcome: Result<u32, u32>) -> Walk {
    let count = places.iter().filter(|place| **place != 0).count().min(2) as u8;
    match outcome {
        Ok(place) => Walk {
            count,
            places,
            address: Some(place as u64),
            answer: Ok(Place::Ram(place)),
        },
        Err(cause) => Walk {
            count,
            places,
            address: None,
            answer: Err(cause),
        },
    }
}

#[test]
fn a_walk_reads_the_entries_of_its_address(rt: HostRuntime) {
    // Two entries of the root table, an entry of the table in the second page, and a word that no walk here reads.
    let root = RAM_START;
    let next = RAM_START + 0x4;
    let leaf = RAM_START + 0x1000;
    let none = (RAM_START + 0x4ffc, 0);
    let cases = [
        // A page, and its last byte.
        (
            [(root, 0x2000_0401), (leaf, 0x2000_0cdf)],
            Kind::Load,
            0,
            4,
            [root, leaf],
            Ok(RAM_START + 0x3000),
        ),
        (
            [(root, 0x2000_0401), (leaf, 0x2000_0cdf)],
            Kind::Store,
            0xfff,
            1,
            [root, leaf],
            Ok(RAM_START + 0x3fff),
        ),
        // Bits 8 and 9 of an entry are software's own, and G changes nothing.
        (
            [(root, 0x2000_0721), (leaf, 0x2000_0fff)],
            Kind::Load,
            8,
            2,
            [root, leaf],
            Ok(RAM_START + 0x3008),
        ),
        // The address's own entry in each table.
        (
            [(next, 0x2000_0401), (RAM_START + 0x1ffc, 0x2000_0cdf)],
            Kind::Fetch,
            0x7f_f004,
            4,
            [next, RAM_START + 0x1ffc],
            Ok(RAM_START + 0x3004),
        ),
        // A megapage, and one that isn't aligned.
        (
            [(root, 0x2000_00df), none],
            Kind::Load,
            0x4abc,
            4,
            [root, 0],
            Ok(RAM_START + 0x4abc),
        ),
        (
            [(root, 0x2000_04df), none],
            Kind::Fetch,
            0x1000,
            4,
            [root, 0],
            Err(INSTRUCTION_PAGE_FAULT),
        ),
        // No D for a store.
        (
            [(root, 0x2000_0401), (leaf, 0x2000_0c5f)],
            Kind::Store,
            0,
            1,
            [root, leaf],
            Err(STORE_PAGE_FAULT),
        ),
        // The second table outside RAM: below it, at its end, and above 2^32.
        (
            [(root, 0x0000_0401), none],
            Kind::Fetch,
            0x1000,
            4,
            [root, 0],
            Err(INSTRUCTION_ACCESS_FAULT),
        ),
        (
            [(next, 0x0000_0401), none],
            Kind::Load,
            0x40_0000,
            4,
            [next, 0],
            Err(LOAD_ACCESS_FAULT),
        ),
        (
            [(root, 0x2000_1401), none],
            Kind::Store,
            0,
            4,
            [root, 0],
            Err(STORE_ACCESS_FAULT),
        ),
        (
            [(root, 0x6000_0401), (leaf, 0x2000_0cdf)],
            Kind::Atomic,
            0,
            4,
            [root, 0],
            Err(STORE_ACCESS_FAULT),
        ),
        // A third level.
        (
            [(root, 0x2000_0401), (leaf, 0x2000_0401)],
            Kind::Load,
            0,
            4,
            [root, leaf],
            Err(LOAD_PAGE_FAULT),
        ),
    ];
    let user = state_in(USER, 0);
    for (words, kind, va, len, places, outcome) in cases {
        let walk = walked(&rt, &memory(&words), &user, kind, va, len);
        assert_eq!(rt; walk, ended(places, outcome), "{kind:?} {va:x}");
    }
}

#[test]
fn an_address_outside_ram_is_told_with_an_access_fault(rt: HostRuntime) {
    let user = state_in(USER, 0);
    // A part of a megapage that isn't in RAM, and an address above 2^32.
    for (entry, va, address) in [
        (0x2000_00df, 0x5000, RAM_START as u64 + 0x5000),
        (0x6000_00df, 4, 0x1_8000_0004),
    ] {
        let walk = walked(
            &rt,
            &memory(&[(RAM_START, entry)]),
            &user,
            Kind::Reserve,
            va,
            4,
        );
        assert_eq!(rt; walk.address, Some(address));
        assert_eq!(rt; walk.answer, Err(LOAD_ACCESS_FAULT));
        assert_eq!(rt; walk.places, [RAM_START, 0]);
    }
}

#[test]
fn a_root_outside_ram_is_an_access_fault(rt: HostRuntime) {
    let view = memory(&[(RAM_START, 0x2000_00df)]);
    // The root table below RAM, behind its end, and above 2^32.
    for page in [0, ROOT + 5, 0x18_0000] {
        let mut user = state_in(USER, 0);
        user.csr.satp = 1 << SATP_MODE | page;
        for (kind, _, access_fault) in KINDS {
            let walk = walked(&rt, &view, &user, kind, 0, 4);
            assert_eq!(rt; walk, ended([0, 0], Err(access_fault)), "{page:x}");
        }
    }
}
