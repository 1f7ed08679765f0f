//! Each call once, with values that were worked out by hand.

ghost use Rattle.std.specs.Prelude.{◌≡◌, ◌≤◌, length};

use cx_ram::{NoMemory, Ram};
use std::alloc::Global;
use std::process::Abort;

/// RAM of two pages, of which a hundred writes take no memory.
fn two_pages(rt: &impl Abort, alloc: Global) -> Ram
    ensures size { length result.memory ≡ 8192 }
    ensures spare { 100 ≤ result.spare }
{
    match Ram::new(alloc, 2) {
        Ok(mut ram) => match ram.reserve(100) {
            Ok(()) => ram,
            Err(NoMemory) => panic!(rt; "no memory"),
        },
        Err(NoMemory) => panic!(rt; "no memory"),
    }
}

#[test]
fn places_are_in_ram_up_to_its_end(rt: HostRuntime) {
    let ram = two_pages(&rt, rt.alloc());
    assert_eq!(rt; ram.pages(), 2);
    for (place, len, want) in [
        (0x8000_0000, 8192, true),
        (0x8000_0000, 8193, false),
        (0x7fff_ffff, 1, false),
        (0x8000_1fff, 1, true),
        (0x8000_2000, 0, true),
        (0x8000_2000, 1, false),
        (0xffff_ffff, 0xffff_ffff, false),
    ] {
        assert_eq!(rt; ram.contains(place, len), want, "at {place:x}");
    }
}

#[test]
fn bytes_are_little_endian(rt: HostRuntime) {
    let mut ram = two_pages(&rt, rt.alloc());
    ram.store(0x8000_0ffc, 4, 0x1122_3344);
    assert_eq!(rt; ram.load(0x8000_0ffc, 4), 0x1122_3344);
    assert_eq!(rt; ram.load(0x8000_0ffc, 1), 0x44);
    assert_eq!(rt; ram.load(0x8000_0ffe, 2), 0x1122);
    ram.store(0x8000_0ffe, 1, 0xabcd);
    assert_eq!(rt; ram.load(0x8000_0ffc, 4), 0x11cd_3344);
    ram.store(0x8000_0ffc, 2, 0xffff_7788);
    assert_eq!(rt; ram.load(0x8000_0ffc, 4), 0x11cd_7788);
    ram.dma(0x8000_0fff, &[1, 2, 3]);
    assert_eq!(rt; ram.load(0x8000_0ffc, 4), 0x01cd_7788);
    assert_eq!(rt; ram.load(0x8000_1000, 4), 0x0000_0302);
}

#[test]
fn pages_come_and_go(rt: HostRuntime) {
    let mut ram = two_pages(&rt, rt.alloc());
    assert!(rt; ram.is_zero(0));
    ram.dma(0x8000_0fff, &[1, 2]);
    assert!(rt; !ram.is_zero(0));
    assert!(rt; !ram.is_zero(1));
    let mut first = [0; 4096];
    ram.page(0, &mut first);
    assert_eq!(rt; first[4095], 1);
    ram.set_page(1, &first);
    assert_eq!(rt; ram.page_bytes(1)[0], 0);
    assert_eq!(rt; ram.page_bytes(1)[4095], 1);
    ram.set_page(1, &[0; 4096]);
    assert!(rt; ram.is_zero(1));
    assert_eq!(rt; ram.load(0x8000_0fff, 1), 1);
}

#[test]
fn a_saved_memory_stays_and_comes_back(rt: HostRuntime) {
    let mut ram = two_pages(&rt, rt.alloc());
    assert_eq!(rt; ram.used(), 0);
    ram.store(0x8000_0010, 4, 0x1122_3344);
    assert_eq!(rt; ram.used(), 1);
    let Ok(snap) = ram.save() else {
        panic!(rt; "no memory");
    };
    assert_eq!(rt; ram.used(), 1);
    // Both pages.
    ram.dma(0x8000_0fff, &[5, 6]);
    assert_eq!(rt; ram.used(), 3);
    assert_eq!(rt; ram.load(0x8000_0010, 4), 0x1122_3344);
    assert_eq!(rt; ram.load(0x8000_1000, 1), 6);
    assert_eq!(rt; ram.saved_page_bytes(&snap, 0)[16], 0x44);
    assert_eq!(rt; ram.saved_page_bytes(&snap, 0)[4095], 0);
    let mut second = [1; 4096];
    ram.saved_page(&snap, 1, &mut second);
    assert_eq!(rt; second[0], 0);
    ram.restore(&snap);
    assert_eq!(rt; ram.used(), 1);
    assert_eq!(rt; ram.load(0x8000_0010, 4), 0x1122_3344);
    assert_eq!(rt; ram.load(0x8000_0fff, 1), 0);
    assert!(rt; ram.is_zero(1));
    ram.store(0x8000_0010, 1, 0x55);
    assert_eq!(rt; ram.used(), 2);
    assert!(rt; ram.is_live(&snap));
    ram.forget(snap);
    assert_eq!(rt; ram.used(), 1);
    assert_eq!(rt; ram.load(0x8000_0010, 4), 0x1122_3355);
}

#[test]
fn a_number_is_given_again(rt: HostRuntime) {
    let mut ram = two_pages(&rt, rt.alloc());
    let Ok(first) = ram.save() else {
        panic!(rt; "no memory");
    };
    ram.set_page(1, &[7; 4096]);
    let Ok(second) = ram.save() else {
        panic!(rt; "no memory");
    };
    assert_eq!(rt; ram.used(), 1);
    assert!(rt; ram.is_live(&first));
    ram.restore(&first);
    assert_eq!(rt; ram.load(0x8000_1000, 1), 0);
    assert_eq!(rt; ram.used(), 1);
    ram.forget(first);
    ram.restore(&second);
    assert_eq!(rt; ram.load(0x8000_1000, 2), 0x0707);
    ram.forget(second);
    assert_eq!(rt; ram.used(), 1);
}
