//! The words of the devices.

use crate::walk::KINDS;
use crate::walk::view::{memory, state_in, walked};
use cx_csr::causes::STORE_ACCESS_FAULT;
use cx_csr::modes::MACHINE;
use cx_map::RAM_START;
use cx_walk::{DeviceWord, Kind, Place};

#[test]
fn each_word_of_the_devices_is_reached_by_whole_loads_and_stores_alone(rt: HostRuntime) {
    let view = memory(&[]);
    let machine = state_in(MACHINE, 0);
    let words = [
        (DeviceWord::Power, 0x0010_0000),
        (DeviceWord::SoftwareInterrupt, 0x0200_0000),
        (DeviceWord::TimeCompareLow, 0x0200_4000),
        (DeviceWord::TimeCompareHigh, 0x0200_4004),
        (DeviceWord::TimeLow, 0x0200_bff8),
        (DeviceWord::TimeHigh, 0x0200_bffc),
        (DeviceWord::MachineInterruptMask, 0x0c00_0000),
        (DeviceWord::SupervisorInterruptMask, 0x0c00_0004),
        (DeviceWord::InterruptPending, 0x0c00_0008),
        (DeviceWord::ConsoleData, 0x1000_0000),
        (DeviceWord::ConsoleState, 0x1000_0004),
        (DeviceWord::BlockSector, 0x1000_1000),
        (DeviceWord::BlockAddress, 0x1000_1004),
        (DeviceWord::BlockCount, 0x1000_1008),
        (DeviceWord::BlockCommand, 0x1000_100c),
        (DeviceWord::BlockState, 0x1000_1010),
    ];
    for (word, place) in words {
        assert_eq!(rt; word.place(), place);
        assert_eq!(rt; DeviceWord::at(place as u64), Some(word));
        for (kind, _, access_fault) in KINDS {
            let whole = match kind {
                Kind::Load | Kind::Store => Ok(Place::Device(place)),
                _ => Err(access_fault),
            };
            let walk = walked(&rt, &view, &machine, kind, place, 4);
            assert_eq!(rt; walk.address, Some(place as u64));
            assert_eq!(rt; walk.answer, whole);
            let half = walked(&rt, &view, &machine, kind, place, 2);
            assert_eq!(rt; half.answer, Err(access_fault));
        }
    }
    let others = [
        0,
        0x0200_0004,
        0x0c00_000c,
        0x1000_1014,
        RAM_START + 0x5000,
        0xffff_fffc,
    ];
    for place in others {
        let walk = walked(&rt, &view, &machine, Kind::Store, place, 4);
        assert_eq!(rt; walk.answer, Err(STORE_ACCESS_FAULT), "{place:x}");
    }
}
