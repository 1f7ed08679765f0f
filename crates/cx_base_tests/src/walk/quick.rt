//! Walks by one look.

use crate::walk::KINDS;
use crate::walk::view::{FivePages, memory, state_in};
use cx_csr::State;
use cx_csr::modes::{SUPERVISOR, USER};
use cx_map::RAM_START;
use cx_walk::{Kind, QuickWalk, is_bare, walk_quickly};
use std::process::Abort;

// The walk by one look of a word at address 0.
fn quick(rt: &impl Abort, view: &FivePages, state: &State, kind: Kind) -> Option<QuickWalk> {
    assert!(rt; !is_bare(state, kind));
    walk_quickly(view, state, kind, 0, 4)
}

#[test]
fn an_access_of_user_mode_through_two_entries_is_quick(rt: HostRuntime) {
    let root = RAM_START;
    let leaf = RAM_START + 0x1000;
    let page = memory(&[(root, 0x2000_0401), (leaf, 0x2000_0cdf)]);
    let megapage = memory(&[(root, 0x2000_00df)]);
    let walk = QuickWalk {
        first: root,
        first_entry: 0x2000_0401,
        second: leaf,
        second_entry: 0x2000_0cdf,
        place: RAM_START + 0x3000,
    };
    for (kind, _, _) in KINDS {
        let user = state_in(USER, 0);
        assert_eq!(rt; quick(&rt, &page, &user, kind), Some(walk));
        assert_eq!(rt; quick(&rt, &megapage, &user, kind), None);
        let supervisor = state_in(SUPERVISOR, 0);
        assert_eq!(rt; quick(&rt, &page, &supervisor, kind), None);
    }
}
