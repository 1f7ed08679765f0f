//! Walks by examples.

mod devices;
mod permissions;
mod quick;
mod tables;
mod view;

use cx_csr::causes::*;
use cx_walk::Kind;

// The kinds of accesses, and the causes of their page faults and access faults.
const KINDS: [(Kind, u32, u32); 5] = [
    (
        Kind::Fetch,
        INSTRUCTION_PAGE_FAULT,
        INSTRUCTION_ACCESS_FAULT,
    ),
    (Kind::Load, LOAD_PAGE_FAULT, LOAD_ACCESS_FAULT),
    (Kind::Store, STORE_PAGE_FAULT, STORE_ACCESS_FAULT),
    (Kind::Reserve, LOAD_PAGE_FAULT, LOAD_ACCESS_FAULT),
    (Kind::Atomic, STORE_PAGE_FAULT, STORE_ACCESS_FAULT),
];
