//! A set of addresses that is emptied at once.
//!
//! Each address is stamped with the turn at which it was marked, and to empty the set is to begin a new turn. So
//! nothing is gone through and no list is kept of what was marked. Room is made first, and may be refused; marking an
//! address that has room can't fail. Whether an address is in the set is `is_marked`.
#![tactic(auto)]

mod marks;

pub use marks::Marks;
