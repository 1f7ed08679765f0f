//! Programs: routines in a row, and where their names stand.

use crate::line::Line;
use crate::name::Name;

/// Routines in a row, from an address on.
#[derive(Clone, Copy)]
pub(crate) struct Program<'r> {
    /// The routines, each of which is a list of lines.
    pub(crate) routines: &'r [&'r [Line]],
    /// The address of their first instruction.
    pub(crate) start: u32,
}

/// How many bytes the instructions of a routine take.
fn size_of(routine: &[Line]) -> u32 {
    let mut size = 0u32;
    for line in routine {
        size = size.wrapping_add(line.size());
    }
    size
}

/// How far into a routine a name stands, where it has it.
fn offset_in(routine: &[Line], name: Name) -> Option<u32> {
    let mut offset = 0u32;
    for line in routine {
        if line.names(name) {
            return Some(offset);
        }
        offset = offset.wrapping_add(line.size());
    }
    None
}

impl Program<'_> {
    /// The address of the instruction with this name; that behind the last instruction where none has it.
    pub(crate) fn address_of(&self, name: Name) -> u32 {
        let mut address = self.start;
        for routine in self.routines {
            if let Some(offset) = offset_in(routine, name) {
                return address.wrapping_add(offset);
            }
            address = address.wrapping_add(size_of(routine));
        }
        address
    }

    /// How far the instruction with this name lies behind an address, as a word that wraps where it lies before it.
    pub(crate) fn offset_to(&self, name: Name, address: u32) -> u32 {
        self.address_of(name).wrapping_sub(address)
    }
}
