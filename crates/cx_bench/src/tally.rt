//! What the records of many steps told.

use cx_hart::{Ended, StepRec, Touch};

/// Counts of what steps did, and a sum over what their records hold. Each wraps.
#[derive(Clone, Copy, Debug, PartialEq, Eq)]
pub struct Tally {
    /// Instructions that retired.
    pub retired: u32,
    /// Bytes that they read.
    pub read: u32,
    /// Bytes that they wrote.
    pub written: u32,
    /// Entries of page tables that were read.
    pub walked: u32,
    /// The sum of a register before each step, its pc, and the values that were fetched, read and written.
    pub sum: u32,
}

/// How many bytes were touched, and their value.
fn touched(touch: &Option<Touch>) -> (u32, u32) {
    match touch {
        Some(touch) => (u32::from(touch.len), u32::from_le_bytes(touch.bytes)),
        None => (0, 0),
    }
}

impl Tally {
    /// Nothing yet.
    pub fn none() -> Tally {
        Tally {
            retired: 0,
            read: 0,
            written: 0,
            walked: 0,
            sum: 0,
        }
    }

    /// One step more. It stands apart, so that each record is written whole, as for a caller that keeps it.
    #[inline(never)]
    pub fn add(&mut self, rec: &StepRec) {
        let register = rec.before.x[(self.retired % 32) as usize];
        let (_, fetched) = touched(&rec.fetch);
        let (read, loaded) = touched(&rec.read);
        let (written, stored) = touched(&rec.write);
        if rec.ended == Ended::Retired {
            self.retired = self.retired.wrapping_add(1);
        }
        self.read = self.read.wrapping_add(read);
        self.written = self.written.wrapping_add(written);
        self.walked = self.walked.wrapping_add(u32::from(rec.walked));
        for value in [register, rec.before.pc, fetched, loaded, stored] {
            self.sum = self.sum.wrapping_add(value);
        }
    }
}
