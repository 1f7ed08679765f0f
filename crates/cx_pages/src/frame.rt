//! A frame, in raw memory.

ghost use Rattle.std.specs.Prelude.{◌≡◌, ◌+◌, ◌≤◌, length, IfOk};
ghost use Rattle.std.specs.List.{splice};
ghost use Rattle.cx_pages.specs.Frames.{zero_page};

use crate::pool::NoMemory;
use core::slots::{Lease, Slots, release, reserve};
use cx_map::PAGE_SIZE;
use std::alloc::Global;
use std::marker::Model;

/// What a frame's one place is to hold.
static LIKE: [[u8; PAGE_SIZE]; 1] = [[0; PAGE_SIZE]; 1];

/// 4,096 bytes, which never move. They have memory of their own, so that one look finds them.
pub(crate) struct Frame {
    alloc: Global,
    place: Slots<[u8; PAGE_SIZE]>,
    lease: Lease<[u8; PAGE_SIZE], Global>,
}

impl Model for Frame {
    ghost use Rattle.std.specs.Prelude.{◌≡◌, ℕ, List, [], get_or};
    ghost use Rattle.core.specs.Mem.Slots.{IsFull, lease_heap, lease_len, lease_ptr, slots_items, slots_len, slots_ptr};

    ghost Value = { List ℕ };

    ghost view = { λ f. get_or (slots_items f.place) 0 [] };

    ghost invariant = { λ f. (slots_len f.place ≡ 1) × IsFull f.place × (lease_ptr f.lease ≡ slots_ptr f.place)
        × (lease_len f.lease ≡ slots_len f.place) × (lease_heap f.lease ≡ f.alloc) };
}

impl Frame {
    /// A frame of zeros.
    pub(crate) fn new(alloc: Global) -> Result<Frame, NoMemory>
        ensures { IfOk result (λ f. f ≡ zero_page) }
    {
        let (mut place, lease) = unsafe { reserve(&alloc, &LIKE) }?;
        place.put(0, [0; PAGE_SIZE]);
        Ok(Frame {
            alloc,
            place,
            lease,
        })
    }

    /// Its bytes, where they stand.
    #[inline(always)]
    pub(crate) fn bytes(&self) -> &[u8; PAGE_SIZE]
        ensures { result.now ≡ self.now }
    {
        self.place.get(0)
    }

    /// Writes bytes into it.
    #[inline(always)]
    pub(crate) fn write(&mut self, offset: usize, bytes: &[u8])
        requires { offset + length bytes.now ≤ PAGE_SIZE }
        ensures { self.new ≡ splice self.old offset (offset + length bytes.now) bytes.now }
    {
        let frame = self.place.get_mut(0);
        frame[offset..offset + bytes.len()].copy_from_slice(bytes);
    }
}

impl Drop for Frame {
    fn drop(self) {
        let Frame {
            alloc,
            place,
            lease,
        } = self;
        release(&alloc, place, lease);
    }
}
