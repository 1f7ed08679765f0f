//! The set.

ghost use Rattle.std.specs.Prelude.{◌≡◌, ◌+◌, ◌≤◌, ◌%◌, ◌||◌, ℕ, true, false, is_some, IfOk};
ghost use Rattle.cx_marks.specs.Stamps.{AreBefore};
ghost use Rattle.cx_shadow.specs.Cells.{AreHeld, is_held};
ghost use Rattle.cx_slices.specs.Bytes.{byte_found};

use cx_io::NoMemory;
use cx_map::PAGE_SIZE;
use cx_shadow::Shadow;
use std::alloc::Global;

/// A set of virtual addresses. It takes as much memory as a shadow that has a byte at each address that has room.
#[derive(Drop)]
pub struct Marks {
    alloc: Global,
    turn: u8,
    stamps: Shadow,
    ghost before: { AreBefore turn stamps },
}

impl Marks {
    ghost use Rattle.cx_marks.specs.Marked.{all_marked, is_marked};

    /// The empty set, which takes no memory.
    pub fn new(alloc: Global) -> Marks
        ensures { (a : ℕ) → is_marked result a ≡ false }
    {
        Marks {
            alloc,
            turn: 0,
            stamps: Shadow::new(alloc),
        }
    }

    /// Whether an address is in the set.
    #[inline]
    pub fn has(&self, va: u32) -> bool
        ensures { result ≡ is_marked self.now va }
    {
        match self.stamps.get(va) {
            None => false,
            Some(turn) => turn == self.turn,
        }
    }

    /// Whether so many addresses, from one on, are in the set. They are four at most and lie on one page, so that one
    /// look shows it.
    #[inline]
    pub fn has_run(&self, va: u32, len: usize) -> bool
        requires few { len ≤ 4 }
        requires page { va % PAGE_SIZE + len ≤ PAGE_SIZE }
        ensures { result ≡ all_marked self.now va len }
    {
        let stamps = [self.turn; 4];
        self.stamps.has(va, &stamps[..len])
    }

    /// Makes room for each of these addresses. The set stays, whatever the answer, and what has room keeps it.
    /// `NoMemory` is free.
    pub fn hold_all(&mut self, bytes: &[(u32, u8)]) -> Result<(), NoMemory>
        ensures held { IfOk result (λ _. AreHeld self.new.stamps bytes.now) }
        ensures marks { (a : ℕ) → is_marked self.new a ≡ is_marked self.old a }
        ensures keeps { (a : ℕ) → is_held self.old.stamps a ≡ true → is_held self.new.stamps a ≡ true }
    {
        self.stamps.hold_all(bytes)
    }

    /// Puts these addresses into the set.
    pub fn mark_all(&mut self, bytes: &[(u32, u8)])
        requires { AreHeld self.old.stamps bytes.now }
        ensures marks { (a : ℕ) → is_marked self.new a ≡ (is_marked self.old a || is_some (byte_found bytes.now a)) }
        ensures holds { (a : ℕ) → is_held self.new.stamps a ≡ is_held self.old.stamps a }
    {
        let mut left = bytes.len();
        while left > 0 {
            left -= 1;
            self.stamps.put(bytes[left].0, self.turn);
        }
    }

    /// Takes all addresses out of the set. Every 256th time this gives the memory back, else room stays.
    pub fn clear(&mut self)
        ensures { (a : ℕ) → is_marked self.new a ≡ false }
    {
        if self.turn == u8::MAX {
            self.stamps = Shadow::new(self.alloc);
            self.turn = 0;
        } else {
            self.turn += 1;
        }
    }
}
