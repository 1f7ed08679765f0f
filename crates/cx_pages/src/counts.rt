//! How many names each frame has, and which frames are free.

ghost use Rattle.std.specs.Prelude.{◌≡◌, ◌≢◌, ℕ, ◌+◌, ◌-◌, ◌^◌, ◌<◌, ◌≤◌, List, [], ◌∷◌, length, IfErr, IfOk};
ghost use Rattle.std.specs.Prelude.{slice_index, slice_set, replicate, ◌++◌};
ghost use Rattle.cx_pages.specs.Counts.{count_of, taken_count};
ghost use Rattle.cx_pages.specs.Tables.{names};

use crate::pool::NoMemory;
use std::alloc::Global;
use std::marker::Model;

/// A count for each frame, and a list of the frames whose count is 0. The list has a slot for every frame, so giving
/// one back takes no memory.
#[derive(Drop)]
pub(crate) struct Counts {
    counts: Vec<u64>,
    free: Vec<u32>,
    spare: usize,
}

impl Model for Counts {
    ghost use Rattle.cx_pages.specs.Counts.{IsTally, Tally};

    ghost Value = { Tally };

    ghost view = { λ c. record { counts = c.counts.items; spare = c.spare } };

    ghost invariant = { λ c. IsTally c.counts.items c.free.items c.spare };
}

impl Counts {
    /// The counts of one frame that has `count` names.
    pub(crate) fn new(alloc: Global, count: u64) -> Result<Counts, NoMemory>
        requires { 1 ≤ count }
        ensures counts { IfOk result (λ c. c.counts ≡ count ∷ []) }
        ensures spare { IfOk result (λ c. c.spare ≡ 0) }
    {
        let counts = vec![in alloc; count; 1]?;
        let free = vec![in alloc; 0u32; 1]?;
        Ok(Counts {
            counts,
            free,
            spare: 0,
        })
    }

    /// The number of frames.
    pub(crate) fn len(&self) -> usize
        ensures count { result ≡ length self.now.counts }
        ensures most { result < 2 ^ 32 }
    {
        let _ = self.spare;
        self.counts.len()
    }

    /// How many frames have a count of 0.
    #[inline(always)]
    pub(crate) fn spare(&self) -> usize
        ensures count { result ≡ self.now.spare }
        ensures most { result < 2 ^ 32 }
    {
        self.spare
    }

    /// The count of a frame.
    #[inline(always)]
    pub(crate) fn count(&self, frame: u32) -> u64
        requires { frame < length self.now.counts }
        ensures { result ≡ count_of self.now.counts frame }
    {
        self.counts[frame as usize]
    }

    /// Gives out a frame, which has one name then.
    pub(crate) fn take(&mut self) -> u32
        requires { 1 ≤ self.old.spare }
        ensures there { result < length self.old.counts }
        ensures unused { count_of self.old.counts result ≡ 0 }
        ensures counts { self.new.counts ≡ slice_set self.old.counts result 1 }
        ensures spare { self.new.spare + 1 ≡ self.old.spare }
    {
        self.spare -= 1;
        let frame = self.free[self.spare];
        self.counts[frame as usize] = 1;
        frame
    }

    /// Counts one name more of a frame that has some.
    pub(crate) fn add(&mut self, frame: u32)
        requires some { 1 ≤ count_of self.old.counts frame }
        requires room { count_of self.old.counts frame + 1 < 2 ^ 64 }
        ensures counts { self.new.counts ≡ slice_set self.old.counts frame (count_of self.old.counts frame + 1) }
        ensures spare { self.new.spare ≡ self.old.spare }
    {
        self.counts[frame as usize] += 1;
    }

    /// Counts one name less of a frame, which is free where that was its last.
    pub(crate) fn release(&mut self, frame: u32)
        requires { 1 ≤ count_of self.old.counts frame }
        ensures counts { self.new.counts ≡ slice_set self.old.counts frame (count_of self.old.counts frame - 1) }
        ensures last { count_of self.old.counts frame ≡ 1 → self.new.spare ≡ self.old.spare + 1 }
        ensures more { count_of self.old.counts frame ≢ 1 → self.new.spare ≡ self.old.spare }
    {
        let count = self.counts[frame as usize] - 1;
        self.counts[frame as usize] = count;
        if count == 0 {
            self.free[self.spare] = frame;
            self.spare += 1;
        }
    }

    /// Counts one name more for each place of a table.
    pub(crate) fn add_all(&mut self, table: &[u32])
        requires some { (f : ℕ) → 1 ≤ names f table.now → 1 ≤ count_of self.old.counts f }
        requires room { (f : ℕ) → count_of self.old.counts f + names f table.now < 2 ^ 64 }
        ensures counts { (f : ℕ) → count_of self.new.counts f ≡ count_of self.old.counts f + names f table.now }
        ensures length { length self.new.counts ≡ length self.old.counts }
        ensures spare { self.new.spare ≡ self.old.spare }
    {
        for frame in table {
            self.add(*frame);
        }
    }

    /// Counts one name less for each place of a table.
    pub(crate) fn release_all(&mut self, table: &[u32])
        requires { (f : ℕ) → names f table.now ≤ count_of self.old.counts f }
        ensures counts { (f : ℕ) → count_of self.new.counts f + names f table.now ≡ count_of self.old.counts f }
        ensures length { length self.new.counts ≡ length self.old.counts }
        ensures spare { self.old.spare ≤ self.new.spare }
        ensures left { (f : ℕ) → 1 ≤ count_of self.new.counts f → self.new.spare < length self.new.counts }
    {
        for frame in table {
            self.release(*frame);
        }
        self.tell_used();
    }

    /// Tells that a frame that has a name isn't spare, and each of the others is.
    #[inline(always)]
    pub(crate) fn tell_used(&self)
        ensures named { (f : ℕ) → 1 ≤ count_of self.now.counts f → self.now.spare < length self.now.counts }
        ensures others { taken_count self.now.counts + self.now.spare ≡ length self.now.counts }
    {
        let _ = &self.spare;
    }

    /// Takes in `more` frames, which are free.
    pub(crate) fn grow(&mut self, more: usize) -> Result<(), NoMemory>
        requires { length self.old.counts + more < 2 ^ 32 }
        ensures counts { IfOk result (λ done. self.new.counts ≡ self.old.counts ++ replicate more 0) }
        ensures spare { IfOk result (λ done. self.new.spare ≡ self.old.spare + more) }
        ensures refused { IfErr result (λ refused. self.new ≡ self.old) }
    {
        let len = self.counts.len();
        self.free.resize(len + more, 0)?;
        self.counts.resize(len + more, 0)?;
        number(&mut self.free, self.spare, more, len as u32);
        self.spare += more;
        Ok(())
    }
}

/// Writes `count` numbers, from `first` on, to the places from `at` on.
fn number(places: &mut [u32], at: usize, count: usize, first: u32)
    requires within { at + count ≤ length places.old }
    requires fits { first + count < 2 ^ 32 }
    ensures before { (i : ℕ) → i < at → slice_index places.new i ≡ slice_index places.old i }
    ensures numbered { (i : ℕ) → i < count → slice_index places.new (at + i) ≡ first + i }
{
    for i in 0..count {
        places[at + i] = first + i as u32;
    }
}
