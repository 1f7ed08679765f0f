//! Tables of frame numbers.

ghost use Rattle.std.specs.Prelude.{◌≡◌, ◌<◌, ◌↔◌, [], length, replicate, slice_index, slice_set, IfOk, IsTrue};

use crate::pool::NoMemory;
use std::alloc::Global;
use std::marker::Model;

/// The number of a frame for each page of a memory. An empty table stands for no memory.
#[derive(Drop)]
pub(crate) struct Table {
    frames: Vec<u32>,
}

impl Model for Table {
    ghost use Rattle.std.specs.Prelude.{ℕ, List};

    ghost Value = { List ℕ };

    ghost view = { λ t. t.frames.items };
}

impl Table {
    /// A table with the frame of zeros at each page.
    pub(crate) fn new(alloc: Global, pages: u32) -> Result<Table, NoMemory>
        ensures { IfOk result (λ t. t ≡ replicate pages 0) }
    {
        let frames = vec![in alloc; 0u32; pages as usize]?;
        Ok(Table { frames })
    }

    /// A table for no memory.
    pub(crate) fn empty(alloc: Global) -> Table
        ensures { result ≡ [] }
    {
        Table {
            frames: Vec::new(alloc),
        }
    }

    /// The numbers of frames, page by page.
    #[inline(always)]
    pub(crate) fn frames(&self) -> &[u32]
        ensures { result.now ≡ self.now }
    {
        &self.frames
    }

    /// Whether it stands for no memory.
    pub(crate) fn is_empty(&self) -> bool
        ensures { IsTrue result ↔ (self.now ≡ []) }
    {
        self.frames.is_empty()
    }

    /// A second table like this one.
    pub(crate) fn copy(&self, alloc: Global) -> Result<Table, NoMemory>
        ensures { IfOk result (λ t. t ≡ self.now) }
    {
        let frames = Vec::from_slice(alloc, &self.frames)?;
        Ok(Table { frames })
    }

    /// Takes over the numbers of a table for as many pages.
    pub(crate) fn copy_from(&mut self, frames: &[u32])
        requires { length frames.now ≡ length self.old }
        ensures { self.new ≡ frames.now }
    {
        self.frames.copy_from_slice(frames);
    }

    /// Gives a page another frame.
    pub(crate) fn set(&mut self, page: u32, frame: u32)
        requires { page < length self.old }
        ensures { self.new ≡ slice_set self.old page frame }
    {
        self.frames[page as usize] = frame;
    }
}
