//! Frames by their numbers.

ghost use Rattle.std.specs.Prelude.{◌≡◌, ◌≢◌, ℕ, ◌+◌, ◌*◌, ◌<◌, ◌≤◌, [], ◌∷◌, length, replicate, take, IfErr, IfOk};
ghost use Rattle.std.specs.List.{splice};
ghost use Rattle.cx_pages.specs.Frames.{AreFrames, frame_of, zero_page};

use crate::frame::Frame;
use crate::pool::NoMemory;
use cx_map::PAGE_SIZE;
use std::alloc::Global;
use std::marker::Model;

/// The frames of a pool.
#[derive(Drop)]
pub(crate) struct Frames {
    alloc: Global,
    frames: Vec<Frame>,
}

impl Model for Frames {
    ghost use Rattle.std.specs.Prelude.{ℕ, List};

    ghost Value = { List (List ℕ) };

    ghost use Rattle.cx_pages.specs.Frames.{AreFrames};

    ghost view = { λ f. f.frames.items };

    ghost invariant = { λ f. AreFrames f.frames.items };
}

impl Frames {
    /// One frame of zeros.
    pub(crate) fn new(alloc: Global) -> Result<Frames, NoMemory>
        ensures zeros { IfOk result (λ f. frame_of f 0 ≡ zero_page) }
        ensures count { IfOk result (λ f. length f ≡ 1) }
    {
        let mut frames = Vec::new(alloc);
        let frame = Frame::new(alloc)?;
        match frames.push(frame) {
            Ok(()) => Ok(Frames { alloc, frames }),
            Err(_) => Err(NoMemory),
        }
    }

    /// Takes in frames until there are so many. Those that were there stay, and a refusal changes nothing.
    pub(crate) fn grow(&mut self, count: usize) -> Result<(), NoMemory>
        ensures count { IfOk result (λ done. count ≤ length self.new) }
        ensures same { take (length self.old) self.new ≡ self.old }
        ensures refused { IfErr result (λ refused. self.new ≡ self.old) }
    {
        let before = self.frames.len();
        while self.frames.len() < count {
            if self.push().is_err() {
                self.frames.truncate(before);
                return Err(NoMemory);
            }
        }
        Ok(())
    }

    /// Takes in one frame of zeros.
    fn push(&mut self) -> Result<(), NoMemory>
        ensures more { IfOk result (λ done. length self.new ≡ length self.old + 1) }
        ensures same { take (length self.old) self.new ≡ self.old }
        ensures refused { IfErr result (λ refused. self.new ≡ self.old) }
    {
        let frame = Frame::new(self.alloc)?;
        match self.frames.push(frame) {
            Ok(()) => Ok(()),
            Err(_) => Err(NoMemory),
        }
    }

    /// Tells that all frames are whole.
    #[inline(always)]
    pub(crate) fn tell_whole(&self)
        ensures { AreFrames self.now }
    {
        let _ = &self.frames;
    }

    /// The bytes of a frame, where they stand.
    #[inline(always)]
    pub(crate) fn frame(&self, frame: u32) -> &[u8; PAGE_SIZE]
        requires { frame < length self.now }
        ensures bytes { result.now ≡ frame_of self.now frame }
        ensures size { length result.now ≡ PAGE_SIZE }
    {
        self.frames[frame as usize].bytes()
    }

    /// Writes bytes into a frame.
    #[inline(always)]
    pub(crate) fn write(&mut self, frame: u32, offset: usize, bytes: &[u8])
        requires frame { frame < length self.old }
        requires bytes { offset + length bytes.now ≤ PAGE_SIZE }
        ensures here { frame_of self.new frame ≡ splice (frame_of self.old frame) offset (offset + length bytes.now)
            bytes.now }
        ensures others { (f : ℕ) → f ≢ frame → frame_of self.new f ≡ frame_of self.old f }
        ensures count { length self.new ≡ length self.old }
    {
        let frame = &mut self.frames[frame as usize];
        frame.write(offset, bytes);
    }

    /// Copies the bytes of a frame into another.
    pub(crate) fn copy(&mut self, from: u32, to: u32)
        requires from { from < length self.old }
        requires to { to < length self.old }
        ensures here { frame_of self.new to ≡ frame_of self.old from }
        ensures others { (f : ℕ) → f ≢ to → frame_of self.new f ≡ frame_of self.old f }
        ensures count { length self.new ≡ length self.old }
    {
        let _ = &self.frames;
        let bytes = *self.frame(from);
        self.write(to, 0, &bytes);
    }
}
