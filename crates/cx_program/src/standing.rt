//! What is known of a program at a step: its words, and the bytes that it was seen to have.

ghost use Rattle.std.specs.Prelude.{◌≡◌, ◌≤◌, ◌⊎◌, ℕ, length, true, IfOk};
ghost use Rattle.cx_observe.specs.Effects.{next_words, program_words};
ghost use Rattle.cx_observe.specs.Possible.{Possible};
ghost use Rattle.cx_observe.specs.Seeing.{bytes_on, bytes_shown, seen_by, sights};
ghost use Rattle.cx_observe.specs.User.{user};
ghost use Rattle.cx_program.specs.Knowing.{HasRoom, IsByStep, IsKnown, known_by};
ghost use Rattle.cx_shadow.specs.Cells.{AreHeld, byte_of, is_held};
ghost use Rattle.cx_slices.specs.Bytes.{Shows, is_byte, with_bytes};
ghost use Rattle.cx_slices.specs.Items.{start};

use crate::bytes::{bytes_seen, bytes_written, front};
use crate::room::{hold_access, hold_step};
use crate::words::{are_told, known_of, pass, words_told};
use cx_decode::Decoder;
use cx_io::NoMemory;
use cx_map::PAGE_SIZE;
use cx_observe::{Obs, Seen};
use cx_shadow::Shadow;
use std::alloc::Global;

/// What is known of a program: its words, which are pc and the registers from 1 on, and its bytes.
#[derive(Drop)]
pub struct Standing {
    pub words: [u32; 32],
    pub shadow: Shadow,
}

/// Whether the shadow has this byte.
#[inline]
pub fn has_byte(shadow: &Shadow, va: u32, byte: u8) -> bool
    ensures { result ≡ is_byte (byte_of shadow.now va) byte }
{
    match shadow.get(va) {
        None => false,
        Some(there) => there == byte,
    }
}

// Whether the shadow has these bytes, from an address on, one by one.
fn shows_each(shadow: &Shadow, va: u32, bytes: &[u8]) -> bool
    ensures { result ≡ true → Shows (byte_of shadow.now) (bytes_on va bytes.now) }
{
    let mut at = va;
    for byte in bytes {
        if !has_byte(shadow, at, *byte) {
            return false;
        }
        at = at.wrapping_add(1);
    }
    true
}

// The same, by one look where they lie on one page.
#[inline]
fn shows(shadow: &Shadow, va: u32, bytes: &[u8]) -> bool
    requires { length bytes.now ≤ 4 }
    ensures { result ≡ true → Shows (byte_of shadow.now) (bytes_on va bytes.now) }
{
    if va as usize % PAGE_SIZE + bytes.len() <= PAGE_SIZE {
        return shadow.has(va, bytes);
    }
    shows_each(shadow, va, bytes)
}

// Whether the shadow has the bytes of an access.
#[inline]
fn shows_access(shadow: &Shadow, access: &Option<Seen>) -> bool
    ensures { result ≡ true → Shows (byte_of shadow.now) (bytes_shown access.now) }
{
    match access {
        None => true,
        Some(access) => shows(shadow, access.va, front(&access.bytes, access.len)),
    }
}

impl Standing {
    /// Before the first step all words are 0, and no byte is known.
    pub fn new(alloc: Global) -> Standing
        ensures { known_by result ≡ start user }
    {
        Standing {
            words: [0; 32],
            shadow: Shadow::new(alloc),
        }
    }

    /// Makes room for what a step leaves, on at most three pages. What is known stays, whatever the answer, and what
    /// has room keeps it. `NoMemory` is free.
    pub fn hold(&mut self, obs: &Obs) -> Result<(), NoMemory>
        requires { Possible obs.now }
        ensures room { IfOk result (λ _. HasRoom self.new.shadow obs.now) }
        ensures known { known_by self.new ≡ known_by self.old }
        ensures keeps { (a : ℕ) → is_held self.old.shadow a ≡ true → is_held self.new.shadow a ≡ true }
        ensures only { (a : ℕ) → is_held self.new.shadow a ≡ true
            → (is_held self.old.shadow a ≡ true) ⊎ IsByStep a obs.now }
    {
        hold_step(&mut self.shadow, obs)
    }

    /// The same, told whether all that the step is handed stands already: then what it saw has room.
    #[inline]
    pub fn hold_for(&mut self, obs: &Obs, known: bool) -> Result<(), NoMemory>
        requires possible { Possible obs.now }
        requires known { known ≡ true → IsKnown (known_by self.old) obs.now }
        ensures room { IfOk result (λ _. HasRoom self.new.shadow obs.now) }
        ensures known { known_by self.new ≡ known_by self.old }
        ensures keeps { (a : ℕ) → is_held self.old.shadow a ≡ true → is_held self.new.shadow a ≡ true }
        ensures only { (a : ℕ) → is_held self.new.shadow a ≡ true
            → (is_held self.old.shadow a ≡ true) ⊎ IsByStep a obs.now }
    {
        if known {
            return hold_access(&mut self.shadow, &obs.write);
        }
        hold_step(&mut self.shadow, obs)
    }

    // Whether the words are those before the step.
    #[inline]
    fn has_words(&self, obs: &Obs) -> bool
        ensures { result ≡ true → self.now.words ≡ program_words obs.now.pc obs.now.x }
    {
        are_told(&self.words, obs)
    }

    // Whether the bytes that the step saw are known.
    #[inline]
    fn has_sights(&self, obs: &Obs) -> bool
        ensures { result ≡ true → Shows (byte_of self.now.shadow) (sights obs.now) }
    {
        shows(&self.shadow, obs.pc, &obs.word.to_le_bytes())
            && shows_access(&self.shadow, &obs.read)
    }

    /// Whether all that the step is handed stands already.
    pub fn has(&self, obs: &Obs) -> bool
        ensures { result ≡ true → IsKnown (known_by self.now) obs.now }
    {
        obs.value.is_none() && self.has_words(obs) && self.has_sights(obs)
    }

    /// Puts the words before the step, and the bytes that it saw.
    pub fn see(&mut self, obs: &Obs)
        requires { HasRoom self.old.shadow obs.now }
        ensures known { known_by self.new ≡ record {
          words = program_words obs.now.pc obs.now.x;
          map = with_bytes (seen_by obs.now) (byte_of self.old.shadow);
        } }
        ensures room { HasRoom self.new.shadow obs.now }
        ensures holds { (a : ℕ) → is_held self.new.shadow a ≡ is_held self.old.shadow a }
    {
        self.words = words_told(obs);
        self.shadow.put_all(bytes_seen(obs).as_slice());
    }

    /// Puts the bytes that the step wrote, and the words behind it.
    pub fn leave(&mut self, obs: &Obs)
        requires { HasRoom self.old.shadow obs.now }
        ensures known { known_by self.new ≡ record {
          words = next_words obs.now;
          map = with_bytes (bytes_shown obs.now.write) (byte_of self.old.shadow);
        } }
        ensures holds { (a : ℕ) → is_held self.new.shadow a ≡ is_held self.old.shadow a }
    {
        self.put_written(obs);
        self.words = words_told(obs);
        pass(&mut self.words, obs, known_of(obs.word));
    }

    /// The same where the words before the step stand, with a decoder that keeps the words that it came across.
    #[inline]
    pub fn go_on(&mut self, obs: &Obs, decoder: &mut Decoder)
        requires words { self.old.words ≡ program_words obs.now.pc obs.now.x }
        requires room { HasRoom self.old.shadow obs.now }
        ensures known { known_by self.new ≡ record {
          words = next_words obs.now;
          map = with_bytes (bytes_shown obs.now.write) (byte_of self.old.shadow);
        } }
        ensures holds { (a : ℕ) → is_held self.new.shadow a ≡ is_held self.old.shadow a }
    {
        self.put_written(obs);
        pass(&mut self.words, obs, decoder.decode(obs.word));
    }

    // Puts the bytes that the step wrote.
    #[inline]
    fn put_written(&mut self, obs: &Obs)
        requires { HasRoom self.old.shadow obs.now }
        ensures bytes { (a : ℕ) → byte_of self.new.shadow a
            ≡ with_bytes (bytes_shown obs.now.write) (byte_of self.old.shadow) a }
        ensures words { self.new.words ≡ self.old.words }
        ensures holds { (a : ℕ) → is_held self.new.shadow a ≡ is_held self.old.shadow a }
    {
        if obs.write.is_some() {
            self.shadow.put_all(bytes_written(obs).as_slice());
        }
    }
}
