//! The buffer between a source and the fields that are read from it.

ghost use Rattle.std.specs.Prelude.{
  ◌≡◌,
  ◌+◌,
  ◌-◌,
  ◌<◌,
  ◌≤◌,
  ◌↔◌,
  [],
  ◌++◌,
  length,
  take,
  drop,
  min,
  Ok,
  true,
  IfOk,
  IsSome,
  IsTrue,
  OnErr,
  unwrap_or,
};
ghost use Rattle.std.specs.Bool.{OnFalse};
ghost use Rattle.cx_io.specs.Cause.{HasCause};
ghost use Rattle.cx_codec.specs.Window.{Copies, CopiesHeld, Refills, reach_of};

use cx_io::{Failed, NoMemory, Source};
use std::alloc::Global;
use std::marker::Model;

/// How many bytes a buffer holds.
pub(crate) const BLOCK: usize = 4096;

/// The bytes that were read from a source and not yet taken, the offset of the first of them, and the offset that no
/// byte may pass: seen as the place at hand.
#[derive(Drop)]
pub(crate) struct Buffer {
    bytes: Vec<u8>,
    start: usize,
    end: usize,
    at: u64,
    limit: u64,
}

impl Model for Buffer {
    ghost use Rattle.std.specs.Prelude.{◌≤◌};
    ghost use Rattle.cx_codec.specs.Place.{Place};
    ghost use Rattle.cx_codec.specs.Window.{IsInside, items_between};

    ghost Value = { Place };

    ghost view = { λ b. record { at = b.at; limit = b.limit; ahead = items_between b.bytes.items b.start b.end } };

    ghost invariant = { λ b. IsInside b.bytes.items b.start b.end × (b.at ≤ b.limit) };
}

impl Buffer {
    /// An empty buffer at offset 0.
    pub(crate) fn new(alloc: Global, limit: u64) -> Result<Buffer, NoMemory>
        ensures { IfOk result (λ b. b ≡ record { at = 0; limit = limit; ahead = [] }) }
    {
        match vec![in alloc; 0u8; BLOCK] {
            Ok(bytes) => Ok(Buffer {
                bytes,
                start: 0,
                end: 0,
                at: 0,
                limit,
            }),
            Err(_) => Err(NoMemory),
        }
    }

    /// The offset of the first byte that wasn't taken.
    pub(crate) fn at(&self) -> u64
        ensures at { result ≡ self.now.at }
        ensures within { result ≤ self.now.limit }
    {
        self.at
    }

    /// The offset that no byte may pass.
    pub(crate) fn limit(&self) -> u64
        ensures limit { result ≡ self.now.limit }
        ensures within { self.now.at ≤ result }
    {
        self.limit
    }

    /// Sets the offset that no byte may pass, which is here or further on.
    pub(crate) fn set_limit(&mut self, limit: u64)
        requires { self.old.at ≤ limit }
        ensures { self.new ≡ record self.old { limit = limit } }
    {
        self.limit = limit;
    }

    /// Whether no byte can be taken before the limit.
    pub(crate) fn is_full(&self) -> bool
        ensures { IsTrue result ↔ (self.now.at ≡ self.now.limit) }
    {
        self.at == self.limit
    }

    // How many bytes can be taken before the limit.
    fn room(&self) -> u64
        ensures { self.now.at + result ≡ self.now.limit }
    {
        self.limit - self.at
    }

    // Whether no byte waits.
    fn is_empty(&self) -> bool
        ensures { IsTrue result ↔ (self.now.ahead ≡ []) }
    {
        self.start == self.end
    }

    // Reads into an empty buffer, and answers whether a byte came.
    fn fill<S: Source>(&mut self, source: &mut S) -> Result<bool, Failed>
        requires { self.old.ahead ≡ [] }
        ensures refills { IsSome (S.left source.old) → Refills
            (record { hand = self.old; left = S.left source.old; given = S.given source.old })
            (record { hand = self.new; left = S.left source.new; given = S.given source.new }) }
        ensures place { self.new ≡ record self.old { ahead = self.new.ahead } }
        ensures some { IfOk result (λ more. IsTrue more ↔ (0 < length self.new.ahead)) }
        ensures end { IsSome (S.left source.old)
            → IfOk result (λ more. OnFalse more (unwrap_or (S.left source.new) [] ≡ [])) }
        ensures failed { OnErr result (self.new.ahead ≡ []) }
        ensures cause { HasCause (record {}) (S.faults source.old) (S.faults source.new) result }
    {
        let count = source.read(&mut self.bytes)?;
        self.start = 0;
        self.end = count;
        Ok(count > 0)
    }

    /// Reads more where no byte waits, and answers whether one does now: none does only where the input ended, or the
    /// source failed.
    pub(crate) fn refill<S: Source>(&mut self, source: &mut S) -> Result<bool, Failed>
        ensures refills { IsSome (S.left source.old) → Refills
            (record { hand = self.old; left = S.left source.old; given = S.given source.old })
            (record { hand = self.new; left = S.left source.new; given = S.given source.new }) }
        ensures place { self.new ≡ record self.old { ahead = self.new.ahead } }
        ensures some { IfOk result (λ more. IsTrue more ↔ (0 < length self.new.ahead)) }
        ensures end { IsSome (S.left source.old)
            → IfOk result (λ more. OnFalse more (unwrap_or (S.left source.new) [] ≡ [])) }
        ensures failed { OnErr result (self.new.ahead ≡ []) }
        ensures within { self.new.at ≤ self.new.limit }
        ensures held { 0 < length self.old.ahead
            → (self.new ≡ self.old) × (source.new ≡ source.old) × (result ≡ Ok true) }
        ensures cause { HasCause (record {}) (S.faults source.old) (S.faults source.new) result }
    {
        let _ = self.at();
        if self.is_empty() {
            return self.fill(source);
        }
        Ok(true)
    }

    /// Moves bytes to the front of `into`, those that wait first and then the source's, and answers how many: fewer
    /// than `into` holds only where the limit or the input's end is behind them.
    pub(crate) fn copy<S: Source>(
        &mut self,
        into: &mut [u8],
        source: &mut S,
    ) -> Result<usize, Failed>
        ensures copies { IsSome (S.left source.old) → Copies into.new
            (record { hand = self.old; left = S.left source.old; given = S.given source.old })
            (record { hand = self.new; left = S.left source.new; given = S.given source.new }) result }
        ensures bound { IfOk result (λ n. n ≤ length into.old) }
        ensures at { IfOk result (λ n. self.new.at ≡ self.old.at + n) }
        ensures limit { self.new.limit ≡ self.old.limit }
        ensures within { self.new.at ≤ self.new.limit }
        ensures held { reach_of (length into.old) self.old ≤ length self.old.ahead →
            (source.new ≡ source.old) × CopiesHeld into.new self.old self.new result }
        ensures cause { HasCause (record {}) (S.faults source.old) (S.faults source.new) result }
    {
        let reach = self.room().min(into.len() as u64) as usize;
        let mut count = 0;
        while count < reach {
            match self.refill(source) {
                Ok(true) => count += self.give(into, count, reach),
                Ok(false) => break,
                Err(failed) => return Err(failed),
            }
        }
        Ok(count)
    }

    // Moves as many bytes as wait to the places of `into` from `from` up to `reach`, and answers how many.
    #[tactic(auto, using(crate::proofs::Parts::later))]
    fn give(&mut self, into: &mut [u8], from: usize, reach: usize) -> usize
        requires ordered { from ≤ reach }
        requires inside { reach ≤ length into.old }
        requires room { self.old.at + (reach - from) ≤ self.old.limit }
        ensures count { result + from ≡ min reach (length self.old.ahead + from) }
        ensures moved { take (from + result) into.new ≡ take from into.old ++ take result self.old.ahead }
        ensures place { self.new ≡ record {
          at = self.old.at + result;
          limit = self.old.limit;
          ahead =
              drop result self.old.ahead;
        } }
    {
        let count = (self.end - self.start).min(reach - from);
        into[from..from + count].copy_from_slice(&self.bytes[self.start..self.start + count]);
        self.start += count;
        self.at += count as u64;
        count
    }
}
