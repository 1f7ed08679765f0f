//! A source that holds its bytes in memory, with faults where its maker wants them.

ghost use Rattle.std.specs.Prelude.{
  ◌≡◌,
  ◌↔◌,
  ℕ,
  ◌-◌,
  ◌^◌,
  ◌<◌,
  ◌≤◌,
  min,
  List,
  [],
  ◌++◌,
  Option,
  Some,
  length,
  take,
  drop,
  IsErr,
  IfOk,
  OnErr,
  IsTrue,
};
ghost use Rattle.std.specs.Io.{ReadsAtMost};
ghost use Rattle.std.specs.Io.KnownBytes.{ReadConsumes};
ghost use Rattle.cx_io.specs.Cause.{HasCause};
ghost use Rattle.cx_io.specs.Input.{AreTold, GivesMore};
ghost use Rattle.cx_io.specs.Plan.{after_call, fails_next, one_more, planned};
ghost use Rattle.cx_map.specs.Bytes.{AreBytes};

use crate::plan::FaultPlan;
use crate::{Failed, Source};
use std::marker::Model;

/// A source over bytes in memory. It tells those that are left and those that it gave, and those of its reads fail
/// whose numbers, counted from 0, its maker listed. The number of a call stays at 2^64 - 1 once it is there.
#[derive(Debug, Drop)]
pub struct MemSource {
    bytes: Vec<u8>,
    at: usize,
    plan: FaultPlan,
}

impl Model for MemSource {
    ghost use Rattle.std.specs.Prelude.{◌≤◌, drop, take, vec_len};
    ghost use Rattle.cx_io.specs.MemorySource.{MemoryInput};

    ghost Value = { MemoryInput };

    ghost view = { λ s. record { left = drop s.at s.bytes.items; given = take s.at s.bytes.items; plan = s.plan } };

    ghost invariant = { λ s. s.at ≤ vec_len s.bytes };
}

impl MemSource {
    /// A source of these bytes, whose calls fail that `fails` lists.
    pub fn new(bytes: Vec<u8>, fails: Vec<u64>) -> MemSource
        ensures left { result.left ≡ bytes.items }
        ensures given { result.given ≡ [] }
        ensures plan { result.plan ≡ planned fails.items }
    {
        MemSource {
            bytes,
            at: 0,
            plan: FaultPlan::new(fails),
        }
    }

    /// A read of a source whose list of failures is empty: it can't fail, and its count of faults stays.
    pub fn read_surely(&mut self, buf: &mut [u8]) -> usize
        requires { self.old.plan.fails ≡ [] }
        ensures count { result ≡ min (length buf.old) (length self.old.left) }
        ensures bytes { self.old.left ≡ take result buf.new ++ self.new.left }
        ensures given { self.new.given ≡ self.old.given ++ take result buf.new }
        ensures plan { self.new.plan ≡ record self.old.plan { calls = one_more self.old.plan.calls } }
    {
        match self.read(buf) {
            Ok(count) => count,
            Err(_) => unreachable!(),
        }
    }
}

impl Source for MemSource {
    ghost use Rattle.std.specs.Prelude.{Some};

    ghost left = { λ s. Some s.left };

    ghost given = { λ s. s.given };

    ghost faults = { λ s. s.plan.faults };

    /// Fills as much of `buf` as bytes are left, and leaves what lies behind as it was. It fails exactly where the
    /// number of the call is listed.
    fn read(&mut self, buf: &mut [u8]) -> Result<usize, Failed>
        ensures bound { ReadsAtMost result buf.new }
        ensures bytes { ReadConsumes (Some self.old.left) (Some self.new.left) result buf.new }
        ensures given { GivesMore (Some self.old.left) self.old.given self.new.given result buf.new }
        ensures cause { HasCause (record {}) self.old.plan.faults self.new.plan.faults result }
        ensures fails { IsErr result ↔ IsTrue (fails_next self.old.plan) }
        ensures count { IfOk result (λ n. n ≡ min (length buf.old) (length self.old.left)) }
        ensures rest { IfOk result (λ n. drop n buf.new ≡ drop n buf.old) }
        ensures untouched { OnErr result (buf.new ≡ buf.old) }
        ensures plan { self.new.plan ≡ after_call self.old.plan }
    {
        if self.plan.fails_now() {
            return Err(Failed);
        }
        let count = buf.len().min(self.bytes.len() - self.at);
        buf[..count].copy_from_slice(&self.bytes[self.at..self.at + count]);
        self.at += count;
        Ok(count)
    }

    fn tells_bytes(&self)
        ensures { AreTold (Some self.now.left) }
    {
        are_bytes(&self.bytes[self.at..]);
    }
}

// The elements of a slice of bytes are bytes.
fn are_bytes(bytes: &[u8])
    ensures { AreBytes bytes.now }
{}
