//! A sink that keeps its bytes in memory, with faults where its maker wants them.

ghost use Rattle.std.specs.Prelude.{
  ◌≡◌,
  ◌↔◌,
  ℕ,
  ◌<◌,
  ◌≤◌,
  List,
  [],
  ◌++◌,
  Option,
  length,
  if◌then◌else◌,
  IfOk,
  IsTrue,
  OnOk,
  OnErr,
};
ghost use Rattle.std.specs.Io.{WritesAtMost};
ghost use Rattle.std.specs.Io.KnownBytes.{Keeps, WriteAppends};
ghost use Rattle.cx_io.specs.Cause.{HasCause};
ghost use Rattle.cx_io.specs.Plan.{after_call, fails_next, one_more, planned};

use crate::plan::FaultPlan;
use crate::{NoMemory, Sink, SinkRefusal};
use std::alloc::Global;
use std::marker::Model;

/// A sink over memory. It tells the bytes that it took, and those of its calls fail whose numbers its maker listed:
/// writes and flushes are numbered together from 0. The number of a call stays at 2^64 - 1 once it is there.
#[derive(Debug, Drop)]
pub struct MemSink {
    bytes: Vec<u8>,
    plan: FaultPlan,
}

impl Model for MemSink {
    ghost use Rattle.cx_io.specs.MemorySink.{MemoryOutput};

    ghost Value = { MemoryOutput };

    ghost view = { λ s. record { held = s.bytes.items; plan = s.plan } };
}

impl MemSink {
    /// An empty sink, whose calls fail that `fails` lists.
    pub fn new(alloc: Global, fails: Vec<u64>) -> MemSink
        ensures held { result.held ≡ [] }
        ensures plan { result.plan ≡ planned fails.items }
    {
        MemSink {
            bytes: Vec::new(alloc),
            plan: FaultPlan::new(fails),
        }
    }

    /// The bytes that it holds.
    pub fn bytes(&self) -> &[u8]
        ensures { result.now ≡ self.now.held }
    {
        self.bytes.as_slice()
    }

    /// A write of the whole piece to a sink whose list of failures is empty: only memory can be refused, and the count
    /// of faults stays.
    pub fn write_surely(&mut self, bytes: &[u8]) -> Result<(), NoMemory>
        requires { self.old.plan.fails ≡ [] }
        ensures ok { OnOk result (self.new.held ≡ self.old.held ++ bytes.now) }
        ensures err { OnErr result (self.new.held ≡ self.old.held) }
        ensures plan { self.new.plan ≡ record self.old.plan { calls = one_more self.old.plan.calls } }
    {
        match self.write(bytes) {
            Ok(_) => Ok(()),
            Err(SinkRefusal::NoMemory) => Err(NoMemory),
            Err(SinkRefusal::Failed) => unreachable!(),
        }
    }

    /// A flush of a sink whose list of failures is empty: it is always done, and the count of faults stays.
    pub fn flush_surely(&mut self)
        requires { self.old.plan.fails ≡ [] }
        ensures held { self.new.held ≡ self.old.held }
        ensures plan { self.new.plan ≡ record self.old.plan { calls = one_more self.old.plan.calls } }
    {
        match self.flush() {
            Ok(()) => {}
            Err(_) => unreachable!(),
        }
    }
}

impl Sink for MemSink {
    ghost use Rattle.std.specs.Prelude.{Some};

    ghost held = { λ s. Some s.held };

    ghost faults = { λ s. s.plan.faults };

    /// Takes the whole piece, unless the number of the call is listed or memory is refused. It fails exactly where the
    /// number is listed.
    fn write(&mut self, bytes: &[u8]) -> Result<usize, SinkRefusal>
        ensures bound { WritesAtMost result bytes.now }
        ensures some { IfOk result (λ n. 0 < length bytes.now → 0 < n) }
        ensures bytes { WriteAppends (Some self.old.held) (Some self.new.held) result bytes.now }
        ensures cause { HasCause SinkRefusal.Failed self.old.plan.faults self.new.plan.faults result }
        ensures fails { (result ≡ Err SinkRefusal.Failed) ↔ IsTrue (fails_next self.old.plan) }
        ensures whole { IfOk result (λ n. n ≡ length bytes.now) }
        ensures plan { self.new.plan ≡ after_call self.old.plan }
    {
        if self.plan.fails_now() {
            return Err(SinkRefusal::Failed);
        }
        match self.bytes.extend_from_slice(bytes) {
            Ok(()) => Ok(bytes.len()),
            Err(_) => Err(SinkRefusal::NoMemory),
        }
    }

    /// Does nothing but count the call. It fails exactly where the number of the call is listed, and never for memory.
    fn flush(&mut self) -> Result<(), SinkRefusal>
        ensures bytes { Keeps (Some self.old.held) (Some self.new.held) }
        ensures cause { HasCause SinkRefusal.Failed self.old.plan.faults self.new.plan.faults result }
        ensures answer { result ≡ (if fails_next self.old.plan then Err SinkRefusal.Failed else Ok (record {})) }
        ensures plan { self.new.plan ≡ after_call self.old.plan }
    {
        if self.plan.fails_now() {
            return Err(SinkRefusal::Failed);
        }
        Ok(())
    }
}
