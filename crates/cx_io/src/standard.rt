//! The process's own streams. They tell nothing of their bytes: what the system gives or keeps, no clause can know.

ghost use Rattle.std.specs.Prelude.{◌≡◌, ℕ, ◌<◌, ◌≤◌, if◌then◌else◌, List, Option, length, is_err, IfErr, IfOk};
ghost use Rattle.std.specs.Io.{ReadsAtMost, WritesAtMost};
ghost use Rattle.std.specs.Io.KnownBytes.{Keeps, ReadConsumes, WriteAppends};
ghost use Rattle.cx_io.specs.Cause.{HasCause};
ghost use Rattle.cx_io.specs.Input.{AreTold, GivesMore};
ghost use Rattle.cx_io.specs.Plan.{one_more};

use crate::{Failed, Sink, SinkRefusal, Source};
use std::io::{Read, Write};
use std::marker::Model;

/// A source over a reader of the process, as its standard input. Each error of the reader is a fault. It keeps no
/// buffer of its own.
#[derive(Drop)]
pub struct StdSource<R> {
    input: R,
    faults: u64,
}

/// Contracts see how often it has failed.
impl<R> Model for StdSource<R> {
    ghost Value = { ℕ };

    ghost view = { λ s. s.faults };
}

impl<R: Read> StdSource<R> {
    /// A source over `input`, which has not failed yet.
    pub fn new(input: R) -> StdSource<R>
        ensures { result ≡ 0 }
    {
        StdSource { input, faults: 0 }
    }
}

impl<R: Read> Source for StdSource<R> {
    ghost use Rattle.std.specs.Prelude.{None, []};

    ghost left = { λ s. None };

    ghost given = { λ s. [] };

    ghost faults = { λ s. s };

    /// One read of the reader. Its count of faults rises exactly where the answer is `Failed`.
    fn read(&mut self, buf: &mut [u8]) -> Result<usize, Failed>
        ensures bound { ReadsAtMost result buf.new }
        ensures bytes { ReadConsumes None None result buf.new }
        ensures given { GivesMore None [] [] result buf.new }
        ensures cause { HasCause (record {}) self.old self.new result }
        ensures count { self.new ≡ (if is_err result then one_more self.old else self.old) }
    {
        match self.input.read(buf) {
            Ok(count) => Ok(count),
            Err(_) => {
                self.faults = self.faults.saturating_add(1);
                Err(Failed)
            }
        }
    }

    fn tells_bytes(&self) {}
}

/// A sink over a writer of the process, as its standard output. Each error of the writer is a fault, and so is a piece
/// that isn't empty of which it takes no byte. It keeps no buffer of its own.
#[derive(Drop)]
pub struct StdSink<W> {
    output: W,
    faults: u64,
}

/// Contracts see how often it has failed.
impl<W> Model for StdSink<W> {
    ghost Value = { ℕ };

    ghost view = { λ s. s.faults };
}

impl<W: Write> StdSink<W> {
    /// A sink over `output`, which has not failed yet.
    pub fn new(output: W) -> StdSink<W>
        ensures { result ≡ 0 }
    {
        StdSink { output, faults: 0 }
    }
}

impl<W: Write> Sink for StdSink<W> {
    ghost use Rattle.std.specs.Prelude.{None};

    ghost held = { λ s. None };

    ghost faults = { λ s. s };

    /// One write of the writer. Its count of faults rises exactly where the answer is `Failed`, the only refusal.
    fn write(&mut self, bytes: &[u8]) -> Result<usize, SinkRefusal>
        ensures bound { WritesAtMost result bytes.now }
        ensures some { IfOk result (λ n. 0 < length bytes.now → 0 < n) }
        ensures bytes { WriteAppends None None result bytes.now }
        ensures cause { HasCause SinkRefusal.Failed self.old self.new result }
        ensures refusal { IfErr result (λ e. e ≡ SinkRefusal.Failed) }
        ensures count { self.new ≡ (if is_err result then one_more self.old else self.old) }
    {
        match self.output.write(bytes) {
            Ok(count) if count > 0 || bytes.is_empty() => Ok(count),
            _ => {
                self.faults = self.faults.saturating_add(1);
                Err(SinkRefusal::Failed)
            }
        }
    }

    /// One flush of the writer. Its count of faults rises exactly where the answer is `Failed`, the only refusal.
    fn flush(&mut self) -> Result<(), SinkRefusal>
        ensures bytes { Keeps None None }
        ensures cause { HasCause SinkRefusal.Failed self.old self.new result }
        ensures refusal { IfErr result (λ e. e ≡ SinkRefusal.Failed) }
        ensures count { self.new ≡ (if is_err result then one_more self.old else self.old) }
    {
        match self.output.flush() {
            Ok(()) => Ok(()),
            Err(_) => {
                self.faults = self.faults.saturating_add(1);
                Err(SinkRefusal::Failed)
            }
        }
    }
}
