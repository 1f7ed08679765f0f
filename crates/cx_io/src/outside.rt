//! The traits of the outside and what they answer.

ghost use Rattle.std.specs.Prelude.{◌≡◌, ℕ, ◌<◌, ◌≤◌, List, Option, length, IfOk};
ghost use Rattle.std.specs.Io.{ReadsAtMost, WritesAtMost};
ghost use Rattle.std.specs.Io.KnownBytes.{Keeps, ReadConsumes, WriteAppends};
ghost use Rattle.cx_io.specs.Cause.{HasCause};
ghost use Rattle.cx_io.specs.Input.{AreTold, GivesMore};
ghost use Rattle.cx_io.specs.Turns.{AddsAnswer};

/// The outside failed: bytes could not be had, or the world could not be asked.
#[derive(Clone, Copy, Debug, PartialEq, Eq)]
pub struct Failed;

/// Memory was refused.
#[derive(Clone, Copy, Debug, PartialEq, Eq)]
pub struct NoMemory;

/// Why a sink took nothing.
#[derive(Clone, Copy, Debug, PartialEq, Eq)]
pub enum SinkRefusal {
    /// The sink itself failed, and its count of faults rose.
    Failed,
    /// The sink had no memory for the bytes.
    NoMemory,
}

/// What the outside of the machine does before one step of its hart.
#[derive(Clone, Copy, Debug, PartialEq, Eq)]
pub struct Outside {
    /// How far the clock goes on, in its ticks.
    pub ticks: u32,
    /// Whether a waiting byte of console input may arrive.
    pub console: bool,
    /// Whether a busy block device may complete its command.
    pub block: bool,
}

/// Where bytes come from. A source may tell the bytes that it has left, and those that it gave. It has a count of
/// faults, which never falls and is below 2^64.
pub trait Source {
    /// The bytes that reads will give from here on, where the source tells them.
    ghost left: { Self → Option (List ℕ) };

    /// The bytes that reads have given so far, where the source tells those that are left.
    ghost given: { Self → List ℕ };

    /// How often the source has failed.
    ghost faults: { Self → ℕ };

    /// Reads some bytes into the front of `buf`, and answers how many. Where the bytes left are told, they are the
    /// first of these, which are then gone from them and stand behind those given; zero for a buffer that isn't empty
    /// comes only where none is left. `Failed` comes only where the count of faults rose, and leaves what is left and
    /// given as it was.
    fn read(&mut self, buf: &mut [u8]) -> Result<usize, Failed>
        ensures bound { ReadsAtMost result buf.new }
        ensures bytes { ReadConsumes (left self.old) (left self.new) result buf.new }
        ensures given { GivesMore (left self.old) (given self.old) (given self.new) result buf.new }
        ensures cause { HasCause (record {}) (faults self.old) (faults self.new) result };

    /// Does nothing. It stands for the fact that what is told are bytes, for proofs that have to know it.
    fn tells_bytes(&self)
        ensures { AreTold (left self.now) };
}

/// Where bytes go. A sink may tell the bytes that it holds. It has a count of faults, which never falls and is below
/// 2^64.
pub trait Sink {
    /// The bytes that were taken so far, where the sink tells them.
    ghost held: { Self → Option (List ℕ) };

    /// How often the sink has failed.
    ghost faults: { Self → ℕ };

    /// Takes some bytes from the front of `bytes`, and answers how many: at least one of a piece that isn't empty.
    /// Where the bytes held are told, these are appended. A refusal leaves them; `Failed` comes only where the count of
    /// faults rose.
    fn write(&mut self, bytes: &[u8]) -> Result<usize, SinkRefusal>
        ensures bound { WritesAtMost result bytes.now }
        ensures some { IfOk result (λ n. 0 < length bytes.now → 0 < n) }
        ensures bytes { WriteAppends (held self.old) (held self.new) result bytes.now }
        ensures cause { HasCause SinkRefusal.Failed (faults self.old) (faults self.new) result };

    /// Hands on what the sink keeps back. The bytes held stay as they are, whatever the answer; `Failed` comes only
    /// where the count of faults rose.
    fn flush(&mut self) -> Result<(), SinkRefusal>
        ensures bytes { Keeps (held self.old) (held self.new) }
        ensures cause { HasCause SinkRefusal.Failed (faults self.old) (faults self.new) result };
}

/// What the devices meet, one answer for each step of the hart. A world may tell the list of its answers. It has a
/// count of faults, which never falls and is below 2^64.
pub trait World {
    ghost use Rattle.std.specs.Prelude.{ℕ, List, Option};
    ghost use Rattle.cx_io.specs.declared.outside.Outside.{Outside};
    ghost use Rattle.cx_io.specs.Cause.{HasCause};
    ghost use Rattle.cx_io.specs.Turns.{AddsAnswer};

    /// The answers that were given so far, in order, where the world tells them.
    ghost answers: { Self → Option (List Outside) };

    /// How often the world has failed.
    ghost faults: { Self → ℕ };

    /// Gives the next answer, which goes to the end of a list that is told. `Failed` comes only where the count of
    /// faults rose, and leaves the list as it was.
    fn turn(&mut self) -> Result<Outside, Failed>
        ensures answer { AddsAnswer (answers self.old) (answers self.new) result }
        ensures cause { HasCause (record {}) (faults self.old) (faults self.new) result };
}
