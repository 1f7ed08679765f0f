//! The slicer.

ghost use Rattle.std.specs.Prelude.{◌≡◌, ◌+◌, ◌<◌, ◌≤◌, ◌^◌, ◌⊎◌, ◌++◌, ℕ, List, [], ◌∷◌, IfOk, IsTrue, OnOk};
ghost use Rattle.cx_callfmt.specs.Text.{call_magic};
ghost use Rattle.cx_calls.specs.Begun.{calls_added, calls_ending};
ghost use Rattle.cx_calls.specs.Slicing.{IsForSome};
ghost use Rattle.cx_codec.specs.Puts.{Finishes, Puts, Starts, onto};
ghost use Rattle.cx_observe.specs.Possible.{Possible};
ghost use Rattle.cx_observe.specs.declared.obs.Obs.{Obs};

use crate::feeding::{finish, take_next};
use crate::gatherer::Gatherer;
use cx_callfmt::CallWriter;
use cx_codec::OutFault;
use cx_io::Sink;
use cx_observe::Obs;
use cx_process::new_decoder;
use std::alloc::Global;

/// The slicer of a program by its calls. It stands for the observations that it was fed, of which it keeps none: it has
/// put the text of their slice before its last call, and keeps what is gathered behind that, in flat memory but for the
/// bytes that the last call is handed and the text of the records behind it. After a refusal of its writer it has
/// ended, and the sink holds a front of what was put; where room for an observation is refused it goes on. `WriteFault`
/// comes only where the sink's count of faults rose, and `NoMemory` where memory is refused, to it or by the sink.
#[derive(Drop)]
pub struct Caller {
    gatherer: Gatherer,
    writer: CallWriter,
    ghost calling: { IsTrue writer.output.live → IsForSome gatherer writer },
    ghost most: { gatherer.count ≤ 2 ^ 48 },
}

impl Caller {
    ghost use Rattle.cx_calls.specs.Stands.{HasTaken, IsRoomRefused, count_of, output_of};

    /// Begins a slice: puts its magic. It was fed nothing.
    pub fn new<T: Sink>(alloc: Global, sink: &mut T) -> Result<Caller, OutFault>
        ensures starts { Starts OutFault.WriteFault call_magic output_of
            (T.held sink.old) (T.held sink.new) (T.faults sink.old) (T.faults sink.new) result }
        ensures stands { IfOk result (HasTaken []) }
    {
        let decoder = new_decoder(alloc)?;
        let writer = CallWriter::start(alloc, sink)?;
        Ok(Caller {
            gatherer: Gatherer::new(alloc, decoder),
            writer,
        })
    }

    /// Whether it goes on: it does until its writer is refused.
    pub fn live(&self) -> bool
        ensures { result ≡ (output_of self.now).live }
    {
        self.writer.live()
    }

    /// How many observations it was fed.
    pub fn count(&self) -> u64
        ensures { result ≡ count_of self.now }
    {
        self.gatherer.count
    }

    /// Takes the next observation. Where it is a call, puts the call before it or the start, with what that is handed,
    /// and the records behind it. Where room is refused, it stands for what it did.
    pub fn feed<T: Sink>(&mut self, obs: &Obs, sink: &mut T) -> Result<(), OutFault>
        requires live { IsTrue (output_of self.old).live }
        requires possible { Possible obs.now }
        requires most { count_of self.old < 2 ^ 48 }
        ensures stands { (os : List Obs) → HasTaken os self.old → OnOk result (HasTaken (os ++ obs.now ∷ []) self.new) }
        ensures puts { (os : List Obs) → HasTaken os self.old
            → IsRoomRefused result self.old self.new sink.old sink.new
            ⊎ Puts OutFault.WriteFault (calls_added os obs.now)
            (onto (output_of self.old) (T.held sink.old) (T.faults sink.old))
            (onto (output_of self.new) (T.held sink.new) (T.faults sink.new)) result }
        ensures count { OnOk result (count_of self.new ≡ count_of self.old + 1) }
    {
        take_next(&mut self.gatherer, &mut self.writer, obs, sink)
    }

    /// Puts the last call or the start with what it is handed, the records behind it and the end of the slice, and hands
    /// all to the sink. It was fed one observation at least.
    pub fn end<T: Sink>(self, sink: &mut T) -> Result<(), OutFault>
        requires live { IsTrue (output_of self).live }
        requires some { 1 ≤ count_of self }
        ensures { (os : List Obs) → HasTaken os self
            → Finishes OutFault.WriteFault (calls_ending os)
            (onto (output_of self) (T.held sink.old) (T.faults sink.old)) (T.held sink.new) (T.faults sink.new) result }
    {
        finish(self.gatherer, self.writer, sink)
    }
}
