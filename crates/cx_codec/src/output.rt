//! Putting fields into whole blocks for a sink.

ghost use Rattle.std.specs.Prelude.{
  ◌≡◌,
  ◌+◌,
  ◌<◌,
  [],
  ◌∷◌,
  ◌++◌,
  length,
  true,
  IfOk,
  OnOk,
  OnErr,
  IsSome,
  IsTrue,
  false,
};
ghost use Rattle.std.specs.Int.{w32, to_le_bytes};
ghost use Rattle.std.specs.Io.KnownBytes.{Appends};
ghost use Rattle.cx_io.specs.Cause.{HasCause};
ghost use Rattle.cx_codec.specs.Blocks.{HasFront};
ghost use Rattle.cx_codec.specs.Puts.{Finishes, Puts, onto};
ghost use Rattle.cx_codec.specs.Varint.{varint};

use crate::buffer::BLOCK;
use crate::fault::OutFault;
use crate::varint;
use cx_io::{NoMemory, Sink};
use std::alloc::Global;
use std::marker::Model;

/// A writer of fields. What is put waits until it fills a block of 4,096 bytes, which then goes to the sink. After a
/// refusal it has ended. What waits is lost where it is dropped without `finish`.
#[derive(Drop)]
pub struct Out {
    block: Vec<u8>,
    count: usize,
    live: bool,
}

impl Model for Out {
    ghost use Rattle.std.specs.Prelude.{take};
    ghost use Rattle.cx_codec.specs.Blocks.{Waiting, IsFront};

    ghost Value = { Waiting };

    ghost view = { λ o. record { bytes = take o.count o.block.items; live = o.live } };

    ghost invariant = { λ o. IsFront o.block.items o.count };
}

// Hands all the bytes to the sink, in as many pieces as it takes.
fn write_all<T: Sink>(bytes: &[u8], sink: &mut T) -> Result<(), OutFault>
    ensures told { IsSome (T.held sink.old) → IsSome (T.held sink.new) }
    ensures ok { OnOk result (Appends (T.held sink.old) (T.held sink.new) bytes.now) }
    ensures err { OnErr result (HasFront (T.held sink.old) bytes.now (T.held sink.new)) }
    ensures cause { HasCause OutFault.WriteFault (T.faults sink.old) (T.faults sink.new) result }
{
    let mut written = 0;
    while written < bytes.len() {
        written += sink.write(&bytes[written..])?;
    }
    Ok(())
}

impl Out {
    /// A writer that has put nothing. `NoMemory` comes where its block is refused.
    pub fn new(alloc: Global) -> Result<Out, NoMemory>
        ensures { IfOk result (λ o. o ≡ record { bytes = []; live = true }) }
    {
        match vec![in alloc; 0u8; BLOCK] {
            Ok(block) => Ok(Out {
                block,
                count: 0,
                live: true,
            }),
            Err(_) => Err(NoMemory),
        }
    }

    /// Whether it goes on: it does until a call is refused.
    pub fn live(&self) -> bool
        ensures { result ≡ self.now.live }
    {
        self.live
    }

    // How many bytes fill the block.
    fn room(&self) -> usize
        ensures some { 0 < result }
        ensures fills { length self.now.bytes + result ≡ 4096 }
    {
        BLOCK - self.count
    }

    // The bytes that wait.
    fn waiting(&self) -> &[u8]
        ensures { result.now ≡ self.now.bytes }
    {
        &self.block[..self.count]
    }

    // Lets bytes wait that don't fill the block.
    fn keep(&mut self, bytes: &[u8])
        requires { length self.old.bytes + length bytes.now < 4096 }
        ensures { self.new ≡ record self.old { bytes = self.old.bytes ++ bytes.now } }
    {
        let end = self.count + bytes.len();
        self.block[self.count..end].copy_from_slice(bytes);
        self.count = end;
    }

    // Fills the block and hands it to the sink.
    fn fill<T: Sink>(&mut self, bytes: &[u8], sink: &mut T) -> Result<(), OutFault>
        requires { length self.old.bytes + length bytes.now ≡ 4096 }
        ensures told { IsSome (T.held sink.old) → IsSome (T.held sink.new) }
        ensures ok { OnOk result (Appends (T.held sink.old) (T.held sink.new) (self.old.bytes ++ bytes.now)) }
        ensures empty { OnOk result (self.new.bytes ≡ []) }
        ensures live { OnOk result (self.new.live ≡ self.old.live) }
        ensures err { OnErr result (HasFront (T.held sink.old) (self.old.bytes ++ bytes.now) (T.held sink.new)) }
        ensures ended { OnErr result (self.new.live ≡ false) }
        ensures cause { HasCause OutFault.WriteFault (T.faults sink.old) (T.faults sink.new) result }
    {
        self.block[self.count..].copy_from_slice(bytes);
        self.count = 0;
        let written = write_all(&self.block, sink);
        if written.is_err() {
            self.live = false;
        }
        written
    }

    /// Puts the bytes. `WriteFault` comes only where the sink's count of faults rose, and `NoMemory` where it had no
    /// memory. After a refusal the sink holds a front of what was put.
    pub fn put_bytes<T: Sink>(&mut self, bytes: &[u8], sink: &mut T) -> Result<(), OutFault>
        requires { IsTrue self.old.live }
        ensures { Puts OutFault.WriteFault bytes.now
            (onto self.old (T.held sink.old) (T.faults sink.old))
            (onto self.new (T.held sink.new) (T.faults sink.new)) result }
    {
        let mut done = 0;
        while bytes.len() - done >= self.room() {
            let end = done + self.room();
            self.fill(&bytes[done..end], sink)?;
            done = end;
        }
        self.keep(&bytes[done..]);
        Ok(())
    }

    /// Puts a byte. It is refused as bytes are.
    pub fn put_byte<T: Sink>(&mut self, value: u8, sink: &mut T) -> Result<(), OutFault>
        requires { IsTrue self.old.live }
        ensures { Puts OutFault.WriteFault (value ∷ [])
            (onto self.old (T.held sink.old) (T.faults sink.old))
            (onto self.new (T.held sink.new) (T.faults sink.new)) result }
    {
        self.put_bytes(&[value], sink)
    }

    /// Puts a word: four bytes, the low one first. It is refused as bytes are.
    pub fn put_word<T: Sink>(&mut self, value: u32, sink: &mut T) -> Result<(), OutFault>
        requires { IsTrue self.old.live }
        ensures { Puts OutFault.WriteFault (to_le_bytes w32 value)
            (onto self.old (T.held sink.old) (T.faults sink.old))
            (onto self.new (T.held sink.new) (T.faults sink.new)) result }
    {
        self.put_bytes(&value.to_le_bytes(), sink)
    }

    /// Puts a number as a varint, in its one spelling. It is refused as bytes are.
    pub fn put_varint<T: Sink>(&mut self, value: u64, sink: &mut T) -> Result<(), OutFault>
        requires { IsTrue self.old.live }
        ensures { Puts OutFault.WriteFault (varint value)
            (onto self.old (T.held sink.old) (T.faults sink.old))
            (onto self.new (T.held sink.new) (T.faults sink.new)) result }
    {
        let mut digits = [0u8; varint::LONGEST];
        let count = varint::spell(value, &mut digits);
        self.put_bytes(&digits[..count], sink)
    }

    /// Hands what waits to the sink, and has the sink hand on what it keeps back: it holds all that was put then.
    /// It is refused as bytes are.
    pub fn finish<T: Sink>(self, sink: &mut T) -> Result<(), OutFault>
        requires { IsTrue self.live }
        ensures { Finishes OutFault.WriteFault []
            (onto self (T.held sink.old) (T.faults sink.old)) (T.held sink.new) (T.faults sink.new) result }
    {
        write_all(self.waiting(), sink)?;
        Ok(sink.flush()?)
    }
}
