//! Reading fields from a source.

ghost use Rattle.std.specs.Bool.{OnTrue};
ghost use Rattle.std.specs.Prelude.{◌≡◌, ◌+◌, ◌^◌, ◌<◌, ◌≤◌, [], length, true, false, unwrap_or, IfOk, OnOk, IsSome};
ghost use Rattle.std.specs.Prelude.{IsTrue};
ghost use Rattle.cx_codec.specs.Fault.{bytes_met};
ghost use Rattle.cx_codec.specs.Reads.{Asks, Ends, Goes, Reads, always, front_of, over};
ghost use Rattle.cx_codec.specs.Fields.{bytes_at, byte_at, word_at, varint_bytes_at, varint_at, end_at};

use crate::buffer::Buffer;
use crate::fault::BytesFault;
use crate::varint;
use cx_io::{NoMemory, Source};
use std::alloc::Global;
use std::marker::Model;

/// The limit that an input has at first: no field goes past this offset.
const WIDEST: u64 = 1 << 60;

/// A reader of fields. It keeps the offset, a limit that no field may pass, and the bytes that were read ahead; it asks
/// the source only where these don't tell what the field is. After a refusal it has ended.
#[derive(Drop)]
pub struct Bytes {
    buffer: Buffer,
    live: bool,
}

impl Model for Bytes {
    ghost use Rattle.cx_codec.specs.Place.{Buffered};

    ghost Value = { Buffered };

    ghost view = { λ b. record { ready = b.buffer.ahead; at = b.buffer.at; limit = b.buffer.limit; live = b.live } };
}

impl Bytes {
    /// A reader at offset 0 of an input, with the limit 2^60. `NoMemory` comes where its buffer is refused.
    pub fn new(alloc: Global) -> Result<Bytes, NoMemory>
        ensures { IfOk result (λ b. b ≡ record { ready = []; at = 0; limit = 2 ^ 60; live = true }) }
    {
        Ok(Bytes {
            buffer: Buffer::new(alloc, WIDEST)?,
            live: true,
        })
    }

    /// Whether it goes on: it does until a call is refused.
    pub fn live(&self) -> bool
        ensures { result ≡ self.now.live }
    {
        self.live
    }

    /// The offset here: how many bytes were taken since the start.
    pub fn at(&self) -> u64
        ensures at { result ≡ self.now.at }
        ensures within { result ≤ self.now.limit }
    {
        self.buffer.at()
    }

    /// The offset that no field may pass.
    pub fn limit(&self) -> u64
        ensures limit { result ≡ self.now.limit }
        ensures within { self.now.at ≤ result }
    {
        self.buffer.limit()
    }

    /// Sets the offset that no field may pass from now on, which is here or further on.
    pub fn set_limit(&mut self, limit: u64)
        requires { self.old.at ≤ limit }
        ensures { self.new ≡ record self.old { limit = limit } }
    {
        self.buffer.set_limit(limit);
    }

    /// Ends the reading: a field that was read whole breaks a rule of its format.
    pub fn refuse(&mut self)
        requires { IsTrue self.old.live }
        ensures { self.new ≡ record self.old { live = false } }
    {
        self.live = false;
    }

    /// Takes as many bytes as `into` holds. `Bad` comes exactly where they aren't all there: at the input's length
    /// where it ends before them, and at the limit where the byte there is needed. `ReadFault` comes only where the
    /// source's count of faults rose.
    pub fn take<S: Source>(&mut self, into: &mut [u8], source: &mut S) -> Result<(), BytesFault>
        requires { IsTrue self.old.live }
        ensures reads { IsSome (S.left source.old) → Reads bytes_met (always into.new) (bytes_at (length into.old))
            (over self.old (S.left source.old) (S.given source.old))
            (over self.new (S.left source.new) (S.given source.new)) result }
        ensures asks { Asks bytes_met (always into.new) (bytes_at (length into.old)) self.old self.new
            (source.new ≡ source.old) result }
        ensures goes { Goes BytesFault.ReadFault self.old self.new (S.faults source.old) (S.faults source.new) result }
        ensures at { OnOk result (self.new.at ≡ self.old.at + length into.old) }
    {
        match self.buffer.copy(into, source) {
            Ok(count) if count == into.len() => Ok(()),
            Ok(_) => {
                self.live = false;
                Err(BytesFault::Bad(self.buffer.at()))
            }
            Err(_) => {
                self.live = false;
                Err(BytesFault::ReadFault)
            }
        }
    }

    /// Reads a byte. `Bad` comes exactly where there is none: at the input's length, or at the limit. `ReadFault` comes
    /// only where the source's count of faults rose.
    pub fn byte<S: Source>(&mut self, source: &mut S) -> Result<u8, BytesFault>
        requires { IsTrue self.old.live }
        ensures reads { IsSome (S.left source.old) → Reads bytes_met (λ b. b) byte_at
            (over self.old (S.left source.old) (S.given source.old))
            (over self.new (S.left source.new) (S.given source.new)) result }
        ensures asks { Asks bytes_met (λ b. b) byte_at self.old self.new (source.new ≡ source.old) result }
        ensures goes { Goes BytesFault.ReadFault self.old self.new (S.faults source.old) (S.faults source.new) result }
        ensures at { OnOk result (self.new.at ≡ self.old.at + 1) }
    {
        let mut field = [0u8; 1];
        self.take(&mut field, source)?;
        Ok(field[0])
    }

    /// Reads a word: four bytes, the low one first. `Bad` comes exactly where they aren't all there: at the input's
    /// length, or at the limit. `ReadFault` comes only where the source's count of faults rose.
    pub fn word<S: Source>(&mut self, source: &mut S) -> Result<u32, BytesFault>
        requires { IsTrue self.old.live }
        ensures reads { IsSome (S.left source.old) → Reads bytes_met (λ w. w) word_at
            (over self.old (S.left source.old) (S.given source.old))
            (over self.new (S.left source.new) (S.given source.new)) result }
        ensures asks { Asks bytes_met (λ w. w) word_at self.old self.new (source.new ≡ source.old) result }
        ensures goes { Goes BytesFault.ReadFault self.old self.new (S.faults source.old) (S.faults source.new) result }
        ensures at { OnOk result (self.new.at ≡ self.old.at + 4) }
    {
        let mut field = [0u8; 4];
        self.take(&mut field, source)?;
        Ok(u32::from_le_bytes(field))
    }

    /// Reads a varint: seven bits a byte, the low ones first, and bit 7 set on every byte but the last, which is 0 only
    /// where it is the single one; at most ten bytes, for a number below 2^64. `Bad` comes exactly where it isn't
    /// whole, at the input's length or at the limit, or breaks its rule, at its first byte; it is judged once it is
    /// whole. `ReadFault` comes only where the source's count of faults rose.
    pub fn varint<S: Source>(&mut self, source: &mut S) -> Result<u64, BytesFault>
        requires { IsTrue self.old.live }
        ensures reads { IsSome (S.left source.old) → Reads bytes_met (λ n. n) varint_at
            (over self.old (S.left source.old) (S.given source.old))
            (over self.new (S.left source.new) (S.given source.new)) result }
        ensures asks { Asks bytes_met (λ n. n) varint_at self.old self.new (source.new ≡ source.old) result }
        ensures goes { Goes BytesFault.ReadFault self.old self.new (S.faults source.old) (S.faults source.new) result }
        ensures at { OnOk result (self.old.at < self.new.at) }
    {
        let start = self.at();
        let mut field = [0u8; varint::LONGEST];
        let count = self.collect(&mut field, source)?;
        match varint::decoded(&field[..count]) {
            Some(value) => Ok(value),
            None => {
                self.live = false;
                Err(BytesFault::Bad(start))
            }
        }
    }

    // Takes the bytes up to and with the first below 128, ten at most, and answers how many.
    fn collect<S: Source>(&mut self, field: &mut [u8], source: &mut S) -> Result<usize, BytesFault>
        requires live { IsTrue self.old.live }
        requires whole { length field.old ≡ 10 }
        ensures reads { IsSome (S.left source.old) → Reads bytes_met (front_of field.new) varint_bytes_at
            (over self.old (S.left source.old) (S.given source.old))
            (over self.new (S.left source.new) (S.given source.new)) result }
        ensures asks { Asks bytes_met (front_of field.new) varint_bytes_at self.old self.new
            (source.new ≡ source.old) result }
        ensures goes { Goes BytesFault.ReadFault self.old self.new (S.faults source.old) (S.faults source.new) result }
        ensures count { IfOk result (λ n. (0 < n) × (n ≤ 10)) }
        ensures at { IfOk result (λ n. self.new.at ≡ self.old.at + n) }
    {
        let _ = self.at();
        for count in 0..varint::LONGEST {
            let byte = self.byte(source)?;
            field[count] = byte;
            if byte < 128 {
                return Ok(count + 1);
            }
        }
        Ok(varint::LONGEST)
    }

    /// Whether the input ends here: the source has nothing left then. No byte is taken, and the source is asked only
    /// where none waits. `Bad` comes exactly where a byte stands at the limit, and tells that offset. `ReadFault` comes
    /// only where the source's count of faults rose.
    pub fn at_end<S: Source>(&mut self, source: &mut S) -> Result<bool, BytesFault>
        requires { IsTrue self.old.live }
        ensures ends { IsSome (S.left source.old) → Ends bytes_met (λ b. b) true end_at
            (over self.old (S.left source.old) (S.given source.old))
            (over self.new (S.left source.new) (S.given source.new)) result }
        ensures spent { IsSome (S.left source.old)
            → IfOk result (λ last. OnTrue last (unwrap_or (S.left source.new) [] ≡ [])) }
        ensures asks { 0 < length self.old.ready → source.new ≡ source.old }
        ensures goes { Goes BytesFault.ReadFault self.old self.new (S.faults source.old) (S.faults source.new) result }
        ensures at { self.new.at ≡ self.old.at }
    {
        match self.buffer.refill(source) {
            Ok(false) => Ok(true),
            Ok(true) => {
                if self.buffer.is_full() {
                    self.live = false;
                    return Err(BytesFault::Bad(self.at()));
                }
                Ok(false)
            }
            Err(_) => {
                self.live = false;
                Err(BytesFault::ReadFault)
            }
        }
    }
}
