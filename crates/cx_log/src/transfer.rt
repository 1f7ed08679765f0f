//! The bytes of a Dma.

ghost use Rattle.std.specs.Prelude.{◌≡◌, ◌+◌, ◌<◌, ◌≤◌, length, take, IfOk, OnOk, IsSome, IsTrue};
ghost use Rattle.cx_map.specs.Bytes.{AreBytes};
ghost use Rattle.cx_codec.specs.Fields.{bytes_at};
ghost use Rattle.cx_codec.specs.Reads.{Goes, Reads, always, over};
ghost use Rattle.cx_log.specs.Fault.{log_met};

use crate::fault::LogFault;
use cx_codec::Bytes;
use cx_io::{NoMemory, Source};
use cx_map::PAGE_SIZE;
use cx_ram::are_bytes;
use std::alloc::Global;
use std::marker::Model;

/// Room for the bytes of one Dma, seen as those that were read last.
#[derive(Drop)]
pub(crate) struct TransferBytes {
    buffer: Vec<u8>,
    size: usize,
}

impl Model for TransferBytes {
    ghost use Rattle.std.specs.Prelude.{◌≡◌, ◌≤◌, List, ℕ, length, take};
    ghost use Rattle.cx_map.specs.declared.TheConstants.{PAGE_SIZE};

    ghost Value = { List ℕ };

    ghost view = { λ t. take t.size t.buffer.items };

    ghost invariant = { λ t. (length t.buffer.items ≡ PAGE_SIZE) × (t.size ≤ PAGE_SIZE) };
}

impl TransferBytes {
    /// Room, and no bytes yet.
    pub(crate) fn new(alloc: Global) -> Result<TransferBytes, NoMemory> {
        match vec![in alloc; 0u8; PAGE_SIZE] {
            Ok(buffer) => Ok(TransferBytes { buffer, size: 0 }),
            Err(_) => Err(NoMemory),
        }
    }

    /// The bytes that were read last.
    pub(crate) fn bytes(&self) -> &[u8]
        ensures value { result.now ≡ self.now }
        ensures bytes { AreBytes self.now }
    {
        let bytes = &self.buffer[..self.size];
        are_bytes(bytes);
        bytes
    }

    /// Reads so many bytes.
    pub(crate) fn read<S: Source>(
        &mut self,
        bytes: &mut Bytes,
        size: usize,
        source: &mut S,
    ) -> Result<(), LogFault>
        requires live { IsTrue bytes.old.live }
        requires size { size ≤ PAGE_SIZE }
        ensures reads { IsSome (S.left source.old) → Reads log_met (always self.new) (bytes_at size)
            (over bytes.old (S.left source.old) (S.given source.old))
            (over bytes.new (S.left source.new) (S.given source.new)) result }
        ensures goes { Goes LogFault.ReadFault bytes.old bytes.new (S.faults source.old) (S.faults source.new) result }
        ensures at { OnOk result (bytes.new.at ≡ bytes.old.at + size) }
        ensures count { OnOk result (length self.new ≡ size) }
    {
        read_front(bytes, &mut self.buffer, size, source)?;
        self.size = size;
        Ok(())
    }
}

// Reads so many bytes to the front of a buffer.
fn read_front<S: Source>(
    bytes: &mut Bytes,
    buffer: &mut [u8],
    size: usize,
    source: &mut S,
) -> Result<(), LogFault>
    requires live { IsTrue bytes.old.live }
    requires size { size ≤ length buffer.old }
    ensures reads { IsSome (S.left source.old) → Reads log_met (always (take size buffer.new)) (bytes_at size)
        (over bytes.old (S.left source.old) (S.given source.old))
        (over bytes.new (S.left source.new) (S.given source.new)) result }
    ensures goes { Goes LogFault.ReadFault bytes.old bytes.new (S.faults source.old) (S.faults source.new) result }
    ensures at { OnOk result (bytes.new.at ≡ bytes.old.at + size) }
{
    bytes.take(&mut buffer[..size], source)?;
    Ok(())
}
