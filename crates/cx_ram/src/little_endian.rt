//! Numbers and bytes in a slice of bytes. The byte at the lowest index is the least significant one.

ghost use Rattle.std.specs.Prelude.{◌≡◌, ◌+◌, ◌*◌, ◌^◌, ◌<◌, ◌≤◌, length};
ghost use Rattle.cx_map.specs.Bytes.{AreBytes};
ghost use Rattle.cx_ram.specs.LittleEndian.{loaded};
ghost use Rattle.cx_ram.specs.PhysicalMemory.{IsAccessLength, is_zero};

/// Tells that what a slice of bytes holds is below 256.
#[inline(always)]
pub fn are_bytes(memory: &[u8])
    ensures { AreBytes memory.now }
{
    let _ = memory;
}

/// The value of the 1 to 4 bytes from index `at` on.
#[inline(always)]
#[tactic(auto, using(crate::proofs::Loads::loaded_one, crate::proofs::Loads::loaded_two, crate::proofs::Loads::loaded_three, crate::proofs::Loads::loaded_four))]
pub fn load(memory: &[u8], at: usize, len: u8) -> u32
    requires within { at + len ≤ length memory.now }
    requires length { IsAccessLength len }
    ensures value { result ≡ loaded memory.now at len }
    ensures fits { result < 2 ^ (8 * len) }
{
    match len {
        1 => u32::from(memory[at]),
        2 => u32::from(u16::from_le_bytes([memory[at], memory[at + 1]])),
        3 => u32::from_le_bytes([memory[at], memory[at + 1], memory[at + 2], 0]),
        _ => u32::from_le_bytes([memory[at], memory[at + 1], memory[at + 2], memory[at + 3]]),
    }
}

/// Whether all bytes are zero.
pub fn is_all_zero(bytes: &[u8]) -> bool
    ensures { result ≡ is_zero bytes.now }
{
    bytes.iter().all(|b| *b == 0)
}
