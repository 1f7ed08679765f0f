//! Bytes of a program, read from a shadow.

ghost use Rattle.std.specs.Prelude.{◌≡◌, ◌+◌, IfSome};
ghost use Rattle.std.specs.Option.{option_map};
ghost use Rattle.cx_exec.specs.Arithmetic.{wrapped};
ghost use Rattle.cx_hart.specs.Touches.{padded};
ghost use Rattle.cx_observe.specs.Asked.{read_of};
ghost use Rattle.cx_observe.specs.Seeing.{seen_with};
ghost use Rattle.cx_observe.specs.Stepping.{bytes_given, only_byte, read_given};
ghost use Rattle.cx_ram.specs.PhysicalMemory.{IsAccessLength};
ghost use Rattle.cx_shadow.specs.Cells.{byte_of};

use cx_exec::Ask;
use cx_observe::Seen;
use cx_shadow::Shadow;

// The byte that stands so far behind an address, where one is known.
#[inline]
fn byte_behind(shadow: &Shadow, va: u32, distance: u32) -> Option<u8>
    ensures { result ≡ only_byte (byte_of shadow.now (wrapped (va + distance))) }
{
    match shadow.get(va.wrapping_add(distance)) {
        None => None,
        Some(byte) => Some(byte),
    }
}

/// The four bytes from an address on, where all of them are known.
#[inline]
pub(crate) fn four_at(shadow: &Shadow, va: u32) -> Option<[u8; 4]>
    ensures { result ≡ bytes_given (byte_of shadow.now) va 4 }
{
    let first = byte_behind(shadow, va, 0)?;
    let second = byte_behind(shadow, va, 1)?;
    let third = byte_behind(shadow, va, 2)?;
    let fourth = byte_behind(shadow, va, 3)?;
    Some([first, second, third, fourth])
}

// One byte, and zeros past it.
#[inline]
fn one_at(shadow: &Shadow, va: u32) -> Option<[u8; 4]>
    ensures { result ≡ option_map (padded 4) (bytes_given (byte_of shadow.now) va 1) }
{
    let first = byte_behind(shadow, va, 0)?;
    Some([first, 0, 0, 0])
}

// Two bytes.
#[inline]
fn two_at(shadow: &Shadow, va: u32) -> Option<[u8; 4]>
    ensures { result ≡ option_map (padded 4) (bytes_given (byte_of shadow.now) va 2) }
{
    let first = byte_behind(shadow, va, 0)?;
    let second = byte_behind(shadow, va, 1)?;
    Some([first, second, 0, 0])
}

// Three bytes.
#[inline]
fn three_at(shadow: &Shadow, va: u32) -> Option<[u8; 4]>
    ensures { result ≡ option_map (padded 4) (bytes_given (byte_of shadow.now) va 3) }
{
    let first = byte_behind(shadow, va, 0)?;
    let second = byte_behind(shadow, va, 1)?;
    let third = byte_behind(shadow, va, 2)?;
    Some([first, second, third, 0])
}

// So many bytes from an address on, where all of them are known, and zeros past them.
fn bytes_at(shadow: &Shadow, va: u32, len: u8) -> Option<[u8; 4]>
    requires { IsAccessLength len }
    ensures { result ≡ option_map (padded 4) (bytes_given (byte_of shadow.now) va len) }
{
    match len {
        1 => one_at(shadow, va),
        2 => two_at(shadow, va),
        3 => three_at(shadow, va),
        _ => four_at(shadow, va),
    }
}

// The same as an access.
fn seen_at(shadow: &Shadow, va: u32, len: u8) -> Option<Seen>
    requires { IsAccessLength len }
    ensures { result ≡ option_map (seen_with va) (bytes_given (byte_of shadow.now) va len) }
{
    let bytes = bytes_at(shadow, va, len)?;
    Some(Seen { va, len, bytes })
}

/// What is read, where something is asked for and all of it is known.
pub(crate) fn read_by(shadow: &Shadow, ask: Ask) -> Option<Option<Seen>>
    requires { IfSome (read_of ask) (λ p. IsAccessLength p.len) }
    ensures { result ≡ read_given (byte_of shadow.now) (read_of ask) }
{
    let (va, len) = match ask {
        Ask::Load { va, len } => (va, len),
        Ask::Reserve { va } | Ask::Amo { va } => (va, 4),
        _ => return Some(None),
    };
    Some(Some(seen_at(shadow, va, len)?))
}
