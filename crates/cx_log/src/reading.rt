//! Reading what stands before the records, field by field.

ghost use Rattle.std.specs.Prelude.{◌≡◌, ◌+◌, ◌-◌, ◌<◌, ◌≤◌, ◌^◌, [], false, length, unwrap_or, IfOk, OnOk, IsSome, IsTrue};
ghost use Rattle.cx_codec.specs.Reads.{Ends, Goes, Reads, always, over};
ghost use Rattle.cx_csr.specs.Rules.{AllFit};
ghost use Rattle.cx_ram.specs.PhysicalMemory.{is_zero};
ghost use Rattle.cx_log.specs.Engine.{begun_by, page_with};
ghost use Rattle.cx_log.specs.Fault.{log_met};
ghost use Rattle.cx_log.specs.Order.{IsAnnounced, IsHeader};
ghost use Rattle.cx_log.specs.Reading.{announced_at, second_version_at, state_words_at, header_at, page_bytes_at};
ghost use Rattle.cx_log.specs.Reading.{page_at};
ghost use Rattle.cx_codec.specs.Checks.{close_at};

use crate::fault::LogFault;
use crate::fields::{flag, state_word, varint_between};
use crate::header::Header;
use crate::limits::{MOST_TEXT, STEP_LIMIT};
use cx_codec::Bytes;
use cx_csr::State;
use cx_io::Source;
use cx_map::{MOST_PAGES, PAGE_SIZE};
use cx_ram::is_all_zero;

/// What the first fields behind the magic announce.
#[derive(Clone, Copy, Debug, PartialEq, Eq)]
pub struct Announced {
    /// The version of the format: 1 or 2.
    pub version: u8,
    /// The flag of the hart.
    pub split: bool,
    /// How many pages the RAM has.
    pub pages: u32,
}

// What stands behind a number of pages of 0.
fn second_version<S: Source>(bytes: &mut Bytes, source: &mut S) -> Result<Announced, LogFault>
    requires { IsTrue bytes.old.live }
    ensures reads { IsSome (S.left source.old) → Reads log_met (λ a. a) second_version_at
        (over bytes.old (S.left source.old) (S.given source.old))
        (over bytes.new (S.left source.new) (S.given source.new)) result }
    ensures goes { Goes LogFault.ReadFault bytes.old bytes.new (S.faults source.old) (S.faults source.new) result }
    ensures rules { IfOk result IsAnnounced }
{
    let flag_byte = flag(bytes, source)?;
    let pages = varint_between(bytes, 1, MOST_PAGES as u64, source)? as u32;
    Ok(Announced {
        version: 2,
        split: flag_byte == 1,
        pages,
    })
}

/// The version, the flag and the number of pages.
pub(crate) fn announcement<S: Source>(
    bytes: &mut Bytes,
    source: &mut S,
) -> Result<Announced, LogFault>
    requires { IsTrue bytes.old.live }
    ensures reads { IsSome (S.left source.old) → Reads log_met (λ a. a) announced_at
        (over bytes.old (S.left source.old) (S.given source.old))
        (over bytes.new (S.left source.new) (S.given source.new)) result }
    ensures goes { Goes LogFault.ReadFault bytes.old bytes.new (S.faults source.old) (S.faults source.new) result }
    ensures rules { IfOk result IsAnnounced }
{
    let pages = varint_between(bytes, 0, MOST_PAGES as u64, source)? as u32;
    if pages == 0 {
        return second_version(bytes, source);
    }
    Ok(Announced {
        version: 1,
        split: false,
        pages,
    })
}

/// The words of a state for RAM of so many pages, each judged as it is read.
pub(crate) fn state_words<S: Source>(
    bytes: &mut Bytes,
    pages: u32,
    source: &mut S,
) -> Result<[u32; 58], LogFault>
    requires { IsTrue bytes.old.live }
    ensures reads { IsSome (S.left source.old) → Reads log_met (λ words. words) (state_words_at pages)
        (over bytes.old (S.left source.old) (S.given source.old))
        (over bytes.new (S.left source.new) (S.given source.new)) result }
    ensures goes { Goes LogFault.ReadFault bytes.old bytes.new (S.faults source.old) (S.faults source.new) result }
    ensures fit { IfOk result (AllFit pages) }
{
    let mut words = [0u32; 58];
    let mut before = 0;
    let _ = bytes.at();
    for index in 0..58u8 {
        let word = state_word(bytes, index, before, pages, source)?;
        words[index as usize] = word;
        before = word;
    }
    Ok(words)
}

/// The header behind the magic.
pub(crate) fn header<S: Source>(bytes: &mut Bytes, source: &mut S) -> Result<Header, LogFault>
    requires { IsTrue bytes.old.live }
    ensures reads { IsSome (S.left source.old) → Reads log_met (λ h. h) header_at
        (over bytes.old (S.left source.old) (S.given source.old))
        (over bytes.new (S.left source.new) (S.given source.new)) result }
    ensures goes { Goes LogFault.ReadFault bytes.old bytes.new (S.faults source.old) (S.faults source.new) result }
    ensures rules { IfOk result IsHeader }
{
    let announced = announcement(bytes, source)?;
    let base = varint_between(bytes, 0, STEP_LIMIT - 1, source)?;
    let words = state_words(bytes, announced.pages, source)?;
    let start = State::from_fitting_words(&words, announced.pages);
    let count = varint_between(bytes, 0, announced.pages as u64, source)? as u32;
    Ok(Header {
        version: announced.version,
        split: announced.split,
        pages: announced.pages,
        base,
        start,
        count,
    })
}

// The bytes of a page, which aren't all zero.
fn page_bytes<S: Source>(bytes: &mut Bytes, into: &mut [u8], source: &mut S) -> Result<(), LogFault>
    requires live { IsTrue bytes.old.live }
    requires size { length into.old ≡ PAGE_SIZE }
    ensures reads { IsSome (S.left source.old) → Reads log_met (always into.new) page_bytes_at
        (over bytes.old (S.left source.old) (S.given source.old))
        (over bytes.new (S.left source.new) (S.given source.new)) result }
    ensures goes { Goes LogFault.ReadFault bytes.old bytes.new (S.faults source.old) (S.faults source.new) result }
    ensures some { OnOk result (is_zero into.new ≡ false) }
    ensures at { OnOk result (bytes.old.at < bytes.new.at) }
{
    let start = bytes.at();
    bytes.take(into, source)?;
    if is_all_zero(into) {
        bytes.refuse();
        return Err(LogFault::Format(start));
    }
    Ok(())
}

/// A page of RAM of so many pages: its bytes into `into`, and its number, which is `least` or above. `Format` comes
/// exactly where its number isn't so or isn't below the number of pages, where its bytes are all zero, and where the
/// input ends inside it. `ReadFault` comes only where the source's count of faults rose.
pub fn page<S: Source>(
    bytes: &mut Bytes,
    pages: u32,
    least: u32,
    into: &mut [u8],
    source: &mut S,
) -> Result<u32, LogFault>
    requires live { IsTrue bytes.old.live }
    requires pages { 1 ≤ pages }
    requires size { length into.old ≡ PAGE_SIZE }
    ensures reads { IsSome (S.left source.old) → Reads log_met (page_with into.new) (page_at pages least)
        (over bytes.old (S.left source.old) (S.given source.old))
        (over bytes.new (S.left source.new) (S.given source.new)) result }
    ensures goes { Goes LogFault.ReadFault bytes.old bytes.new (S.faults source.old) (S.faults source.new) result }
    ensures within { IfOk result (λ n. (least ≤ n) × (n < pages)) }
    ensures some { OnOk result (is_zero into.new ≡ false) }
    ensures at { OnOk result (bytes.old.at < bytes.new.at) }
{
    let number = varint_between(bytes, least as u64, pages as u64 - 1, source)? as u32;
    page_bytes(bytes, into, source)?;
    Ok(number)
}

/// Sees that nothing follows: the source has nothing left then. `Format` comes exactly where a byte does, and tells its
/// offset. `ReadFault` comes only where the source's count of faults rose.
pub fn close<S: Source>(bytes: &mut Bytes, source: &mut S) -> Result<(), LogFault>
    requires { IsTrue bytes.old.live }
    ensures ends { IsSome (S.left source.old) → Ends log_met (always tt) tt close_at
        (over bytes.old (S.left source.old) (S.given source.old))
        (over bytes.new (S.left source.new) (S.given source.new)) result }
    ensures spent { IsSome (S.left source.old) → OnOk result (unwrap_or (S.left source.new) [] ≡ []) }
    ensures goes { Goes LogFault.ReadFault bytes.old bytes.new (S.faults source.old) (S.faults source.new) result }
{
    let start = bytes.at();
    if bytes.at_end(source)? {
        return Ok(());
    }
    bytes.refuse();
    Err(LogFault::Format(start))
}

/// Where no page is left, the records begin: they have a limit of their own from here on.
pub(crate) fn begin_behind(bytes: &mut Bytes, left: u32)
    ensures { bytes.new ≡ begun_by left bytes.old }
{
    if left == 0 {
        let limit = bytes.limit().min(bytes.at().saturating_add(MOST_TEXT));
        bytes.set_limit(limit);
    }
}
