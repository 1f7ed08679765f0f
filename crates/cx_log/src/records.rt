//! Reading a record, field by field, behind the records before it.

ghost use Rattle.std.specs.Prelude.{◌≡◌, ◌≢◌, ◌+◌, ◌<◌, ◌≤◌, true, IfOk, OnOk, IsSome, IsTrue};
ghost use Rattle.cx_codec.specs.Reads.{Goes, Reads, over};
ghost use Rattle.cx_machine.specs.Due.{AreLines};
ghost use Rattle.cx_log.specs.Fault.{log_met};
ghost use Rattle.cx_log.specs.Item.{HoldsItem, IsDma, dma_event, entry_with, kind_of_what, lines_event, value_event};
ghost use Rattle.cx_log.specs.Records.{asked_value_at, dma_at, entry_at, kind_at, lines_at, may_stand, step_at};

use crate::fault::LogFault;
use crate::fields::{distance, lines_word, ram_place, tag, varint_between};
use crate::item::What;
use crate::kind::Kind;
use crate::limits::STEP_LIMIT;
use crate::order::Behind;
use crate::transfer::TransferBytes;
use cx_codec::Bytes;
use cx_csr::Lines;
use cx_io::Source;
use cx_map::{MOST_PAGES, PAGE_SIZE, RAM_START};

/// The kind of the next record, by its tag.
pub(crate) fn kind<S: Source>(bytes: &mut Bytes, source: &mut S) -> Result<Kind, LogFault>
    requires { IsTrue bytes.old.live }
    ensures reads { IsSome (S.left source.old) → Reads log_met (λ k. k) kind_at
        (over bytes.old (S.left source.old) (S.given source.old))
        (over bytes.new (S.left source.new) (S.given source.new)) result }
    ensures goes { Goes LogFault.ReadFault bytes.old bytes.new (S.faults source.old) (S.faults source.new) result }
    ensures at { OnOk result (bytes.old.at < bytes.new.at) }
{
    let tag = tag(bytes, source)?;
    Ok(Kind::from_tag(tag))
}

/// Its step.
pub(crate) fn step<S: Source>(
    bytes: &mut Bytes,
    behind: &Behind,
    kind: Kind,
    source: &mut S,
) -> Result<u64, LogFault>
    requires live { IsTrue bytes.old.live }
    requires small { behind.now.step ≤ STEP_LIMIT }
    ensures reads { IsSome (S.left source.old) → Reads log_met (λ step. step) (step_at behind.now kind)
        (over bytes.old (S.left source.old) (S.given source.old))
        (over bytes.new (S.left source.new) (S.given source.new)) result }
    ensures goes { Goes LogFault.ReadFault bytes.old bytes.new (S.faults source.old) (S.faults source.new) result }
    ensures at { OnOk result (bytes.old.at < bytes.new.at) }
    ensures stands { IfOk result (λ step. may_stand behind.now kind step ≡ true) }
{
    let distance = distance(bytes, behind, kind, source)?;
    Ok(behind.step + distance)
}

// The place of a Dma; its bytes are kept beside.
fn dma<S: Source>(
    bytes: &mut Bytes,
    pages: u32,
    transfer: &mut TransferBytes,
    source: &mut S,
) -> Result<u32, LogFault>
    requires live { IsTrue bytes.old.live }
    requires pages { pages ≤ MOST_PAGES }
    ensures reads { IsSome (S.left source.old) → Reads log_met (dma_event transfer.new) (dma_at pages)
        (over bytes.old (S.left source.old) (S.given source.old))
        (over bytes.new (S.left source.new) (S.given source.new)) result }
    ensures goes { Goes LogFault.ReadFault bytes.old bytes.new (S.faults source.old) (S.faults source.new) result }
    ensures at { OnOk result (bytes.old.at < bytes.new.at) }
    ensures holds { IfOk result (IsDma pages transfer.new) }
{
    let place = ram_place(bytes, pages, source)?;
    let room = RAM_START as u64 + pages as u64 * PAGE_SIZE as u64 - place as u64;
    let most = (PAGE_SIZE as u64).min(room);
    let size = varint_between(bytes, 1, most, source)? as usize;
    transfer.read(bytes, size, source)?;
    let _ = transfer.bytes();
    Ok(place)
}

// Interrupt lines, which aren't those that stand.
fn lines<S: Source>(bytes: &mut Bytes, standing: Lines, source: &mut S) -> Result<Lines, LogFault>
    requires { IsTrue bytes.old.live }
    ensures reads { IsSome (S.left source.old) → Reads log_met lines_event (lines_at standing)
        (over bytes.old (S.left source.old) (S.given source.old))
        (over bytes.new (S.left source.new) (S.given source.new)) result }
    ensures goes { Goes LogFault.ReadFault bytes.old bytes.new (S.faults source.old) (S.faults source.new) result }
    ensures at { OnOk result (bytes.old.at < bytes.new.at) }
    ensures holds { IfOk result (λ lines. AreLines lines × (lines ≢ standing)) }
{
    let word = lines_word(bytes, standing, source)?;
    Ok(Lines(word))
}

// The value that a step asks for.
fn value<S: Source>(bytes: &mut Bytes, source: &mut S) -> Result<u32, LogFault>
    requires { IsTrue bytes.old.live }
    ensures reads { IsSome (S.left source.old) → Reads log_met value_event asked_value_at
        (over bytes.old (S.left source.old) (S.given source.old))
        (over bytes.new (S.left source.new) (S.given source.new)) result }
    ensures goes { Goes LogFault.ReadFault bytes.old bytes.new (S.faults source.old) (S.faults source.new) result }
    ensures at { OnOk result (bytes.old.at < bytes.new.at) }
{
    let word = bytes.word(source)?;
    Ok(word)
}

/// What a record of a kind holds.
pub(crate) fn what<S: Source>(
    bytes: &mut Bytes,
    pages: u32,
    behind: &Behind,
    step: u64,
    kind: Kind,
    transfer: &mut TransferBytes,
    source: &mut S,
) -> Result<What, LogFault>
    requires live { IsTrue bytes.old.live }
    requires pages { pages ≤ MOST_PAGES }
    ensures reads { IsSome (S.left source.old)
        → Reads log_met (entry_with transfer.new step) (entry_at pages behind.now step kind)
        (over bytes.old (S.left source.old) (S.given source.old))
        (over bytes.new (S.left source.new) (S.given source.new)) result }
    ensures goes { Goes LogFault.ReadFault bytes.old bytes.new (S.faults source.old) (S.faults source.new) result }
    ensures at { OnOk result (bytes.old.at ≤ bytes.new.at) }
    ensures kind { IfOk result (λ what. kind_of_what what ≡ kind) }
    ensures holds { IfOk result (HoldsItem pages behind.now.lines transfer.new) }
{
    let _ = bytes.at();
    match kind {
        Kind::End => Ok(What::End),
        Kind::Mark => Ok(What::Mark),
        Kind::Dma => {
            let place = dma(bytes, pages, transfer, source)?;
            Ok(What::Dma(place))
        }
        Kind::Lines => {
            let lines = lines(bytes, behind.lines, source)?;
            Ok(What::Lines(lines))
        }
        Kind::Value => {
            let value = value(bytes, source)?;
            Ok(What::Value(value))
        }
    }
}
