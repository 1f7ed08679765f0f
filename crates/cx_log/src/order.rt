//! What the records so far leave for the next one.

ghost use Rattle.std.specs.Prelude.{◌≡◌, ◌≢◌, ◌+◌, ◌<◌, ◌≤◌, ◌^◌, List, ℕ};
ghost use Rattle.std.specs.Prelude.{◌↔◌, IsTrue, length};
ghost use Rattle.cx_log.specs.Item.{HoldsItem, IsDma, MayStand, behind_entry, entry_of};
ghost use Rattle.cx_log.specs.Order.{at_start, next_mark};
ghost use Rattle.cx_log.specs.Records.{goes_on, may_stand};

use crate::fields::is_change;
use crate::item::{Item, What};
use crate::kind::Kind;
use crate::limits::{MARK_DISTANCE, STEP_LIMIT};
use cx_csr::{Lines, State};
use cx_map::{MOST_PAGES, PAGE_SIZE, is_in_ram};
use cx_ram::are_bytes;

/// What the records so far leave: the last record's step, or base; the least rank that may stand at it; the step of the
/// next mark; the interrupt lines that stand.
#[derive(Clone, Copy, Debug, PartialEq, Eq)]
pub struct Behind {
    /// The step of the last record, or base.
    pub step: u64,
    /// The least rank of a record that may stand at that step too.
    pub least: u8,
    /// The step at which the next mark has to stand.
    pub mark: u64,
    /// The interrupt lines that stand.
    pub lines: Lines,
}

// Whether a device may write these bytes to RAM of so many pages, from a place on.
fn is_transfer(pages: u32, place: u32, bytes: &[u8]) -> bool
    requires { pages ≤ MOST_PAGES }
    ensures { IsTrue result ↔ IsDma pages bytes.now place }
{
    are_bytes(bytes);
    let size = pages as usize * PAGE_SIZE;
    !bytes.is_empty() && bytes.len() <= PAGE_SIZE && is_in_ram(size, place, bytes.len() as u32)
}

// Every value of 32 bits is one.
fn is_word(_value: u32) -> bool
    ensures { IsTrue result ↔ (_value < 2 ^ 32) }
{
    true
}

impl Behind {
    /// Before the first record.
    pub fn at_start(base: u64, start: &State) -> Behind
        requires { base < STEP_LIMIT }
        ensures { result ≡ at_start base start.now }
    {
        Behind {
            step: base,
            least: 0,
            mark: (base / MARK_DISTANCE + 1) * MARK_DISTANCE,
            lines: start.lines,
        }
    }

    /// Whether a record of this kind may stand at a step.
    pub fn may_stand(&self, kind: Kind, step: u64) -> bool
        ensures { result ≡ may_stand self.now kind step }
    {
        match kind {
            Kind::Mark => step < STEP_LIMIT && self.goes_on(kind, step) && step == self.mark,
            Kind::End => step <= STEP_LIMIT && self.step < step && step <= self.mark,
            Kind::Dma | Kind::Lines | Kind::Value => {
                step < STEP_LIMIT && self.goes_on(kind, step) && step < self.mark
            }
        }
    }

    // Whether a record other than End goes on from the last one: at a later step, or at the same one in order.
    fn goes_on(&self, kind: Kind, step: u64) -> bool
        requires { kind ≢ Kind.End }
        ensures { result ≡ goes_on self.now step kind }
    {
        self.step < step || (self.step == step && self.least <= kind.rank())
    }

    /// Whether an item may stand behind the records so far, in a recording with so many pages of RAM. A Dma has these
    /// bytes.
    #[tactic(auto, using(crate::proofs::Following::stands, crate::proofs::Following::stood))]
    pub fn may_follow(&self, pages: u32, item: &Item, bytes: &[u8]) -> bool
        requires { pages ≤ MOST_PAGES }
        ensures { IsTrue result ↔ MayStand pages self.now (entry_of bytes.now item.now) }
    {
        self.may_stand(item.what.kind(), item.step) && self.may_hold(pages, &item.what, bytes)
    }

    // Whether an item may hold this.
    #[tactic(auto, using(crate::proofs::Following::other_lines, crate::proofs::Following::other_bits))]
    fn may_hold(&self, pages: u32, what: &What, bytes: &[u8]) -> bool
        requires { pages ≤ MOST_PAGES }
        ensures { IsTrue result ↔ HoldsItem pages self.now.lines bytes.now what.now }
    {
        match *what {
            What::Dma(place) => is_transfer(pages, place, bytes),
            What::Lines(lines) => is_change(lines.0, self.lines),
            What::Value(value) => is_word(value),
            What::Mark | What::End => true,
        }
    }

    /// What an item leaves.
    pub fn after(&self, item: &Item) -> Behind
        requires { self.now.mark < 2 ^ 63 }
        ensures { (bytes : List ℕ) → result ≡ behind_entry self.now (entry_of bytes item.now) }
    {
        let (least, mark, lines) = match item.what {
            What::Mark => (1, self.mark + MARK_DISTANCE, self.lines),
            What::Dma(_) => (1, self.mark, self.lines),
            What::Lines(lines) => (3, self.mark, lines),
            What::Value(_) => (4, self.mark, self.lines),
            What::End => return *self,
        };
        Behind {
            step: item.step,
            least,
            mark,
            lines,
        }
    }
}
