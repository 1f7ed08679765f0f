//! From a virtual address to what stands there, and the fetch of an instruction.

ghost use Rattle.std.specs.Prelude.{◌≡◌, ◌+◌, ◌%◌, ◌≤◌, ◌⊎◌, IfSome, IsTrue, false, true};
ghost use Rattle.cx_walk.specs.Mode.{is_bare};
ghost use Rattle.cx_walk.specs.Walks.{address_of};
ghost use Rattle.cx_hart.specs.Fetch.{IsQuick, fetched, translated, walk_in};
ghost use Rattle.cx_hart.specs.Looks.{Learns};
ghost use Rattle.cx_hart.specs.Stretches.{bare_walk};

use crate::findings::{Part, Stop};
use crate::here::Here;
use crate::tells::Tells;
use crate::touch::{part_value, touch};
use crate::view::{View, walk};
use cx_walk::{Kind, Place, QuickWalk, is_bare, walk_quickly};

/// What stands at a virtual address by a walk, whose entries are told.
#[inline]
#[tactic(auto, unfolding(crate::specs::Fetch::translated), using(crate::proofs::WalkFacts::walk_most))]
fn walked<R: Tells>(here: &Here, kind: Kind, va: u32, len: u8, rec: &mut R) -> Result<Place, Stop>
    requires length { (len ≡ 1) ⊎ (len ≡ 2) ⊎ (len ≡ 4) }
    requires aligned { va % len ≡ 0 }
    requires room { 2 ≤ R.room rec.old }
    ensures place { result ≡ (translated here.now kind va len).end }
    ensures told { Learns (R.knows rec.old) (R.knows rec.new) (translated here.now kind va len).looks }
    ensures room { R.room rec.old ≤ R.room rec.new + 2 }
{
    let walk = walk(here, kind, va, len);
    rec.walk(here.ram, &walk);
    match walk.answer {
        Ok(place) => Ok(place),
        Err(cause) => Err(Stop::Trap { cause, tval: va }),
    }
}

/// Whether all bytes of an access are in RAM that isn't translated: a walk reads no entry then, and gives its address.
#[inline(always)]
#[tactic(auto, using(crate::proofs::BareWalks::bare_walk))]
fn is_direct(here: &Here, kind: Kind, va: u32, len: u8) -> bool
    requires { is_bare here.now.state kind ≡ true }
    ensures { IsTrue result → walk_in here.now kind va len ≡ bare_walk va }
{
    let _ = kind;
    let _ = here.ram.pages();
    here.ram.contains(va, u32::from(len))
}

/// The walk of an access that goes through two entries of user mode to RAM, with nothing in its way.
#[inline(always)]
#[tactic(auto, unfolding(crate::specs::Fetch::walk_in))]
fn quick(here: &Here, kind: Kind, va: u32, len: u8) -> Option<QuickWalk>
    requires length { (len ≡ 1) ⊎ (len ≡ 2) ⊎ (len ≡ 4) }
    requires aligned { va % len ≡ 0 }
    requires translated { is_bare here.now.state kind ≡ false }
    ensures { IfSome result (IsQuick here.now kind va len) }
{
    walk_quickly(&View { ram: here.ram }, here.state, kind, va, len)
}

/// What stands at a virtual address, or the trap that a fault ends in.
#[inline(always)]
#[tactic(auto, using(crate::proofs::BareWalks::bare_place, crate::proofs::BareWalks::bare_told, crate::proofs::QuickTold::quick_place, crate::proofs::QuickTold::quick_looks))]
pub(crate) fn translated<R: Tells>(
    here: &Here,
    kind: Kind,
    va: u32,
    len: u8,
    rec: &mut R,
) -> Result<Place, Stop>
    requires length { (len ≡ 1) ⊎ (len ≡ 2) ⊎ (len ≡ 4) }
    requires aligned { va % len ≡ 0 }
    requires room { 2 ≤ R.room rec.old }
    ensures place { result ≡ (translated here.now kind va len).end }
    ensures told { Learns (R.knows rec.old) (R.knows rec.new) (translated here.now kind va len).looks }
    ensures room { R.room rec.old ≤ R.room rec.new + 2 }
{
    if is_bare(here.state, kind) {
        if is_direct(here, kind, va, len) {
            return Ok(Place::Ram(va));
        }
    } else if let Some(quick) = quick(here, kind, va, len) {
        rec.quick_walk(&quick);
        return Ok(Place::Ram(quick.place));
    }
    walked(here, kind, va, len, rec)
}

/// The word of the instruction at pc, or the trap that its fetch ends in.
#[inline]
#[tactic(auto, unfolding(crate::specs::Fetch::fetched), using(crate::proofs::Telling::told_append))]
pub(crate) fn fetched<R: Tells>(here: &Here, rec: &mut R) -> Result<u32, Stop>
    requires aligned { here.now.state.pc % 4 ≡ 0 }
    requires room { 2 ≤ R.room rec.old }
    ensures word { result ≡ (fetched here.now).end }
    ensures told { Learns (R.knows rec.old) (R.knows rec.new) (fetched here.now).looks }
    ensures room { R.room rec.old ≤ R.room rec.new + 2 }
{
    let place = translated(here, Kind::Fetch, here.state.pc, 4, rec)?;
    let part = Part {
        va: here.state.pc,
        pa: address_of(place),
        len: 4,
    };
    let word = part_value(here.ram, part);
    rec.word(touch(part, word));
    Ok(word)
}

/// The physical address at which a place stands.
#[inline]
pub(crate) fn address_of(place: Place) -> u32
    ensures { result ≡ address_of place }
{
    match place {
        Place::Ram(pa) | Place::Device(pa) => pa,
    }
}
