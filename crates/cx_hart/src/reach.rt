//! Where the bytes of an access stand.

ghost use Rattle.std.specs.Prelude.{◌≡◌, ◌+◌, ◌-◌, ◌%◌, ◌<◌, ◌≤◌, ◌⊎◌};
ghost use Rattle.cx_hart.specs.Looks.{Learns};
ghost use Rattle.cx_hart.specs.Reaching.{first_length, is_plain, kind_of, misaligned_cause, reached, reached_part};
ghost use Rattle.cx_hart.specs.Reaching.{reached_split, reached_whole};

use crate::fetch::{address_of, translated};
use crate::findings::{Part, Stop, Target};
use crate::here::Here;
use crate::tells::Tells;
use cx_csr::causes::{LOAD_ADDRESS_MISALIGNED, STORE_ADDRESS_MISALIGNED};
use cx_exec::{Access, Need};
use cx_map::PAGE_SIZE;
use cx_walk::{Kind, Place};

/// What is checked for an access.
#[inline]
fn kind_of(access: Access) -> Kind
    ensures { result ≡ kind_of access }
{
    match access {
        Access::Load => Kind::Load,
        Access::Store => Kind::Store,
        Access::Reserve => Kind::Reserve,
        Access::Conditional | Access::Amo => Kind::Atomic,
    }
}

/// The cause of the exception of a misaligned access.
fn misaligned_cause(access: Access) -> u32
    ensures { result ≡ misaligned_cause access }
{
    match access {
        Access::Load | Access::Reserve => LOAD_ADDRESS_MISALIGNED,
        Access::Store | Access::Conditional | Access::Amo => STORE_ADDRESS_MISALIGNED,
    }
}

/// Whether the access is a plain load or store.
fn is_plain(access: Access) -> bool
    ensures { result ≡ is_plain access }
{
    matches!(access, Access::Load | Access::Store)
}

/// Where an aligned access stands.
#[inline]
#[tactic(auto, unfolding(crate::specs::Reaching::reached_whole), using(crate::proofs::Telling::told_append))]
fn reach_whole<R: Tells>(here: &Here, need: Need, rec: &mut R) -> Result<Target, Stop>
    requires length { (need.len ≡ 1) ⊎ (need.len ≡ 2) ⊎ (need.len ≡ 4) }
    requires aligned { need.va % need.len ≡ 0 }
    requires room { 2 ≤ R.room rec.old }
    ensures target { result ≡ (reached_whole here.now need).end }
    ensures told { Learns (R.knows rec.old) (R.knows rec.new) (reached_whole here.now need).looks }
{
    let Need { access, va, len } = need;
    let place = translated(here, kind_of(access), va, len, rec)?;
    Ok(match place {
        Place::Ram(pa) => Target::Memory {
            first: Part { va, pa, len },
            more: None,
        },
        Place::Device(pa) => Target::Device(Part { va, pa, len }),
    })
}

/// Where a part of an access that is split by pages stands.
#[tactic(auto, using(crate::proofs::Telling::told_append))]
fn reach_part<R: Tells>(
    here: &Here,
    need: Need,
    va: u32,
    len: u8,
    rec: &mut R,
) -> Result<Part, Stop>
    requires room { 2 ≤ R.room rec.old }
    ensures part { result ≡ (reached_part here.now need va len).end }
    ensures told { Learns (R.knows rec.old) (R.knows rec.new) (reached_part here.now need va len).looks }
    ensures room { R.room rec.old ≤ R.room rec.new + 2 }
{
    let place = translated(here, kind_of(need.access), va, 1, rec)?;
    Ok(Part {
        va,
        pa: address_of(place),
        len,
    })
}

/// How many bytes of an access lie in its first page.
fn first_length(need: Need) -> u8
    requires { need.len ≤ 4 }
    ensures { result ≡ first_length need }
{
    let left = PAGE_SIZE as u32 - need.va % PAGE_SIZE as u32;
    if left < need.len as u32 {
        left as u8
    } else {
        need.len
    }
}

/// Where an access stands that is split by pages.
#[cold]
#[tactic(auto, unfolding(crate::specs::Reaching::reached_split), using(crate::proofs::Telling::told_append))]
fn reach_split<R: Tells>(here: &Here, need: Need, rec: &mut R) -> Result<Target, Stop>
    requires length { need.len ≤ 4 }
    requires room { 4 ≤ R.room rec.old }
    ensures target { result ≡ (reached_split here.now need).end }
    ensures told { Learns (R.knows rec.old) (R.knows rec.new) (reached_split here.now need).looks }
{
    let length = first_length(need);
    let first = reach_part(here, need, need.va, length, rec)?;
    if length == need.len {
        return Ok(Target::Memory { first, more: None });
    }
    let next = need.va.wrapping_add(length as u32);
    let more = reach_part(here, need, next, need.len - length, rec)?;
    Ok(Target::Memory {
        first,
        more: Some(more),
    })
}

/// Where an access stands, or the trap that it ends in.
#[inline]
#[tactic(auto, unfolding(crate::specs::Reaching::reached))]
pub(crate) fn reached<R: Tells>(here: &Here, need: Need, rec: &mut R) -> Result<Target, Stop>
    requires length { (need.len ≡ 1) ⊎ (need.len ≡ 2) ⊎ (need.len ≡ 4) }
    requires room { 4 ≤ R.room rec.old }
    ensures target { result ≡ (reached here.now need).end }
    ensures told { Learns (R.knows rec.old) (R.knows rec.new) (reached here.now need).looks }
{
    if need.va % need.len as u32 == 0 {
        return reach_whole(here, need, rec);
    }
    if here.split && is_plain(need.access) {
        return reach_split(here, need, rec);
    }
    Err(Stop::Trap {
        cause: misaligned_cause(need.access),
        tval: need.va,
    })
}
