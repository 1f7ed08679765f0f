//! A step of a program that runs alone.

ghost use Rattle.std.specs.Prelude.{◌≡◌, [], IfOk, IfSome};
ghost use Rattle.cx_observe.specs.Possible.{Possible};
ghost use Rattle.cx_observe.specs.Seeing.{seen_by};
ghost use Rattle.cx_program.specs.Knowing.{known_by};
ghost use Rattle.cx_slicefmt.specs.Engine.{items_in};
ghost use Rattle.cx_slices.specs.Bytes.{all_there};
ghost use Rattle.cx_slices.specs.Items.{no_items};
ghost use Rattle.cx_alone.specs.Steps.{GoesBy, IsCarried, IsTaken, handed};

use crate::ahead::Due;
use crate::fault::Stop;
use crate::handing::{all_there, hand};
use cx_observe::Obs;
use cx_program::{Standing, bytes_seen, step};
use cx_slicefmt::GroupItems;

/// Whether a step sees each of these bytes.
pub fn sees(obs: &Obs, bytes: &[(u32, u8)]) -> bool
    ensures { result ≡ all_there (seen_by obs.now) bytes.now }
{
    bytes.is_empty() || all_there(bytes_seen(obs).as_slice(), bytes)
}

// Takes a step with what is known and given, which has to see each of these bytes.
fn carry(standing: &mut Standing, bytes: &[(u32, u8)], given: Option<u32>) -> Result<Obs, Stop>
    ensures carried { IsCarried (known_by standing.old) bytes.now given (known_by standing.new) result }
    ensures possible { IfOk result Possible }
{
    let Some(obs) = step(&standing.words, &standing.shadow, given) else {
        return Err(Stop::Broken);
    };
    if !sees(&obs, bytes) {
        return Err(Stop::Broken);
    }
    standing.hold(&obs)?;
    standing.leave(&obs);
    Ok(obs)
}

// A step with its items.
fn take_step(standing: &mut Standing, items: &GroupItems) -> Result<Obs, Stop>
    ensures taken { IsTaken (known_by standing.old) (items_in items.now) (known_by standing.new) result }
    ensures possible { IfOk result Possible }
{
    hand(standing, items)?;
    carry(standing, items.bytes.as_slice(), items.given)
}

// A step without items.
fn go_on(standing: &mut Standing) -> Result<Obs, Stop>
    ensures taken { IsTaken (known_by standing.old) (no_items 32) (known_by standing.new) result }
    ensures possible { IfOk result Possible }
{
    carry(standing, &[], None)
}

/// A step with what is due to it; none at the end. `Broken` comes exactly where an item stands already or isn't seen, or
/// the program can't take the step. `NoMemory` is free.
pub(crate) fn go_by(standing: &mut Standing, due: Due) -> Result<Option<Obs>, Stop>
    ensures goes { GoesBy (known_by standing.old) (handed due) (known_by standing.new) result }
    ensures possible { IfOk result (λ taken. IfSome taken Possible) }
{
    match due {
        Due::End => Ok(None),
        Due::Nothing => Ok(Some(go_on(standing)?)),
        Due::Items(items) => Ok(Some(take_step(standing, &items)?)),
    }
}
