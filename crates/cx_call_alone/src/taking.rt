//! A step with what is placed there.

ghost use Rattle.std.specs.Prelude.{◌≡◌, None, IfOk, option_map};
ghost use Rattle.cx_observe.specs.Possible.{Possible};
ghost use Rattle.cx_placing.specs.Called.{CallStanding};
ghost use Rattle.cx_call_alone.specs.Going.{GoesByCall, IsOver, RisesDue};
ghost use Rattle.cx_call_alone.specs.Standing.{IsStanding, StepsTo};
ghost use Rattle.cx_call_alone.specs.Stepping.{GoesBehind, RisesIn, number_of, placed_held};

use crate::ahead::Due;
use crate::called::Called;
use crate::items::{CallItems, HeadItems};
use crate::step::{access_all, called, is_its_call, meets, put_items, try_step};
use cx_alone::Stop;
use cx_io::NoMemory;
use cx_observe::Obs;

// The number of the call that is placed at a step, where there is one.
fn number_placed(call: &Option<CallItems>) -> Option<u32>
    ensures { result ≡ option_map number_of call.now }
{
    match call {
        None => None,
        Some(call) => Some(call.number),
    }
}

// Puts what a step leaves, and hands over what comes behind a call.
fn go_behind(standing: &mut Called, obs: &Obs, call: &Option<CallItems>) -> Result<(), NoMemory>
    requires { Possible obs.now }
    ensures { IfOk result (λ _. GoesBehind obs.now call.now standing.old standing.new) }
{
    standing.standing.hold(obs)?;
    standing.standing.leave(obs);
    match call {
        None => {
            standing.words = None;
            standing.are_new = true;
            Ok(())
        }
        Some(call) => standing.hand(&call.head),
    }
}

/// A step with what is placed there. `Broken` comes exactly where it breaks a rule. `NoMemory` is free.
pub(crate) fn take_step(
    standing: &mut Called,
    items: &HeadItems,
    given: Option<u32>,
    call: &Option<CallItems>,
) -> Result<Obs, Stop>
    ensures { (s : CallStanding) → IsStanding s standing.old → RisesIn call.now
        → StepsTo s (placed_held items.now given call.now) standing.new result }
{
    put_items(standing, &items.words, items.bytes.as_slice())?;
    let Some(obs) = try_step(standing, items.bytes.as_slice(), given) else {
        return Err(Stop::Broken);
    };
    if !meets(standing, &obs) {
        return Err(Stop::Broken);
    }
    access_all(standing, &obs)?;
    if !is_its_call(called(&obs), number_placed(call), standing.owes == 0) {
        return Err(Stop::Broken);
    }
    go_behind(standing, &obs, call)?;
    Ok(obs)
}

/// A step with what is due to it; none at the end. `Broken` comes exactly where it breaks a rule, or where something is
/// owed at the end. `NoMemory` is free.
pub(crate) fn go_by(standing: &mut Called, due: Due) -> Result<Option<Obs>, Stop>
    ensures goes { (s : CallStanding) → IsStanding s standing.old → RisesDue due
        → GoesByCall s due standing.new result }
    ensures over { IfOk result (λ found. found ≡ None → IsOver due) }
{
    match due {
        Due::End => {
            if standing.is_settled() {
                Ok(None)
            } else {
                Err(Stop::Broken)
            }
        }
        Due::Step(step) => Ok(Some(take_step(standing, &step.items, step.given, &step.call)?)),
    }
}
