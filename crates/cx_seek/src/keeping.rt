//! What is kept of a run as it goes on.
//!
//! How far apart checkpoints stand depends on how many steps a run has, which isn't known before its end. So they stand
//! as far apart as the steps so far ask for, and where there are 64 of that distance, each second one is forgotten.

ghost use Rattle.std.specs.Prelude.{◌≡◌, ℕ, ◌+◌, ◌-◌, ◌/◌, ◌<◌, [], length, OnOk};
ghost use Rattle.cx_hart.specs.Whole.{machine_of};
ghost use Rattle.cx_log.specs.Recording.{Recording};
ghost use Rattle.cx_machine.specs.Machine.{pages_of};
ghost use Rattle.cx_seek.specs.Checkpoints.{AreHeld, IsMachineAt, Saves};
ghost use Rattle.cx_seek.specs.Keeping.{IsKept, IsKeptBelow, IsStill, Keeps};
ghost use Rattle.cx_seek.specs.Thinned.{IsThinned, SameMoments};

use crate::checkpoint::Checkpoint;
use crate::notes::Notes;
use cx_io::NoMemory;
use cx_replay::{Records, Replay};
use std::alloc::Global;

/// How far apart the checkpoints of a short run stand.
pub(crate) const LEAST_DISTANCE: u64 = 1024;

/// How many steps of that distance there are when it is doubled.
pub(crate) const MOST_CHECKPOINTS: u64 = 64;

/// What is kept of a run: its checkpoints, how many steps apart they stand, and what was due to its steps.
#[derive(Drop)]
pub(crate) struct Keeping {
    pub(crate) checkpoints: Vec<Checkpoint>,
    pub(crate) distance: u64,
    pub(crate) notes: Notes,
}

impl Keeping {
    /// Nothing yet.
    pub(crate) fn new(alloc: Global) -> Keeping
        ensures none { result.checkpoints.items ≡ [] }
        ensures distance { result.distance ≡ 1024 }
        ensures notes { result.notes ≡ [] }
    {
        Keeping {
            checkpoints: Vec::new(alloc),
            distance: LEAST_DISTANCE,
            notes: Notes::new(alloc),
        }
    }
}

/// Keeps the machine before the next step. `NoMemory` is free.
pub(crate) fn save<R: Records>(
    replay: &mut Replay<R>,
    keeping: &mut Keeping,
) -> Result<(), NoMemory>
    ensures still { IsStill replay.old replay.new }
    ensures saves { OnOk result (Saves (pages_of replay.old.machine.memory) (length keeping.old.notes)
        (machine_of replay.old.machine) replay.old.machine.saved replay.new.machine.saved keeping.old.checkpoints.items
        keeping.new.checkpoints.items) }
    ensures pages { OnOk result (pages_of replay.old.machine.memory ≡ (R.seen replay.old.records).pages) }
    ensures distance { keeping.new.distance ≡ keeping.old.distance }
    ensures notes { keeping.new.notes ≡ keeping.old.notes }
{
    let moment = replay.save()?;
    let next = keeping.notes.count();
    match keeping.checkpoints.push(Checkpoint { moment, next }) {
        Ok(()) => Ok(()),
        Err(_) => Err(NoMemory),
    }
}

// Forgets each second checkpoint.
fn thin<R: Records>(replay: &mut Replay<R>, checkpoints: &mut Vec<Checkpoint>)
    requires held { AreHeld (R.seen replay.old.records).pages replay.old.machine.saved checkpoints.old.items }
    ensures still { IsStill replay.old replay.new }
    ensures held { AreHeld (R.seen replay.old.records).pages replay.new.machine.saved checkpoints.new.items }
    ensures thinned { IsThinned (length checkpoints.old.items / 2) checkpoints.old.items checkpoints.new.items }
    ensures same { SameMoments replay.old.machine.saved replay.new.machine.saved checkpoints.new.items }
{
    for removed in 0..checkpoints.len() / 2 {
        let gone = checkpoints.remove(removed + 1);
        replay.forget(gone.moment);
    }
}

// Behind so many steps, forgets each second checkpoint where there are 64 of the distance in them.
fn make_room<R: Records>(replay: &mut Replay<R>, keeping: &mut Keeping, taken: u64)
    requires some { 0 < taken }
    requires kept { IsKept (R.seen replay.old.records).pages (taken - 1) replay.old.machine.saved keeping.old }
    ensures still { IsStill replay.old replay.new }
    ensures kept { IsKeptBelow (R.seen replay.old.records).pages taken replay.new.machine.saved keeping.new }
    ensures keeps { (run : Recording) (upto : ℕ) → Keeps run replay.old.machine.saved upto keeping.old
        → Keeps run replay.new.machine.saved upto keeping.new }
    ensures notes { keeping.new.notes ≡ keeping.old.notes }
{
    if taken / keeping.distance == MOST_CHECKPOINTS {
        thin(replay, &mut keeping.checkpoints);
        keeping.distance *= 2;
    }
}

/// Keeps the machine behind so many steps, where a checkpoint stands there. `NoMemory` is free.
pub(crate) fn keep<R: Records>(
    replay: &mut Replay<R>,
    keeping: &mut Keeping,
    taken: u64,
) -> Result<(), NoMemory>
    requires some { 0 < taken }
    requires kept { IsKept (R.seen replay.old.records).pages (taken - 1) replay.old.machine.saved keeping.old }
    ensures still { IsStill replay.old replay.new }
    ensures kept { OnOk result (IsKept (R.seen replay.old.records).pages taken replay.new.machine.saved keeping.new) }
    ensures keeps { OnOk result ((run : Recording)
        → IsMachineAt run (run.base + taken) (machine_of replay.old.machine)
        → Keeps run replay.old.machine.saved (run.base + taken) keeping.old
        → Keeps run replay.new.machine.saved (run.base + taken) keeping.new) }
    ensures notes { keeping.new.notes ≡ keeping.old.notes }
{
    make_room(replay, keeping, taken);
    if taken % keeping.distance == 0 {
        return save(replay, keeping);
    }
    Ok(())
}
