//! Taking a step that is settled.

ghost use Rattle.std.specs.Prelude.{◌≡◌, ◌<◌, ◌≤◌, ◌∷◌, [], length, IfSome, OnOk};
ghost use Rattle.cx_hart.specs.HartStep.{hart_step};
ghost use Rattle.cx_hart.specs.Step.{without_transfers};
ghost use Rattle.cx_hart.specs.Whole.{machine_of};
ghost use Rattle.cx_machine.specs.Due.{AreLines, IsDue};
ghost use Rattle.cx_machine.specs.Transfers.{AreTransfers, IsTransfer, after_transfers};
ghost use Rattle.cx_map.specs.Map.{size_of_pages};
ghost use Rattle.cx_replay.specs.Gathering.{IsCarriedOut, TakesStep};

use crate::due::{DueRecords, Moved};
use crate::told::Told;
use cx_hart::{Due, Machine, NoMemory, Steps};
use std::marker::Brand;
use std::sync::ledger::{Blank, Ledger};

// Writes the bytes of a device to RAM.
fn move_one(machine: &mut Machine, moved: &Moved) -> Result<(), NoMemory>
    requires { IsTransfer (length machine.old.memory) moved.now }
    ensures machine { OnOk result (machine_of machine.new ≡ after_transfers (moved.now ∷ []) (machine_of machine.old)) }
    ensures size { length machine.new.memory ≡ length machine.old.memory }
    ensures split { machine.new.split ≡ machine.old.split }
    ensures saved { machine.new.saved ≡ machine.old.saved }
{
    machine.reserve(2)?;
    machine.dma(moved.place(), moved.bytes());
    Ok(())
}

// Writes the bytes of all devices to RAM, in order.
#[inline(always)]
fn move_all(machine: &mut Machine, moves: &[Moved]) -> Result<(), NoMemory>
    requires { AreTransfers (length machine.old.memory) moves.now }
    ensures machine { OnOk result (machine_of machine.new ≡ after_transfers moves.now (machine_of machine.old)) }
    ensures size { length machine.new.memory ≡ length machine.old.memory }
    ensures split { machine.new.split ≡ machine.old.split }
    ensures saved { machine.new.saved ≡ machine.old.saved }
{
    for n in 0..moves.len() {
        move_one(machine, &moves[n])?;
    }
    Ok(())
}

// Takes a step and counts it, once the bytes of devices were written, and answers whether it was carried out.
fn turn_counted<L: Ledger, W: Told>(
    machine: &mut Machine,
    due: Due,
    told: &mut W,
    blank: Blank,
) -> bool
    requires room { 2 ≤ machine.old.spare }
    requires lines { IfSome due.lines AreLines }
    requires name { blank.name ≡ L.name }
    requires parts { blank.parts ≡ L.parts }
    requires one { 0 < blank.parts }
    ensures step { IsCarriedOut (hart_step machine.old.split (machine_of machine.old) (without_transfers due))
        (W.knows told.new) (machine_of machine.new) result }
    ensures size { length machine.new.memory ≡ length machine.old.memory }
    ensures split { machine.new.split ≡ machine.old.split }
    ensures saved { machine.new.saved ≡ machine.old.saved }
{
    let mut steps: Steps<L> = Steps::none(blank);
    told.take(machine, due, &mut steps)
}

/// Takes a step to which this is due, and tells it; false where it isn't carried out.
pub(crate) fn take_step<W: Told>(
    machine: &mut Machine,
    due: &DueRecords,
    told: &mut W,
) -> Result<bool, NoMemory>
    requires transfers { AreTransfers (length machine.old.memory) due.now.transfers }
    requires lines { IfSome due.now.lines AreLines }
    ensures step { TakesStep (hart_step machine.old.split (machine_of machine.old) due.now) (W.knows told.new)
        (machine_of machine.new) result }
    ensures size { length machine.new.memory ≡ length machine.old.memory }
    ensures split { machine.new.split ≡ machine.old.split }
    ensures saved { machine.new.saved ≡ machine.old.saved }
{
    move_all(machine, due.moves())?;
    machine.reserve(2)?;
    let rest = Due {
        lines: due.lines(),
        value: due.value(),
    };
    Ok(turn_counted::<Brand, W>(machine, rest, told, Blank::new(1)))
}
