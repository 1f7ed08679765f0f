//! The slicer.

ghost use Rattle.std.specs.Prelude.{◌≡◌, ◌+◌, ◌<◌, ◌≤◌, ◌^◌, ◌⊎◌, ◌++◌, ℕ, List, [], ◌∷◌, length, true};
ghost use Rattle.std.specs.Prelude.{IfErr, IfOk, IsTrue, OnErr, OnOk};
ghost use Rattle.cx_codec.specs.Puts.{Finishes, Puts, Starts, onto};
ghost use Rattle.cx_observe.specs.Possible.{Possible};
ghost use Rattle.cx_observe.specs.Seeing.{seen_by};
ghost use Rattle.cx_observe.specs.User.{user};
ghost use Rattle.cx_observe.specs.declared.obs.Obs.{Obs};
ghost use Rattle.cx_process.specs.Slicing.{IsForSome, added_text, step_text};
ghost use Rattle.cx_observe.specs.Effects.{program_words};
ghost use Rattle.cx_program.specs.Knowing.{HasRoom, IsByStep, IsKnown, known_by};
ghost use Rattle.cx_shadow.specs.Cells.{byte_of, is_held};
ghost use Rattle.cx_slicefmt.specs.Text.{least_behind, slice_end_text, slice_magic};
ghost use Rattle.cx_slices.specs.Bytes.{with_bytes};
ghost use Rattle.cx_slices.specs.Groups.{groups_from, groups_of};
ghost use Rattle.cx_slices.specs.Items.{items_at};

use crate::items::{are_none, items};
use cx_codec::OutFault;
use cx_decode::Decoder;
use cx_io::Sink;
use cx_observe::Obs;
use cx_program::Standing;
use cx_slicefmt::GroupWriter;
use std::alloc::Global;

/// The slicer of a process. It stands for the observations that it was fed, of which it keeps none: it has put the text
/// of their slice without its end. After a refusal of its writer it has ended, and the sink holds a front of what was
/// put; where room for an observation is refused it goes on. `WriteFault` comes only where the sink's count of faults
/// rose, and `NoMemory` where memory is refused, to it or by the sink.
#[derive(Drop)]
pub struct Slicer {
    standing: Standing,
    count: u64,
    groups: GroupWriter,
    decoder: Decoder,
    ghost slicing: { IsForSome (known_by standing) count groups.least },
    ghost most: { count ≤ 2 ^ 48 },
}

// Puts the group of a step, where it has items.
fn put_items<T: Sink>(
    groups: &mut GroupWriter,
    standing: &Standing,
    count: u64,
    obs: &Obs,
    sink: &mut T,
) -> Result<(), OutFault>
    requires live { IsTrue groups.old.output.live }
    requires possible { Possible obs.now }
    requires order { groups.old.least ≤ count }
    requires most { count < 2 ^ 48 }
    ensures puts { Puts OutFault.WriteFault (step_text groups.old.least count (known_by standing.now) obs.now)
        (onto groups.old.output (T.held sink.old) (T.faults sink.old))
        (onto groups.new.output (T.held sink.new) (T.faults sink.new)) result }
    ensures least { OnOk result (groups.new.least
        ≡ least_behind groups.old.least (groups_from count (items_at user (known_by standing.now) obs.now ∷ []))) }
    ensures refused { OnErr result (groups.new.least ≡ groups.old.least) }
{
    let items = items(standing, obs);
    if are_none(&items) {
        return Ok(());
    }
    groups.group(count, &items, sink)
}

// Puts the group of a step, where it has items, and learns its words and the bytes that it saw. Where all that it is
// handed stands already, there are none.
#[inline]
fn learn<T: Sink>(
    groups: &mut GroupWriter,
    standing: &mut Standing,
    count: u64,
    obs: &Obs,
    known: bool,
    sink: &mut T,
) -> Result<(), OutFault>
    requires live { IsTrue groups.old.output.live }
    requires possible { Possible obs.now }
    requires order { groups.old.least ≤ count }
    requires most { count < 2 ^ 48 }
    requires room { HasRoom standing.old.shadow obs.now }
    requires known { known ≡ true → IsKnown (known_by standing.old) obs.now }
    ensures puts { Puts OutFault.WriteFault (step_text groups.old.least count (known_by standing.old) obs.now)
        (onto groups.old.output (T.held sink.old) (T.faults sink.old))
        (onto groups.new.output (T.held sink.new) (T.faults sink.new)) result }
    ensures least { OnOk result (groups.new.least
        ≡ least_behind groups.old.least (groups_from count (items_at user (known_by standing.old) obs.now ∷ []))) }
    ensures known { OnOk result (known_by standing.new ≡ record {
      words = program_words obs.now.pc obs.now.x;
      map = with_bytes (seen_by obs.now) (byte_of standing.old.shadow);
    }) }
    ensures room { OnOk result (HasRoom standing.new.shadow obs.now) }
    ensures refused { OnErr result (groups.new.least ≡ groups.old.least) }
    ensures stays { OnErr result (known_by standing.new ≡ known_by standing.old) }
    ensures holds { (a : ℕ) → is_held standing.new.shadow a ≡ is_held standing.old.shadow a }
{
    if known {
        return Ok(());
    }
    put_items(groups, standing, count, obs, sink)?;
    standing.see(obs);
    Ok(())
}

/// A decoder that came across no word yet. `NoMemory` comes where memory is refused.
pub fn new_decoder(alloc: Global) -> Result<Decoder, OutFault>
    ensures { IfErr result (λ e. e ≡ OutFault.NoMemory) }
{
    match Decoder::new(alloc) {
        Ok(decoder) => Ok(decoder),
        Err(_) => Err(OutFault::NoMemory),
    }
}

impl Slicer {
    ghost use Rattle.cx_process.specs.Stands.{HasTaken, IsRoomRefused, output_of};

    /// Begins a slice: puts its magic. It was fed nothing.
    pub fn new<T: Sink>(alloc: Global, sink: &mut T) -> Result<Slicer, OutFault>
        ensures starts { Starts OutFault.WriteFault slice_magic output_of
            (T.held sink.old) (T.held sink.new) (T.faults sink.old) (T.faults sink.new) result }
        ensures stands { IfOk result (HasTaken []) }
    {
        let decoder = new_decoder(alloc)?;
        let groups = GroupWriter::start(alloc, sink)?;
        Ok(Slicer {
            standing: Standing::new(alloc),
            count: 0,
            groups,
            decoder,
        })
    }

    /// Whether it goes on: it does until its writer is refused.
    pub fn live(&self) -> bool
        ensures { result ≡ (output_of self.now).live }
    {
        self.groups.live()
    }

    /// How many observations it was fed.
    pub fn count(&self) -> u64
        ensures { result ≡ self.now.count }
    {
        self.count
    }

    /// Takes the next observation, and puts its group where it has items. Where room is refused, nothing has changed.
    /// The room for it is on at most three pages.
    pub fn feed<T: Sink>(&mut self, obs: &Obs, sink: &mut T) -> Result<(), OutFault>
        requires live { IsTrue (output_of self.old).live }
        requires possible { Possible obs.now }
        requires most { self.old.count < 2 ^ 48 }
        ensures stands { (os : List Obs) → HasTaken os self.old → OnOk result (HasTaken (os ++ obs.now ∷ []) self.new) }
        ensures puts { (os : List Obs) → HasTaken os self.old
            → IsRoomRefused result self.old self.new sink.old sink.new
            ⊎ Puts OutFault.WriteFault (added_text os obs.now)
            (onto (output_of self.old) (T.held sink.old) (T.faults sink.old))
            (onto (output_of self.new) (T.held sink.new) (T.faults sink.new)) result }
        ensures count { OnOk result (self.new.count ≡ self.old.count + 1) }
        ensures keeps { (a : ℕ) → is_held self.old.standing.shadow a ≡ true
            → is_held self.new.standing.shadow a ≡ true }
        ensures pages { (a : ℕ) → is_held self.new.standing.shadow a ≡ true
            → (is_held self.old.standing.shadow a ≡ true) ⊎ IsByStep a obs.now }
    {
        let known = self.standing.has(obs);
        self.standing.hold_for(obs, known)?;
        learn(
            &mut self.groups,
            &mut self.standing,
            self.count,
            obs,
            known,
            sink,
        )?;
        self.standing.go_on(obs, &mut self.decoder);
        self.count += 1;
        Ok(())
    }

    /// Puts the end of the slice, and hands all to the sink. It was fed one observation at least.
    pub fn end<T: Sink>(self, sink: &mut T) -> Result<(), OutFault>
        requires live { IsTrue (output_of self).live }
        requires some { 1 ≤ self.count }
        ensures { (os : List Obs) → HasTaken os self
            → Finishes OutFault.WriteFault (slice_end_text (least_behind 0 (groups_of user os)) (length os))
            (onto (output_of self) (T.held sink.old) (T.faults sink.old)) (T.held sink.new) (T.faults sink.new)
            result }
    {
        self.groups.end(self.count, sink)
    }
}
