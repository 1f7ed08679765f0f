//! What tells the observations of one program.

ghost use Rattle.std.specs.Prelude.{◌≡◌, ◌++◌, [], ◌∷◌, List, ℕ, Option, IfOk, OnOk, length};
ghost use Rattle.cx_codec.specs.Blocks.{whole as whole_blocks};
ghost use Rattle.cx_codec.specs.Reads.{Begins};
ghost use Rattle.cx_io.specs.Cause.{HasCause};
ghost use Rattle.cx_observe.specs.Possible.{Possible};
ghost use Rattle.cx_observe.specs.declared.obs.Obs.{Obs};
ghost use Rattle.cx_commands.specs.Streaming.{FinishesOn, StartsOn, Told, TellsOn};

use cx_codec::OutFault;
use cx_io::Sink;
use cx_observe::Obs;
use std::alloc::Global;

/// What tells the observations of one program, in a text that grows with each.
pub trait ObservationTeller: Drop {
    /// The text of these observations, where more may follow.
    ghost text: { List Obs → List ℕ };

    /// The text of these and no more.
    ghost full: { List Obs → List ℕ };

    /// Which observations it can be told.
    ghost takes: { Obs → Type 0 };

    /// What was put and waits to be written.
    ghost waiting: { Self → List ℕ };

    /// What is kept besides, once these were told.
    ghost keeps: { Self → List Obs → Type 0 };

    /// How many were told.
    ghost count: { Self → ℕ };

    /// That it goes on.
    ghost ready: { Self → Type 0 };

    /// Begins with the text of none. `WriteFault` comes only where the sink's count of faults rose.
    fn start<T: Sink>(alloc: Global, sink: &mut T) -> Result<Self, OutFault>
        ensures starts { StartsOn (T.held sink.old) (text []) waiting (T.held sink.new) (λ t. keeps t []) result }
        ensures goes { IfOk result ready }
        ensures cause { HasCause OutFault.WriteFault (T.faults sink.old) (T.faults sink.new) result };

    /// Tells the next observation. `WriteFault` comes only where the sink's count of faults rose.
    fn tell<T: Sink>(&mut self, obs: &Obs, sink: &mut T) -> Result<(), OutFault>
        requires ready { ready self.old }
        requires takes { takes obs.now }
        ensures tells { (os : List Obs) (base : Option (List ℕ))
            → Told base (text os) (waiting self.old) (T.held sink.old) (keeps self.old os)
            → TellsOn base (text (os ++ obs.now ∷ [])) (waiting self.new) (T.held sink.new)
            (keeps self.new (os ++ obs.now ∷ [])) result }
        ensures goes { OnOk result (ready self.new) }
        ensures cause { HasCause OutFault.WriteFault (T.faults sink.old) (T.faults sink.new) result };

    /// How many it was told.
    fn told(&self) -> u64
        ensures is { result ≡ count self.now }
        ensures all { (os : List Obs) → keeps self.now os → result ≡ length os };

    /// Tells that no more follow, and hands all to the sink. `WriteFault` comes only where the sink's count of faults
    /// rose.
    fn finish<T: Sink>(self, sink: &mut T) -> Result<(), OutFault>
        requires ready { ready self }
        ensures finishes { (os : List Obs) (base : Option (List ℕ))
            → Told base (text os) (waiting self) (T.held sink.old) (keeps self os)
            → FinishesOn base (full os) (T.held sink.new) result }
        ensures cause { HasCause OutFault.WriteFault (T.faults sink.old) (T.faults sink.new) result };

    /// It can be told each that a step in user mode can make.
    ghost possible: { (o : Obs) → Possible o → takes o };

    ghost grows: { (xs ys : List Obs) → Begins (text xs) (text (xs ++ ys)) };

    /// Before the first nothing is written.
    ghost unwritten: { whole_blocks (text []) ≡ [] };
}
