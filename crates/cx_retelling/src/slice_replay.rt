//! The replay of a slice, of whichever kind.

ghost use Rattle.std.specs.Prelude.{◌≡◌, ◌<◌, ◌^◌, ◌++◌, [], List, ℕ, None, Option, unwrap_or, IfOk, IfSome, IsSome};
ghost use Rattle.std.specs.Prelude.{IsTrue, OnOk};
ghost use Rattle.cx_alone.specs.Ahead.{MayBeInput};
ghost use Rattle.cx_alone.specs.Replaying.{CountsOn};
ghost use Rattle.cx_codec.specs.Place.{Place, end_of};
ghost use Rattle.cx_codec.specs.Reads.{over, place_in};
ghost use Rattle.cx_io.specs.Cause.{HasCause};
ghost use Rattle.cx_map.specs.Bytes.{AreBytes};
ghost use Rattle.cx_observe.specs.declared.obs.Obs.{Obs};
ghost use Rattle.cx_replay.specs.Records.{GaveMore};
ghost use Rattle.cx_retelling.specs.Through.{Gives, Opens, Through};

use cx_codec::Bytes;
use cx_io::Source;
use cx_observe::Obs;
use cx_replay::ReplayFault;
use std::alloc::Global;

/// What goes through a slice alone, and gives the observations of its steps. After a refusal it has ended.
pub trait SliceReplay: Drop {
    /// What an input goes through in which such a slice stands from a place on, behind its magic.
    ghost through: { Place → Through };

    /// That these observations were given, of an input in which a slice stands from a place on: the source gave the
    /// second list so far and has the first left, and the last is the input.
    ghost stands: { Place → List Obs → Self → Option (List ℕ) → List ℕ → List ℕ → Type 0 };

    /// Which observations it gives.
    ghost gives: { Obs → Type 0 };

    /// How many it gave.
    ghost count: { Self → ℕ };

    /// That it can go on.
    ghost going: { Self → Type 0 };

    /// That nothing is left of the source if the slice's end was read.
    ghost last: { Self → Option (List ℕ) → Type 0 };

    /// Opens a slice behind its magic. `Format` comes exactly where what stands before its steps is bad, at its first
    /// bad field. `ReadFault` comes only where the source's count of faults rose. `NoMemory` is free.
    fn open<S: Source>(alloc: Global, bytes: Bytes, source: &mut S) -> Result<Self, ReplayFault>
        requires { IsTrue bytes.live }
        ensures follows { IsSome (S.left source.old)
            → GaveMore (S.left source.old) (S.given source.old) (S.left source.new) (S.given source.new) }
        ensures opens { IsSome (S.left source.old) → (input : List ℕ)
            → MayBeInput (S.left source.new) (S.given source.new) input
            → AreBytes (place_in (over bytes None (S.given source.old)) input).ahead
            → Opens (through (place_in (over bytes None (S.given source.old)) input))
            (end_of (place_in (over bytes None (S.given source.old)) input))
            (λ r. stands (place_in (over bytes None (S.given source.old)) input) [] r (S.left source.new)
            (S.given source.new) input) (input ≡ S.given source.new) result }
        ensures last { IsSome (S.left source.old) → IfOk result (λ r. last r (S.left source.new)) }
        ensures going { IfOk result going }
        ensures count { IfOk result (λ r. count r ≡ 0) }
        ensures cause { HasCause ReplayFault.ReadFault (S.faults source.old) (S.faults source.new) result };

    /// How many observations it gave.
    fn steps(&self) -> u64
        ensures { result ≡ count self.now };

    /// Gives the observation of the next step; None exactly where the input is a slice that was gone through to its
    /// end. `Format` and `Broken` come exactly by the first bad place of the input, once all steps were given that are
    /// settled before it. `ReadFault` comes only where the source's count of faults rose, once all steps were given
    /// that are settled by what came. `NoMemory` is free.
    fn give<S: Source>(&mut self, source: &mut S) -> Result<Option<Obs>, ReplayFault>
        requires going { going self.old }
        requires most { count self.old < 2 ^ 63 }
        ensures follows { IsSome (S.left source.old)
            → GaveMore (S.left source.old) (S.given source.old) (S.left source.new) (S.given source.new) }
        ensures answers { IsSome (S.left source.old) → (input : List ℕ)
            → MayBeInput (S.left source.new) (S.given source.new) input → (p : Place) (os : List Obs)
            → stands p os self.old (S.left source.old) (S.given source.old) input
            → Gives (through p) (end_of p)
            (λ now. stands p now self.new (S.left source.new) (S.given source.new) input) os
            (input ≡ S.given source.new) result }
        ensures last { IsSome (S.left source.old) → last self.old (S.left source.old)
            → OnOk result (last self.new (S.left source.new)) }
        ensures spent { IsSome (S.left source.old) → last self.old (S.left source.old)
            → IfOk result (λ found. found ≡ None → unwrap_or (S.left source.new) [] ≡ []) }
        ensures going { OnOk result (going self.new) }
        ensures count { CountsOn (count self.old) (count self.new) result }
        ensures gives { IfOk result (λ found. IfSome found gives) }
        ensures cause { HasCause ReplayFault.ReadFault (S.faults source.old) (S.faults source.new) result };

    /// What it goes through begins with what it gave.
    ghost begins: { (p : Place) (os : List Obs) (r : Self) (left : Option (List ℕ)) (given input : List ℕ)
        → stands p os r left given input → (rest : List Obs) × ((through p).observations ≡ os ++ rest) };
}
