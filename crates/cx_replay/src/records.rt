//! Readers of records.

ghost use Rattle.std.specs.Prelude.{◌≡◌, ℕ, List, Option, IfOk, OnOk, IsSome, IsTrue, true, false, is_ok};
ghost use Rattle.cx_codec.specs.Reads.{Begins};
ghost use Rattle.cx_io.specs.Cause.{HasCause};
ghost use Rattle.cx_log.specs.Scan.{Scan};
ghost use Rattle.cx_replay.specs.Records.{GaveItem, GaveMore, MayBeWhole, ReadsRecord, SeesEnd, Seen};

use cx_io::Source;
use cx_log::{Item, LogFault};

/// A reader of the records of one recording, up to End. What a call says of the input holds of every input that begins
/// with what the source had given when the call ended.
pub trait Records: Drop {
    /// What it keeps between two calls, whatever its source tells.
    ghost seen: { Self → Seen };

    /// In an input that begins with the bytes given so far and ends at this offset, the records ahead scan as this.
    ghost has: { Self → List ℕ → List ℕ → ℕ → Scan → Type 0 };

    /// What is known of the bytes that the source has left, once the end was seen.
    ghost leaves: { Option (List ℕ) → Type 0 };

    /// Reads the next record. The bytes of a Dma are those of `record_bytes` then, until the next call. `Format` comes
    /// exactly where a field is bad, `ReadFault` only where the source's count of faults rose.
    fn next_record<S: Source>(&mut self, source: &mut S) -> Result<Item, LogFault>
        requires live { IsTrue (seen self.old).live }
        requires more { (seen self.old).ended ≡ false }
        ensures follows { IsSome (S.left source.old)
            → GaveMore (S.left source.old) (S.given source.old) (S.left source.new) (S.given source.new) }
        ensures reads { IsSome (S.left source.old) → (input : List ℕ) → Begins (S.given source.new) input
            → (end : ℕ) (rest : Scan)
            → has self.old (S.given source.old) input end rest
            → ReadsRecord (seen self.old).last (seen self.new).bytes (has self.new (S.given source.new) input end) rest
            end
            (MayBeWhole (S.left source.new) (S.given source.new) input) (input ≡ S.given source.new) result }
        ensures gave { IfOk result (GaveItem (seen self.old) (seen self.new)) }
        ensures pages { (seen self.new).pages ≡ (seen self.old).pages }
        ensures live { (seen self.new).live ≡ is_ok result }
        ensures cause { HasCause LogFault.ReadFault (S.faults source.old) (S.faults source.new) result };

    /// The bytes of the last Dma.
    fn record_bytes(&self) -> &[u8]
        ensures { result.now ≡ (seen self.now).bytes };

    /// Sees that nothing follows End. `Format` comes exactly where something does, `ReadFault` only where the source's
    /// count of faults rose.
    fn see_end<S: Source>(&mut self, source: &mut S) -> Result<(), LogFault>
        requires live { IsTrue (seen self.old).live }
        requires ended { (seen self.old).ended ≡ true }
        ensures follows { IsSome (S.left source.old)
            → GaveMore (S.left source.old) (S.given source.old) (S.left source.new) (S.given source.new) }
        ensures sees { IsSome (S.left source.old) → (input : List ℕ) → Begins (S.given source.new) input
            → (end : ℕ) (rest : Scan)
            → has self.old (S.given source.old) input end rest
            → SeesEnd (has self.new (S.given source.new) input end) rest
            (MayBeWhole (S.left source.new) (S.given source.new) input) (input ≡ S.given source.new) result }
        ensures spent { IsSome (S.left source.old) → OnOk result (leaves (S.left source.new)) }
        ensures bytes { (seen self.new).bytes ≡ (seen self.old).bytes }
        ensures pages { (seen self.new).pages ≡ (seen self.old).pages }
        ensures ended { (seen self.new).ended ≡ true }
        ensures live { (seen self.new).live ≡ is_ok result }
        ensures cause { HasCause LogFault.ReadFault (S.faults source.old) (S.faults source.new) result };
}
