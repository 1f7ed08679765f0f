//! What is gathered of a slice by calls behind the last call.

ghost use Rattle.std.specs.Prelude.{◌≡◌, ◌+◌, ◌<◌, ◌^◌, ◌++◌, ◌||◌, ℕ, true, false, [], None, Some, OnErr, OnOk, is_some};
ghost use Rattle.std.specs.Prelude.{replicate, if◌then◌else◌};
ghost use Rattle.cx_callfmt.specs.Rules.{may_come};
ghost use Rattle.cx_callfmt.specs.Text.{records_text};
ghost use Rattle.cx_callfmt.specs.Writing.{behind_records};
ghost use Rattle.cx_marks.specs.Marked.{is_marked};
ghost use Rattle.cx_observe.specs.Possible.{Possible};
ghost use Rattle.cx_observe.specs.Seeing.{bytes_shown, seen_by};
ghost use Rattle.cx_observe.specs.User.{user};
ghost use Rattle.cx_placing.specs.Gathering.{Gathered, gathered_by, gathered_none};
ghost use Rattle.cx_placing.specs.Placing.{words_placed};
ghost use Rattle.cx_placing.specs.Records.{item_records};
ghost use Rattle.cx_placing.specs.Touched.{accesses, touching, untouched};
ghost use Rattle.cx_program.specs.Knowing.{HasRoom, IsKnown, known_by};
ghost use Rattle.cx_shadow.specs.Cells.{AreHeld};
ghost use Rattle.cx_slices.specs.Bytes.{BytesRise, byte_found};
ghost use Rattle.cx_slices.specs.Items.{after};

use crate::items::{Missed, bytes_missed, changes};
use crate::touching::all_touched;
use cx_callfmt::KeptRecords;
use cx_decode::Decoder;
use cx_io::NoMemory;
use cx_marks::Marks;
use cx_observe::Obs;
use cx_program::{Bytes, Standing, bytes_seen, bytes_written, words_told};
use std::alloc::Global;

/// What is gathered: what is known of the program, and what was accessed since the last call or the start; the last
/// call, where there is one; whether no step stands behind it; the words and the bytes that it has to be handed so far,
/// the bytes in the order in which they were missed; and the text of the records behind it.
#[derive(Drop)]
pub(crate) struct Gatherer {
    pub(crate) standing: Standing,
    pub(crate) touched: Marks,
    pub(crate) last: Option<(u64, u32)>,
    pub(crate) first: bool,
    pub(crate) words: [Option<u32>; 32],
    pub(crate) missed: Vec<(u32, u8)>,
    pub(crate) behind: KeptRecords,
    pub(crate) count: u64,
    pub(crate) decoder: Decoder,
}

// Makes room for marks at these addresses.
fn hold_marks(
    touched: &mut Marks,
    seen: &[(u32, u8)],
    written: &[(u32, u8)],
) -> Result<(), NoMemory>
    ensures seen { OnOk result (AreHeld touched.new.stamps seen.now) }
    ensures written { OnOk result (AreHeld touched.new.stamps written.now) }
    ensures marks { (a : ℕ) → is_marked touched.new a ≡ is_marked touched.old a }
{
    touched.hold_all(seen)?;
    touched.hold_all(written)
}

// Marks these addresses.
fn mark(touched: &mut Marks, seen: &[(u32, u8)], written: &[(u32, u8)])
    requires seen { AreHeld touched.old.stamps seen.now }
    requires written { AreHeld touched.old.stamps written.now }
    ensures { (a : ℕ) → is_marked touched.new a
        ≡ ((is_marked touched.old a || is_some (byte_found seen.now a)) || is_some (byte_found written.now a)) }
{
    touched.mark_all(seen);
    touched.mark_all(written);
}

// The words of a step, where they aren't handed over with the last call.
fn words_placed(first: bool, words: &[Option<u32>; 32]) -> [Option<u32>; 32]
    ensures { result ≡ words_placed 32 first words.now }
{
    if first { [None; 32] } else { *words }
}

// The words of the last call, which are those of the first step behind it.
fn words_of_last(
    first: bool,
    old: &[Option<u32>; 32],
    words: &[Option<u32>; 32],
) -> [Option<u32>; 32]
    ensures { result ≡ (if first then words.now else old.now) }
{
    if first { *words } else { *old }
}

// No word comes with the last call, where the first step behind it changes none.
#[inline]
fn pass_first(words: &mut [Option<u32>; 32], first: bool)
    ensures { words.new ≡ (if first then replicate 32 None else words.old) }
{
    if first {
        *words = [None; 32];
    }
}

// Keeps what a step is handed: the bytes that come with the last call, and the others with its words in a record.
fn keep(
    missed: &mut Vec<(u32, u8)>,
    behind: &mut KeptRecords,
    index: u64,
    words: &[Option<u32>; 32],
    bytes: &Missed,
    given: Option<u32>,
) -> Result<(), NoMemory>
    requires comes { may_come behind.old.behind 0 index ≡ true }
    requires rises { BytesRise 0 bytes.now.again.items }
    ensures missed { OnOk result (missed.new.items ≡ missed.old.items ++ bytes.now.first.items) }
    ensures text { OnOk result (behind.new.text ≡ behind.old.text ++ records_text behind.old.behind.index
        (item_records index (record { words = words.now; bytes = bytes.now.again.items; given = given }))) }
    ensures behind { OnOk result (behind.new.behind ≡ behind_records behind.old.behind
        (item_records index (record { words = words.now; bytes = bytes.now.again.items; given = given }))) }
    ensures refused_missed { OnErr result (missed.new.items ≡ missed.old.items) }
    ensures refused_behind { OnErr result (behind.new ≡ behind.old) }
{
    let size = missed.len();
    if missed.extend_from_slice(bytes.first.as_slice()).is_err() {
        return Err(NoMemory);
    }
    match behind.step(index, words, bytes.again.as_slice(), given) {
        Ok(()) => Ok(()),
        Err(fault) => {
            missed.truncate(size);
            Err(fault)
        }
    }
}

impl Gatherer {
    ghost use Rattle.cx_calls.specs.Gathers.{IsGathered, IsSame};

    /// Before the first observation nothing is gathered.
    pub(crate) fn new(alloc: Global, decoder: Decoder) -> Gatherer
        ensures { IsGathered (gathered_none user) result }
    {
        Gatherer {
            standing: Standing::new(alloc),
            touched: Marks::new(alloc),
            last: None,
            first: true,
            words: [None; 32],
            missed: Vec::new(alloc),
            behind: KeptRecords::new(alloc),
            count: 0,
            decoder,
        }
    }

    // Goes on behind a step: to its bytes and words, and to what it accessed.
    fn go_on(&mut self, obs: &Obs, words: &[Option<u32>; 32], seen: &Bytes, written: &Bytes)
        requires room { HasRoom self.old.standing.shadow obs.now }
        requires seen { AreHeld self.old.touched.stamps seen.now.items }
        requires written { AreHeld self.old.touched.stamps written.now.items }
        requires most { self.old.count < 2 ^ 48 }
        requires saw { seen.now.items ≡ seen_by obs.now }
        requires wrote { written.now.items ≡ bytes_shown obs.now.write }
        ensures known { known_by self.new.standing ≡ after user (known_by self.old.standing) obs.now }
        ensures touched { is_marked self.new.touched ≡ touching user obs.now (is_marked self.old.touched) }
        ensures words { self.new.words ≡ (if self.old.first then words.now else self.old.words) }
        ensures first { self.new.first ≡ false }
        ensures count { self.new.count ≡ self.old.count + 1 }
        ensures last { self.new.last ≡ self.old.last }
        ensures missed { self.new.missed ≡ self.old.missed }
        ensures behind { self.new.behind ≡ self.old.behind }
    {
        self.words = words_of_last(self.first, &self.words, words);
        self.standing.see(obs);
        self.standing.go_on(obs, &mut self.decoder);
        mark(&mut self.touched, seen.as_slice(), written.as_slice());
        self.first = false;
        self.count += 1;
    }

    // Takes a step that is handed nothing: all of it stands, and all that it accesses was accessed before.
    fn pass(&mut self, obs: &Obs) -> Result<(), NoMemory>
        requires possible { Possible obs.now }
        requires known { IsKnown (known_by self.old.standing) obs.now }
        requires touched { (a : ℕ) → accesses user obs.now a ≡ true → is_marked self.old.touched a ≡ true }
        requires most { self.old.count < 2 ^ 48 }
        ensures takes { (g : Gathered) → IsGathered g self.old
            → OnOk result (IsGathered (gathered_by user g obs.now None) self.new) }
        ensures refused { OnErr result (IsSame self.old self.new) }
        ensures count { OnOk result (self.new.count ≡ self.old.count + 1) }
    {
        self.standing.hold_for(obs, true)?;
        pass_first(&mut self.words, self.first);
        self.standing.go_on(obs, &mut self.decoder);
        self.first = false;
        self.count += 1;
        Ok(())
    }

    // Takes any step.
    fn gather(&mut self, obs: &Obs) -> Result<(), NoMemory>
        requires possible { Possible obs.now }
        requires order { may_come self.old.behind.behind 0 self.old.count ≡ true }
        requires most { self.old.count < 2 ^ 48 }
        ensures takes { (g : Gathered) → IsGathered g self.old
            → OnOk result (IsGathered (gathered_by user g obs.now None) self.new) }
        ensures refused { OnErr result (IsSame self.old self.new) }
        ensures count { OnOk result (self.new.count ≡ self.old.count + 1) }
    {
        let seen = bytes_seen(obs);
        let written = bytes_written(obs);
        self.standing.hold(obs)?;
        hold_marks(&mut self.touched, seen.as_slice(), written.as_slice())?;
        let words = changes(&self.standing.words, &words_told(obs));
        let bytes = bytes_missed(&self.standing.shadow, &self.touched, seen.as_slice());
        let placed = words_placed(self.first, &words);
        keep(
            &mut self.missed,
            &mut self.behind,
            self.count,
            &placed,
            &bytes,
            obs.value,
        )?;
        self.go_on(obs, &words, &seen, &written);
        Ok(())
    }

    /// Takes the next observation, as one that is no call. Where memory is refused, nothing has changed.
    pub(crate) fn take(&mut self, obs: &Obs) -> Result<(), NoMemory>
        requires possible { Possible obs.now }
        requires order { may_come self.old.behind.behind 0 self.old.count ≡ true }
        requires most { self.old.count < 2 ^ 48 }
        ensures takes { (g : Gathered) → IsGathered g self.old
            → OnOk result (IsGathered (gathered_by user g obs.now None) self.new) }
        ensures refused { OnErr result (IsSame self.old self.new) }
        ensures count { OnOk result (self.new.count ≡ self.old.count + 1) }
    {
        if self.standing.has(obs) && all_touched(&self.touched, obs) {
            return self.pass(obs);
        }
        self.gather(obs)
    }

    /// Begins anew behind the call at an index, with its number.
    pub(crate) fn restart(&mut self, index: u64, number: u32)
        ensures last { self.new.last ≡ Some (index, number) }
        ensures first { self.new.first ≡ true }
        ensures words { self.new.words ≡ replicate 32 None }
        ensures missed { self.new.missed.items ≡ [] }
        ensures behind { self.new.behind ≡ record { text = []; behind = record { index = index; least = 3 } } }
        ensures count { self.new.count ≡ self.old.count }
        ensures known { known_by self.new.standing ≡ known_by self.old.standing }
        ensures touched { is_marked self.new.touched ≡ untouched }
    {
        self.last = Some((index, number));
        self.first = true;
        self.words = [None; 32];
        self.missed.clear();
        self.behind.restart(index);
        self.touched.clear();
    }
}
