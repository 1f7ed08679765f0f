//! Laws of call slices: text and reading agree, part by part and as a whole, and a scan goes record by record.

ghost use Rattle.std.specs.Prelude.{◌≡◌, ℕ, suc, ◌^◌, ◌<◌, ◌≤◌, Bool, List, [], ◌∷◌, ◌++◌, length, None, Some, Ok, Err};
ghost use Rattle.std.specs.List.{AllByRecursion};
ghost use Rattle.cx_map.specs.Bytes.{AreBytes};
ghost use Rattle.cx_codec.specs.Again.{IsCut, Once, ReadsAs};
ghost use Rattle.cx_codec.specs.Checks.{close_at};
ghost use Rattle.cx_codec.specs.Place.{Place, Takes, end_of, read_on, done};
ghost use Rattle.cx_codec.specs.Fields.{byte_at, bytes_at};
ghost use Rattle.cx_slices.specs.Bytes.{BytesRise};
ghost use Rattle.cx_slices.specs.Items.{IsByteAt, IsWordOrNone};
ghost use Rattle.cx_slicefmt.specs.Rules.{Head, IsHead};
ghost use Rattle.cx_slicefmt.specs.Reading.{head_at};
ghost use Rattle.cx_placing.specs.Placing.{CallSlice, Placed};
ghost use Rattle.cx_placing.specs.Records.{Record, records_from};
ghost use Rattle.cx_callfmt.specs.Beginning.{begun_at, begun_behind, head_begun_at, head_behind};
ghost use Rattle.cx_callfmt.specs.Handing.{Pending, next_byte_at, rest_at, rest_behind};
ghost use Rattle.cx_callfmt.specs.Reading.{next_record_at, record_at};
ghost use Rattle.cx_callfmt.specs.Rules.{
  AreRecords,
  Behind,
  CallStands,
  EndsAt,
  MayEnd,
  MayFollow,
  RecordOf,
  behind_record,
  behind_start,
  calls,
};
ghost use Rattle.cx_callfmt.specs.Scan.{
  IsCallText,
  IsSameSlice,
  IsWholeCallScan,
  RecordsRise,
  by_call_end,
  call_scan,
  call_scan_of,
  call_stops,
  call_whole,
  records_within,
  scan_records,
  with_head,
  with_record,
};
ghost use Rattle.cx_callfmt.specs.Text.{
  call_end_text,
  call_entry_text,
  call_magic,
  call_slice_body,
  call_slice_text,
  ended_records_text,
  last_index,
  record_text,
  records_text,
};
ghost use Rattle.cx_callfmt.specs.Steps.{PlacedFits, SliceFits, text_of_calls};
ghost use Rattle.cx_callfmt.specs.Writing.{behind_records};

/// A record that can be spelled is read back from its text, and so is an end. An input that ends inside it is bad at
/// its end.
pub fn call_records_read_back()
    ensures record { (behind : Behind) (r : Record) → MayFollow behind r
        → ReadsAs (record_at behind) (record_text behind.index r) (RecordOf r) }
    ensures end { (behind : Behind) (count : ℕ) → MayEnd behind count
        → ReadsAs (record_at behind) (call_end_text behind.index count) (EndsAt count) }
{}

/// What is read as a record or an end can be spelled so, and is its text.
pub fn call_records_have_one_text()
    ensures { (behind : Behind) → Once (record_at behind) (CallStands behind) (call_entry_text behind.index) }
{}

/// Words and bytes of 32-bit addresses can be spelled as a head, where the addresses rise.
pub fn heads_are_spelled()
    ensures { (h : Head) → length h.words ≡ 32 → AllByRecursion IsWordOrNone h.words → BytesRise 0 h.bytes
        → AllByRecursion IsByteAt h.bytes → IsHead calls h }
{}

/// What is left of a head is its next byte and what is left behind that, and it is bad at the same offset.
pub fn heads_are_handed_out()
    ensures one { (n : ℕ) (p : Place) → bytes_at (suc n) p
        ≡ read_on (byte_at p) (λ b q. read_on (bytes_at n q) (λ bs. done (b ∷ bs))) }
    ensures next { (most : ℕ) (w : Pending) (p : Place)
        → rest_at most w p ≡ read_on (next_byte_at most w p) (rest_behind most) }
{}

/// Records that can be spelled are scanned from their text, whatever follows the end, and nothing may follow it.
pub fn records_are_scanned()
    ensures scan { (most : ℕ) (behind : Behind) (rs : List Record) (count : ℕ) (p after : Place)
        → AreRecords behind rs count → Takes p (ended_records_text behind.index rs count) after
        → length p.ahead < most → records_within most behind p ≡ call_scan_of behind rs count (close_at after) }
    ensures whole { (behind : Behind) (rs : List Record) (count : ℕ) (x : Unit {0} × Place)
        → call_scan_of behind rs count (Ok x) ≡ call_whole rs count }
    ensures cut { (most : ℕ) (behind : Behind) (rs : List Record) (count : ℕ) (p : Place)
        → AreRecords behind rs count → IsCut p (ended_records_text behind.index rs count) → length p.ahead < most
        → (records_within most behind p).bad ≡ Some (end_of p) }
    ensures once { (most : ℕ) (behind : Behind) (p : Place) → AreBytes p.ahead
        → (records_within most behind p).bad ≡ None → IsWholeCallScan behind p (records_within most behind p) }
{}

/// A scan goes record by record, and its indices rise.
pub fn scans_go_record_by_record()
    ensures put { (behind : Behind) (r : Record) (p q : Place) → AreBytes p.ahead
        → record_at behind p ≡ Ok (RecordOf r, q)
        → scan_records behind p ≡ with_record r (scan_records (behind_record r) q) }
    ensures ends { (behind : Behind) (count : ℕ) (p q : Place) → record_at behind p ≡ Ok (EndsAt count, q)
        → scan_records behind p ≡ by_call_end behind count (close_at q) }
    ensures bad { (behind : Behind) (o : ℕ) (p : Place) → record_at behind p ≡ Err o
        → scan_records behind p ≡ call_stops behind o }
    ensures next { (behind : Behind) (o : ℕ) (p : Place) → next_record_at behind p ≡ Err o
        → scan_records behind p ≡ call_stops behind o }
    ensures rises { (behind : Behind) (p : Place) → AreBytes p.ahead
        → RecordsRise behind.index (scan_records behind p).records }
    ensures upto { (behind : Behind) (p : Place) → AreBytes p.ahead
        → behind.index ≤ (scan_records behind p).upto }
{}

/// The text of records grows by that of more, and that of the end stands behind it.
pub fn call_texts_grow_by_records()
    ensures more { (before : ℕ) (rs ss : List Record)
        → records_text before (rs ++ ss) ≡ records_text before rs ++ records_text (last_index before rs) ss }
    ensures one { (before : ℕ) (rs : List Record) (r : Record)
        → records_text before (rs ++ r ∷ []) ≡ records_text before rs ++ record_text (last_index before rs) r }
    ensures last { (before : ℕ) (rs ss : List Record)
        → last_index before (rs ++ ss) ≡ last_index (last_index before rs) ss }
    ensures behind { (behind : Behind) (rs ss : List Record)
        → behind_records behind (rs ++ ss) ≡ behind_records (behind_records behind rs) ss }
    ensures index { (behind : Behind) (rs : List Record)
        → (behind_records behind rs).index ≡ last_index behind.index rs }
    ensures body { (head : Head) (rs ss : List Record)
        → call_slice_body head (rs ++ ss) ≡ call_slice_body head rs ++ records_text (last_index 0 rs) ss }
    ensures end { (head : Head) (rs : List Record) (count : ℕ)
        → call_slice_text head rs count ≡ call_slice_body head rs ++ call_end_text (last_index 0 rs) count }
{}

/// A call slice that can be spelled is read back from its text, where that isn't past the widest input, and each proper
/// front of it that has the magic is bad at its length. What is read with no bad field can be spelled, and is its text.
pub fn call_slices_have_one_text()
    ensures again { (head : Head) (rs : List Record) (count : ℕ) (bytes : List ℕ) → IsHead calls head
        → AreRecords behind_start rs count → length (call_slice_text head rs count) ≤ 2 ^ 60
        → call_magic ++ bytes ≡ call_slice_text head rs count
        → call_scan bytes ≡ with_head head (call_whole rs count) }
    ensures cut { (head : Head) (rs : List Record) (count : ℕ) (bytes more : List ℕ) → IsHead calls head
        → AreRecords behind_start rs count → length (call_slice_text head rs count) ≤ 2 ^ 60
        → (call_magic ++ bytes) ++ more ≡ call_slice_text head rs count → 1 ≤ length more
        → (call_scan bytes).bad ≡ Some (length (call_magic ++ bytes)) }
    ensures once { (bytes : List ℕ) → AreBytes bytes → (call_scan bytes).bad ≡ None
        → IsCallText bytes (call_scan bytes) }
{}

/// Texts of call slices are of one slice, and none is a front of another.
pub fn no_call_slice_is_a_front()
    ensures { (h k : Head) (rs ss : List Record) (m n : ℕ) (more : List ℕ) → IsHead calls h → IsHead calls k
        → AreRecords behind_start rs m → AreRecords behind_start ss n
        → call_slice_text h rs m ++ more ≡ call_slice_text k ss n → IsSameSlice h k rs ss m n more }
{}

/// The records of steps that fit can be spelled, where there are some and no more than can be counted.
pub fn placed_steps_are_spelled()
    ensures { (ps : List (Placed ℕ)) → 1 ≤ length ps → length ps ≤ 2 ^ 48 → AllByRecursion PlacedFits ps
        → AreRecords behind_start (records_from 0 ps) (length ps) }
{}

/// A slice by its calls that fits is read back from its text, where that isn't past the widest input.
pub fn calls_read_back()
    ensures { (slice : CallSlice ℕ) (bytes : List ℕ) → SliceFits slice → 1 ≤ length slice.steps
        → length slice.steps ≤ 2 ^ 48 → length (text_of_calls slice) ≤ 2 ^ 60
        → call_magic ++ bytes ≡ text_of_calls slice
        → call_scan bytes ≡ with_head slice.head (call_whole (records_from 0 slice.steps) (length slice.steps)) }
{}

/// A record is what it begins with, up to the number of its runs, and the bytes of the runs; and so is a head.
pub fn records_are_read_in_parts()
    ensures head { (needed : Bool) (p : Place)
        → head_at calls needed p ≡ read_on (head_begun_at needed p) head_behind }
    ensures record { (behind : Behind) (p : Place)
        → record_at behind p ≡ read_on (begun_at behind p) begun_behind }
{}
