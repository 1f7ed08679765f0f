//! Laws of process slices: text and reading agree, part by part and as a whole, and a scan goes group by group.

ghost use Rattle.std.specs.Prelude.{◌≡◌, ℕ, suc, ◌+◌, ◌-◌, ◌^◌, ◌<◌, ◌≤◌, nat_lt, List, [], ◌∷◌, ◌++◌, length};
ghost use Rattle.std.specs.Prelude.{None, Some, Ok, Err};
ghost use Rattle.std.specs.List.{AllByRecursion};
ghost use Rattle.cx_map.specs.Bytes.{AreBytes};
ghost use Rattle.cx_codec.specs.Again.{IsCut, Once, ReadsAs};
ghost use Rattle.cx_codec.specs.Checks.{close_at};
ghost use Rattle.cx_codec.specs.Place.{Place, Takes, end_of};
ghost use Rattle.cx_slices.specs.Groups.{AreGroups, Group, GroupsRise};
ghost use Rattle.cx_slices.specs.Items.{ItemsFit};
ghost use Rattle.cx_slicefmt.specs.Reading.{entry_at, next_at};
ghost use Rattle.cx_slicefmt.specs.Rules.{
  AreSpelled,
  EndAt,
  EntryStands,
  Form,
  GroupOf,
  IsEnd,
  IsGroup,
  process,
};
ghost use Rattle.cx_slicefmt.specs.Scan.{
  IsWholeScan,
  by_end,
  groups_within,
  scan_groups,
  scan_of,
  slice_scan,
  stopped_at,
  with_group,
};
ghost use Rattle.cx_slicefmt.specs.Text.{
  ended_text,
  group_text,
  groups_text,
  least_behind,
  slice_body,
  slice_end_text,
  slice_entry_text,
  slice_magic,
  slice_text,
};

/// A group that can be spelled is read back from its text, and so is an end. An input that ends inside it is bad at
/// its end.
pub fn groups_read_back()
    ensures group { (form : Form) (least : ℕ) (g : Group ℕ) → form.runs < 2 ^ 64 → IsGroup form least g
        → ReadsAs (entry_at form least) (group_text least g) (GroupOf g) }
    ensures end { (form : Form) (least count : ℕ) → IsEnd least count
        → ReadsAs (entry_at form least) (slice_end_text least count) (EndAt count) }
{}

/// What is read as a group or an end can be spelled so, and is its text.
pub fn groups_have_one_text()
    ensures { (form : Form) (least : ℕ) → Once (entry_at form least) (EntryStands form least) (slice_entry_text least) }
{}

/// Groups that can be spelled are scanned from their text, whatever follows the end, and nothing may follow it.
pub fn slices_read_back()
    ensures scan { (form : Form) (most least : ℕ) (gs : List (Group ℕ)) (count : ℕ) (p after : Place)
        → form.runs < 2 ^ 64 → AreSpelled form least gs count → Takes p (ended_text least gs count) after
        → length p.ahead < most → groups_within most form least p ≡ scan_of least gs count (close_at after) }
    ensures whole { (least : ℕ) (gs : List (Group ℕ)) (count : ℕ) (x : Unit {0} × Place)
        → scan_of least gs count (Ok x) ≡ record { groups = gs; upto = count; bad = None } }
    ensures cut { (form : Form) (most least : ℕ) (gs : List (Group ℕ)) (count : ℕ) (p : Place) → form.runs < 2 ^ 64
        → AreSpelled form least gs count → IsCut p (ended_text least gs count) → length p.ahead < most
        → (groups_within most form least p).bad ≡ Some (end_of p) }
{}

/// What is scanned with no bad field is groups that can be spelled, and is their text.
pub fn slices_have_one_text()
    ensures { (form : Form) (most least : ℕ) (p : Place) → AreBytes p.ahead
        → (groups_within most form least p).bad ≡ None
        → IsWholeScan form least p (groups_within most form least p) }
{}

/// Texts of slices are of one slice, and none is a front of another.
pub fn no_slice_is_a_front()
    ensures { (form : Form) (least : ℕ) (gs hs : List (Group ℕ)) (m n : ℕ) (more : List ℕ) → form.runs < 2 ^ 64
        → AreSpelled form least gs m → AreSpelled form least hs n
        → ended_text least gs m ++ more ≡ ended_text least hs n → (gs ≡ hs) × (m ≡ n) × (more ≡ []) }
{}

/// A scan goes group by group, and its indices rise.
pub fn scans_go_group_by_group()
    ensures put { (form : Form) (least : ℕ) (g : Group ℕ) (p q : Place) → AreBytes p.ahead
        → entry_at form least p ≡ Ok (GroupOf g, q)
        → scan_groups form least p ≡ with_group g (scan_groups form (suc g.index) q) }
    ensures ends { (form : Form) (least count : ℕ) (p q : Place) → entry_at form least p ≡ Ok (EndAt count, q)
        → scan_groups form least p ≡ by_end least count (close_at q) }
    ensures bad { (form : Form) (least o : ℕ) (p : Place) → entry_at form least p ≡ Err o
        → scan_groups form least p ≡ stopped_at least o }
    ensures next { (form : Form) (least o : ℕ) (p : Place) → next_at form least p ≡ Err o
        → scan_groups form least p ≡ stopped_at least o }
    ensures rises { (form : Form) (least : ℕ) (p : Place) → AreBytes p.ahead
        → GroupsRise least (scan_groups form least p).groups }
    ensures upto { (form : Form) (least : ℕ) (p : Place) → AreBytes p.ahead
        → least - 1 ≤ (scan_groups form least p).upto }
{}

/// The groups of a run can be spelled as a process slice, where they fit and no group has more than eight bytes.
pub fn groups_are_spelled()
    ensures { (k count : ℕ) (gs : List (Group ℕ)) → count ≤ 2 ^ 48 → (gs ≡ [] → (1 ≤ k) × (k ≤ count))
        → AreGroups 32 k count gs → AllByRecursion (λ g. ItemsFit (λ word. nat_lt word (2 ^ 32)) g.items) gs
        → AllByRecursion (λ g. length g.items.bytes ≤ 8) gs → AreSpelled process k gs count }
{}

/// The text of groups grows by that of one more, and that of the end stands behind it.
pub fn texts_grow_by_one_group()
    ensures more { (least : ℕ) (gs : List (Group ℕ)) (g : Group ℕ)
        → groups_text least (gs ++ g ∷ []) ≡ groups_text least gs ++ group_text (least_behind least gs) g }
    ensures least { (least : ℕ) (gs : List (Group ℕ)) (g : Group ℕ)
        → least_behind least (gs ++ g ∷ []) ≡ suc g.index }
    ensures body { (gs : List (Group ℕ)) (g : Group ℕ)
        → slice_body (gs ++ g ∷ []) ≡ slice_body gs ++ group_text (least_behind 0 gs) g }
    ensures end { (gs : List (Group ℕ)) (count : ℕ)
        → slice_text gs count ≡ slice_body gs ++ slice_end_text (least_behind 0 gs) count }
{}

/// A process slice that can be spelled is read back from its text, and each proper front of it that has the magic is
/// bad at its length. What is read with no bad field can be spelled, and is its text.
pub fn process_slices_have_one_text()
    ensures again { (gs : List (Group ℕ)) (count : ℕ) (bytes : List ℕ) → AreSpelled process 0 gs count
        → slice_magic ++ bytes ≡ slice_text gs count
        → slice_scan bytes ≡ record { groups = gs; upto = count; bad = None } }
    ensures cut { (gs : List (Group ℕ)) (count : ℕ) (bytes more : List ℕ) → AreSpelled process 0 gs count
        → (slice_magic ++ bytes) ++ more ≡ slice_text gs count → 1 ≤ length more
        → (slice_scan bytes).bad ≡ Some (length (slice_magic ++ bytes)) }
    ensures spelled { (bytes : List ℕ) → AreBytes bytes → (slice_scan bytes).bad ≡ None
        → AreSpelled process 0 (slice_scan bytes).groups (slice_scan bytes).upto }
    ensures text { (bytes : List ℕ) → AreBytes bytes → (slice_scan bytes).bad ≡ None
        → slice_text (slice_scan bytes).groups (slice_scan bytes).upto ≡ slice_magic ++ bytes }
    ensures size { (gs : List (Group ℕ)) (count : ℕ) → AreSpelled process 0 gs count
        → length (slice_text gs count) ≤ 2 ^ 58 }
{}
