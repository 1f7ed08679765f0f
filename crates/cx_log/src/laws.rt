//! Laws of recordings: text and reading agree, part by part and as a whole, and a scan goes record by record.

ghost use Rattle.std.specs.Prelude.{◌≡◌, ℕ, ◌^◌, ◌≤◌, [], ◌++◌, List, length, replicate, Ok, Err};
ghost use Rattle.cx_map.specs.Bytes.{AreBytes};
ghost use Rattle.cx_map.specs.Map.{IsPageCount, size_of_pages};
ghost use Rattle.cx_codec.specs.Place.{Place, Takes};
ghost use Rattle.cx_machine.specs.Machine.{IsMemory};
ghost use Rattle.cx_log.specs.declared.header.Header.{Header};
ghost use Rattle.cx_log.specs.Order.{Behind, InOrder, IsHeader, KeepsRules, MayEnd, MayFollow, behind_it};
ghost use Rattle.cx_log.specs.Reading.{header_at, pages_at, start_of};
ghost use Rattle.cx_log.specs.Recording.{Recorded, Recording};
ghost use Rattle.cx_log.specs.Records.{Put, Ends, record_at};
ghost use Rattle.cx_log.specs.Scan.{recording_at, scan, with_record};
ghost use Rattle.cx_log.specs.Text.{behind_magic, end_text, page_count, pages_text, record_text, records_text};
ghost use Rattle.cx_log.specs.Text.{recording_text};

/// A record that may stand behind others is read back from its text, and so is End.
pub fn records_read_back()
    ensures put { (pages : ℕ) (behind : Behind) (r : Recorded) (p after : Place) → IsPageCount pages
        → MayFollow pages behind r → Takes p (record_text behind.step r) after
        → record_at pages behind p ≡ Ok (Put r, after) }
    ensures ends { (pages : ℕ) (behind : Behind) (end : ℕ) (p after : Place) → MayEnd behind end
        → Takes p (end_text behind.step end) after → record_at pages behind p ≡ Ok (Ends end, after) }
{}

/// What is read as a record may stand behind those before it, and is its text. The same holds of End.
pub fn records_have_one_text()
    ensures put { (pages : ℕ) (behind : Behind) (r : Recorded) (p after : Place) → AreBytes p.ahead
        → record_at pages behind p ≡ Ok (Put r, after)
        → MayFollow pages behind r × Takes p (record_text behind.step r) after }
    ensures ends { (pages : ℕ) (behind : Behind) (end : ℕ) (p after : Place) → AreBytes p.ahead
        → record_at pages behind p ≡ Ok (Ends end, after)
        → MayEnd behind end × Takes p (end_text behind.step end) after }
{}

/// Records in order are scanned whole from their text.
pub fn records_are_scanned()
    ensures { (pages : ℕ) (behind : Behind) (events : List Recorded) (end : ℕ) (p after : Place) → IsPageCount pages
        → InOrder pages behind events end → Takes p (records_text behind.step events end) after
        → scan pages behind p ≡ record { events = events; upto = end; stop = Ok after } }
{}

/// What is scanned to End is records in order, and is their text.
pub fn scanned_records_have_one_text()
    ensures { (pages : ℕ) (behind : Behind) (p after : Place) → AreBytes p.ahead → (scan pages behind p).stop ≡ Ok after
        → let s = scan pages behind p in
        InOrder pages behind s.events s.upto × Takes p (records_text behind.step s.events s.upto) after }
{}

/// A scan goes record by record: a record stands in front of those behind it, End ends it, and so does the first bad
/// field.
pub fn scans_go_record_by_record()
    ensures put { (pages : ℕ) (behind : Behind) (r : Recorded) (p q : Place) → AreBytes p.ahead
        → record_at pages behind p ≡ Ok (Put r, q)
        → scan pages behind p ≡ with_record r (scan pages (behind_it behind r) q) }
    ensures ends { (pages : ℕ) (behind : Behind) (end : ℕ) (p q : Place) → AreBytes p.ahead
        → record_at pages behind p ≡ Ok (Ends end, q)
        → scan pages behind p ≡ record { events = []; upto = end; stop = Ok q } }
    ensures bad { (pages : ℕ) (behind : Behind) (o : ℕ) (p : Place) → record_at pages behind p ≡ Err o
        → scan pages behind p ≡ record { events = []; upto = behind.step; stop = Err o } }
{}

/// A header that keeps the rules is read back from its text, and what is read as one keeps the rules and is its text.
pub fn headers_read_back()
    ensures again { (h : Header) (p after : Place) → IsHeader h → Takes p (behind_magic h) after
        → header_at p ≡ Ok (h, after) }
    ensures once { (h : Header) (p after : Place) → AreBytes p.ahead → header_at p ≡ Ok (h, after)
        → IsHeader h × Takes p (behind_magic h) after }
{}

/// The pages of a memory are read back from their text. What is read as so many pages is the text of the memory that
/// they make, of which so many pages aren't all zero.
pub fn pages_read_back()
    ensures again { (pages : ℕ) (memory : List ℕ) (p after : Place) → IsPageCount pages → IsMemory pages memory
        → Takes p (pages_text memory pages) after
        → pages_at pages (page_count memory pages) 0 (replicate (size_of_pages pages) 0) p ≡ Ok (memory, after) }
    ensures once { (pages count : ℕ) (p after : Place) (memory : List ℕ) → IsPageCount pages → AreBytes p.ahead
        → pages_at pages count 0 (replicate (size_of_pages pages) 0) p ≡ Ok (memory, after)
        → IsMemory pages memory × (page_count memory pages ≡ count) × Takes p (pages_text memory pages) after }
{}

/// A recording that keeps the rules is read back from its text, whatever stands behind it.
pub fn recordings_read_back()
    ensures { (R : Recording) (p after : Place) → KeepsRules R → Takes p (recording_text R) after
        → (end : Place) × (recording_at p ≡ Ok (R, end)) × (end.at ≡ after.at) × (end.ahead ≡ after.ahead) }
{}

/// What is read as a recording keeps the rules and is its text. Recordings with one text are one recording, and two
/// inputs that are read as one recording up to their ends are the same bytes. No text is longer than an input may be.
pub fn recordings_have_one_text()
    ensures rules { (R : Recording) (p after : Place) → AreBytes p.ahead → recording_at p ≡ Ok (R, after)
        → KeepsRules R }
    ensures text { (R : Recording) (p after : Place) → AreBytes p.ahead → recording_at p ≡ Ok (R, after)
        → p.ahead ≡ recording_text R ++ after.ahead }
    ensures one { (R S : Recording) → KeepsRules R → KeepsRules S → recording_text R ≡ recording_text S → R ≡ S }
    ensures once { (R : Recording) (bytes more : List ℕ) (p q : Place) → AreBytes bytes → AreBytes more
        → recording_at (start_of bytes) ≡ Ok (R, p) → recording_at (start_of more) ≡ Ok (R, q)
        → p.ahead ≡ [] → q.ahead ≡ [] → bytes ≡ more }
    ensures size { (R : Recording) → KeepsRules R → length (recording_text R) ≤ 2 ^ 60 }
{}
