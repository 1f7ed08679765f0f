//! Marks of the pages that steps read.

ghost use Rattle.std.specs.Prelude.{◌≡◌, ℕ, ◌/◌, ◌*◌, ◌<◌, ◌≤◌, ◌==◌, ◌||◌, false, length, replicate, slice_index_or};
ghost use Rattle.std.specs.Prelude.{IfOk};
ghost use Rattle.cx_hart.specs.Reads.{entry_indices, ram_indices, read_indices, touch_indices};
ghost use Rattle.cx_window.specs.Marks.{AddsMarks};

use cx_hart::{StepRec, Touch};
use cx_io::NoMemory;
use cx_map::{PAGE_SIZE, RAM_START};
use std::alloc::Global;

/// A mark for each page, none of them set.
pub(crate) fn blank(alloc: Global, pages: u32) -> Result<Vec<bool>, NoMemory>
    ensures { IfOk result (λ v. v.items ≡ replicate pages false) }
{
    match vec![in alloc; false; pages as usize] {
        Ok(marks) => Ok(marks),
        Err(_) => Err(NoMemory),
    }
}

// Marks a page, where it has a mark.
fn mark_page(marks: &mut [bool], page: usize)
    ensures size { length marks.new ≡ length marks.old }
    ensures marked { (k : ℕ) → k < length marks.old
        → slice_index_or marks.new k false ≡ (slice_index_or marks.old k false || page == k) }
{
    if page < marks.len() {
        marks[page] = true;
    }
}

// Marks the pages of the bytes from a place on. Those of a device, below RAM, have none. They are so few that no page
// lies between that of the first and that of the last.
fn mark_bytes(marks: &mut [bool], place: u32, len: u8)
    ensures { AddsMarks marks.old marks.new (ram_indices place len) }
{
    if place < RAM_START || len == 0 {
        return;
    }
    let first = (place - RAM_START) as usize;
    let last = first + (len - 1) as usize;
    mark_page(marks, first / PAGE_SIZE);
    mark_page(marks, last / PAGE_SIZE);
}

// Marks the pages of the bytes that were read so.
fn mark_touch(marks: &mut [bool], touch: Option<Touch>)
    ensures { AddsMarks marks.old marks.new (touch_indices touch) }
{
    if let Some(touch) = touch {
        mark_bytes(marks, touch.pa, touch.len);
    }
}

// Marks the pages of the entries of page tables at these places.
fn mark_entries(marks: &mut [bool], places: &[u32])
    ensures { AddsMarks marks.old marks.new (entry_indices places.now) }
{
    for n in 0..places.len() {
        mark_bytes(marks, places[n], 4);
    }
}

/// Marks the pages of all bytes of RAM that a step read: of its word, of what its instruction read, and of entries of
/// page tables.
#[tactic(auto, unfolding(cx_hart::specs::Reads::read_indices))]
pub(crate) fn mark_reads(marks: &mut [bool], rec: &StepRec)
    requires { rec.now.walked ≤ 6 }
    ensures { AddsMarks marks.old marks.new (read_indices rec.now) }
{
    mark_touch(marks, rec.fetch);
    mark_touch(marks, rec.read);
    mark_touch(marks, rec.read_more);
    mark_entries(marks, &rec.places[..rec.walked as usize]);
}
