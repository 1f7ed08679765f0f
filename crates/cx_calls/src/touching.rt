//! Whether all that a step accesses was accessed before.

ghost use Rattle.std.specs.Prelude.{◌≡◌, ◌≤◌, ◌+◌, ◌%◌, ◌&&◌, ℕ, List, length, true};
ghost use Rattle.cx_calls.specs.Gathers.{AllMarked};
ghost use Rattle.cx_marks.specs.Marked.{is_marked};
ghost use Rattle.cx_observe.specs.Seeing.{bytes_on, bytes_shown};
ghost use Rattle.cx_observe.specs.User.{user};
ghost use Rattle.cx_placing.specs.Touched.{accesses};

use cx_map::PAGE_SIZE;
use cx_marks::Marks;
use cx_observe::{Obs, Seen};
use cx_program::front;

// Whether so many addresses from one on, which lie on one page, were accessed, seen by one look.
#[inline]
fn has_run_on_page(touched: &Marks, va: u32, len: usize) -> bool
    requires few { len ≤ 4 }
    requires page { va % PAGE_SIZE + len ≤ PAGE_SIZE }
    ensures { result ≡ true → (bytes : List ℕ) → length bytes ≡ len
        → AllMarked (is_marked touched.now) (bytes_on va bytes) }
{
    touched.has_run(va, len)
}

// The same of any addresses. Where they lie on two pages, it isn't known.
#[inline]
fn has_run(touched: &Marks, va: u32, len: usize) -> bool
    ensures { result ≡ true → (bytes : List ℕ) → length bytes ≡ len
        → AllMarked (is_marked touched.now) (bytes_on va bytes) }
{
    if len > 4 || va as usize % PAGE_SIZE + len > PAGE_SIZE {
        return false;
    }
    has_run_on_page(touched, va, len)
}

// The same of an access.
#[inline]
fn has_access(touched: &Marks, access: &Option<Seen>) -> bool
    ensures { result ≡ true → AllMarked (is_marked touched.now) (bytes_shown access.now) }
{
    match access {
        None => true,
        Some(access) => has_run(touched, access.va, front(&access.bytes, access.len).len()),
    }
}

#[inline]
fn all_three(first: bool, second: bool, third: bool) -> bool
    ensures { result ≡ (first && (second && third)) }
{
    first && second && third
}

/// Whether all addresses of a step are marked. Where one of its accesses crosses a page, it may answer that they aren't.
pub(crate) fn all_touched(touched: &Marks, obs: &Obs) -> bool
    ensures { result ≡ true → (a : ℕ) → accesses user obs.now a ≡ true → is_marked touched.now a ≡ true }
{
    let word = has_run(touched, obs.pc, 4);
    let read = has_access(touched, &obs.read);
    let write = has_access(touched, &obs.write);
    all_three(word, read, write)
}
