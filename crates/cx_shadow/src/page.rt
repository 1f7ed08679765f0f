//! A page of a shadow.

ghost use Rattle.std.specs.Prelude.{◌≡◌, ◌≢◌, ◌<◌, ◌≤◌, ◌+◌, ℕ, length, None, Some, IfOk};
ghost use Rattle.cx_shadow.specs.Cells.{are_at, byte_in, bytes_of_page};
ghost use Rattle.cx_slices.specs.Bytes.{is_byte};

use cx_io::NoMemory;
use cx_map::PAGE_SIZE;
use std::alloc::Global;

/// How many bytes the marks of a page take, a bit each.
const MARK_BYTES: usize = PAGE_SIZE / 8;

/// The bytes of a page, and a mark for each that is there.
#[derive(Drop)]
pub(crate) struct Page {
    marks: [u8; MARK_BYTES],
    bytes: [u8; PAGE_SIZE],
}

impl Page {
    /// A page without a byte. `NoMemory` is free.
    pub(crate) fn blank(alloc: Global) -> Result<Box<Page>, NoMemory>
        ensures { IfOk result (λ page. (i : ℕ) → byte_in i page.value ≡ None) }
    {
        let page = Page {
            marks: [0; MARK_BYTES],
            bytes: [0; PAGE_SIZE],
        };
        match Box::new(alloc, page) {
            Ok(page) => Ok(page),
            Err(_) => Err(NoMemory),
        }
    }

    /// The byte at an offset in the page, where it is there.
    #[inline(always)]
    pub(crate) fn get(&self, offset: usize) -> Option<u8>
        requires { offset < PAGE_SIZE }
        ensures { result ≡ byte_in offset self.now }
    {
        if (self.marks[offset / 8] >> (offset % 8)) & 1 == 1 {
            Some(self.bytes[offset])
        } else {
            None
        }
    }

    // Whether this byte is at an offset in the page.
    #[inline(always)]
    fn is_at(&self, offset: usize, byte: u8) -> bool
        requires { offset < PAGE_SIZE }
        ensures { result ≡ is_byte (byte_in offset self.now) byte }
    {
        match self.get(offset) {
            None => false,
            Some(there) => there == byte,
        }
    }

    /// Whether these bytes are there, one behind another from an offset on.
    #[inline(always)]
    pub(crate) fn has(&self, offset: usize, bytes: &[u8]) -> bool
        requires { offset + length bytes.now ≤ PAGE_SIZE }
        ensures { result ≡ are_at (bytes_of_page self.now) offset bytes.now }
    {
        let mut at = offset;
        for byte in bytes {
            if !self.is_at(at, *byte) {
                return false;
            }
            at += 1;
        }
        true
    }

    /// Puts a byte at an offset in the page.
    #[inline(always)]
    pub(crate) fn put(&mut self, offset: usize, byte: u8)
        requires { offset < PAGE_SIZE }
        ensures here { byte_in offset self.new ≡ Some byte }
        ensures others { (i : ℕ) → i ≢ offset → byte_in i self.new ≡ byte_in i self.old }
    {
        self.marks[offset / 8] |= 1 << (offset % 8);
        self.bytes[offset] = byte;
    }
}
