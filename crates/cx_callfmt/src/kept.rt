//! Records that wait for the call before them to be written.

ghost use Rattle.std.specs.Prelude.{◌≡◌, [], ◌++◌, true, false, is_none, OnErr, OnOk};
ghost use Rattle.std.specs.List.{list_all};
ghost use Rattle.cx_slices.specs.Bytes.{BytesRise};
ghost use Rattle.cx_slicefmt.specs.Rules.{is_empty};
ghost use Rattle.cx_placing.specs.Records.{Async, Value, async_records, item_records, value_records};
ghost use Rattle.cx_callfmt.specs.Rules.{behind_start, may_come};
ghost use Rattle.cx_callfmt.specs.Text.{record_text, records_text};
ghost use Rattle.cx_callfmt.specs.Writing.{behind_records};

use crate::records::{put_async, put_value};
use cx_io::NoMemory;
use std::alloc::Global;
use std::marker::Model;

/// The text of records that wait, and where the next may stand. They take as many bytes as they will have in the slice.
/// Where memory is refused nothing changes.
#[derive(Drop)]
pub struct KeptRecords {
    text: Vec<u8>,
    index: u64,
    least: u8,
}

impl Model for KeptRecords {
    ghost use Rattle.cx_callfmt.specs.Writing.{Kept};

    ghost Value = { Kept };

    ghost view = { λ k. record { text = k.text.items; behind = record { index = k.index; least = k.least } } };
}

// Whether no word is there.
fn no_words(words: &[Option<u32>; 32]) -> bool
    ensures { result ≡ list_all is_none words.now }
{
    for word in words {
        if word.is_some() {
            return false;
        }
    }
    true
}

impl KeptRecords {
    /// None yet, behind the start of a slice.
    pub fn new(alloc: Global) -> KeptRecords
        ensures { result ≡ record { text = []; behind = behind_start } }
    {
        KeptRecords {
            text: Vec::new(alloc),
            index: 0,
            least: 0,
        }
    }

    /// Their text.
    pub fn text(&self) -> &[u8]
        ensures { result.now ≡ self.now.text }
    {
        self.text.as_slice()
    }

    /// The index of the last of them, or of the record before them, which is 0 where there is none.
    pub fn index(&self) -> u64
        ensures { result ≡ self.now.behind.index }
    {
        self.index
    }

    // The least rank that may stand at that index.
    pub(crate) fn least(&self) -> u8
        ensures { result ≡ self.now.behind.least }
    {
        self.least
    }

    /// Drops all of them and keeps the memory, for those behind the call at an index.
    pub fn restart(&mut self, index: u64)
        ensures { self.new ≡ record { text = []; behind = record { index = index; least = 3 } } }
    {
        self.text.clear();
        self.index = index;
        self.least = 3;
    }

    /// Puts the words and bytes that come before the step at an index; there is one of them at least. `NoMemory` comes
    /// where memory is refused.
    pub fn items(
        &mut self,
        index: u64,
        words: &[Option<u32>; 32],
        bytes: &[(u32, u8)],
    ) -> Result<(), NoMemory>
        requires comes { may_come self.old.behind 0 index ≡ true }
        requires rises { BytesRise 0 bytes.now }
        requires some { is_empty (record { words = words.now; bytes = bytes.now }) ≡ false }
        ensures text { OnOk result (self.new.text ≡ self.old.text ++ record_text self.old.behind.index
            (record { index = index; what = Async (record { words = words.now; bytes = bytes.now }) })) }
        ensures behind { OnOk result (self.new.behind ≡ record { index = index; least = 1 }) }
        ensures refused { OnErr result (self.new ≡ self.old) }
    {
        let kept = self.text.len();
        match put_async(&mut self.text, self.index, index, words, bytes, &mut ()) {
            Ok(()) => {
                self.index = index;
                self.least = 1;
                Ok(())
            }
            Err(_) => {
                self.text.truncate(kept);
                Err(NoMemory)
            }
        }
    }

    /// Puts the value that the step at an index is given. `NoMemory` comes where memory is refused.
    pub fn value(&mut self, index: u64, word: u32) -> Result<(), NoMemory>
        requires { may_come self.old.behind 1 index ≡ true }
        ensures text { OnOk result (self.new.text ≡ self.old.text
            ++ record_text self.old.behind.index (record { index = index; what = Value word })) }
        ensures behind { OnOk result (self.new.behind ≡ record { index = index; least = 2 }) }
        ensures refused { OnErr result (self.new ≡ self.old) }
    {
        let kept = self.text.len();
        match put_value(&mut self.text, self.index, index, word, &mut ()) {
            Ok(()) => {
                self.index = index;
                self.least = 2;
                Ok(())
            }
            Err(_) => {
                self.text.truncate(kept);
                Err(NoMemory)
            }
        }
    }

    // Puts the words and bytes, where there is one of them.
    fn items_if(
        &mut self,
        index: u64,
        words: &[Option<u32>; 32],
        bytes: &[(u32, u8)],
    ) -> Result<(), NoMemory>
        requires comes { may_come self.old.behind 0 index ≡ true }
        requires rises { BytesRise 0 bytes.now }
        ensures text { OnOk result (self.new.text ≡ self.old.text ++ records_text self.old.behind.index
            (async_records index (record { words = words.now; bytes = bytes.now }))) }
        ensures behind { OnOk result (self.new.behind ≡ behind_records self.old.behind
            (async_records index (record { words = words.now; bytes = bytes.now }))) }
        ensures refused { OnErr result (self.new ≡ self.old) }
    {
        if no_words(words) && bytes.is_empty() {
            return Ok(());
        }
        self.items(index, words, bytes)
    }

    // Puts the value, where there is one.
    fn value_if(&mut self, index: u64, given: Option<u32>) -> Result<(), NoMemory>
        requires { may_come self.old.behind 1 index ≡ true }
        ensures text { OnOk result (self.new.text
            ≡ self.old.text ++ records_text self.old.behind.index (value_records index given)) }
        ensures behind { OnOk result (self.new.behind ≡ behind_records self.old.behind (value_records index given)) }
        ensures refused { OnErr result (self.new ≡ self.old) }
    {
        match given {
            None => Ok(()),
            Some(word) => self.value(index, word),
        }
    }

    /// Puts what a step is handed: its words and bytes, where there is one of them, and its value, where it has one.
    /// `NoMemory` comes where memory is refused, and then none of it is put.
    pub fn step(
        &mut self,
        index: u64,
        words: &[Option<u32>; 32],
        bytes: &[(u32, u8)],
        given: Option<u32>,
    ) -> Result<(), NoMemory>
        requires comes { may_come self.old.behind 0 index ≡ true }
        requires rises { BytesRise 0 bytes.now }
        ensures text { OnOk result (self.new.text ≡ self.old.text ++ records_text self.old.behind.index
            (item_records index (record { words = words.now; bytes = bytes.now; given = given }))) }
        ensures behind { OnOk result (self.new.behind ≡ behind_records self.old.behind
            (item_records index (record { words = words.now; bytes = bytes.now; given = given }))) }
        ensures refused { OnErr result (self.new ≡ self.old) }
    {
        let size = self.text.len();
        let last = self.index;
        let least = self.least;
        self.items_if(index, words, bytes)?;
        match self.value_if(index, given) {
            Ok(()) => Ok(()),
            Err(fault) => {
                self.text.truncate(size);
                self.index = last;
                self.least = least;
                Err(fault)
            }
        }
    }
}
