//! What stands of a program that runs alone from the items of its calls.

ghost use Rattle.std.specs.Prelude.{◌≡◌, ◌&&◌, IfOk, is_none};
ghost use Rattle.std.specs.List.{list_all};
ghost use Rattle.cx_observe.specs.User.{user};
ghost use Rattle.cx_placing.specs.Called.{handed};
ghost use Rattle.cx_placing.specs.CallsAlone.{is_settled, no_words_owed};
ghost use Rattle.cx_program.specs.Knowing.{known_by};
ghost use Rattle.cx_slices.specs.Bytes.{BytesRise};
ghost use Rattle.cx_slices.specs.Items.{start};

use crate::items::HeadItems;
use cx_alone::none_stands;
use cx_io::NoMemory;
use cx_marks::Marks;
use cx_program::Standing;
use std::alloc::Global;

/// What is known of the program; the words of the last head, where the step is the first behind it; whether that head's
/// bytes were new; the addresses of its bytes, those that were accessed since, and how many of the first are not among
/// the second.
#[derive(Drop)]
pub(crate) struct Called {
    pub(crate) standing: Standing,
    pub(crate) words: Option<[Option<u32>; 32]>,
    pub(crate) are_new: bool,
    pub(crate) head: Marks,
    pub(crate) touched: Marks,
    pub(crate) owes: u64,
}

/// Whether no word is new.
pub(crate) fn none_new(words: &[Option<u32>; 32]) -> bool
    ensures { result ≡ list_all is_none words.now }
{
    words.iter().all(|word| word.is_none())
}

// Whether no word waits for the next step.
fn no_words_owed(words: &Option<[Option<u32>; 32]>) -> bool
    ensures { result ≡ no_words_owed words.now }
{
    match words {
        None => true,
        Some(words) => none_new(words),
    }
}

impl Called {
    ghost use Rattle.cx_placing.specs.Called.{CallStanding};
    ghost use Rattle.cx_call_alone.specs.Standing.{IsStanding, head_held};

    /// Before the start is handed its head, all words are 0, and no byte is known.
    pub(crate) fn new(alloc: Global) -> Called
        ensures { known_by result.standing ≡ start user }
    {
        Called {
            standing: Standing::new(alloc),
            words: None,
            are_new: true,
            head: Marks::new(alloc),
            touched: Marks::new(alloc),
            owes: 0,
        }
    }

    /// Hands over a head, whose bytes rise. `NoMemory` is free.
    pub(crate) fn hand(&mut self, head: &HeadItems) -> Result<(), NoMemory>
        ensures { BytesRise 0 head.now.bytes.items
            → IfOk result (λ _. IsStanding (handed (head_held head.now) (known_by self.old.standing)) self.new) }
    {
        let bytes = head.bytes.as_slice();
        self.are_new = none_stands(&self.standing.shadow, bytes);
        self.standing.shadow.hold_all(bytes)?;
        self.standing.shadow.put_all(bytes);
        self.head.clear();
        self.head.hold_all(bytes)?;
        self.head.mark_all(bytes);
        self.touched.clear();
        self.owes = bytes.len() as u64;
        self.words = Some(head.words);
        Ok(())
    }

    /// Whether nothing is owed.
    pub(crate) fn is_settled(&self) -> bool
        ensures { (s : CallStanding) → IsStanding s self.now → result ≡ is_settled s }
    {
        self.owes == 0 && no_words_owed(&self.words)
    }
}
