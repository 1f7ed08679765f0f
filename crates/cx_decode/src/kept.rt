//! Words that were decoded before, kept with what they are.
//!
//! A program comes to the same few words again and again, and to find the row of a word takes two dozen instructions of
//! the processor and more. So a table keeps each word with its instruction, which took a step in machine mode from 429
//! of them to 406 (`cx_bench`, by callgrind). Decoding depends on the word alone: no entry is ever wrong, whatever
//! becomes of the memory that the word was read from, and none has to be dropped.

ghost use Rattle.std.specs.Prelude.{◌≡◌, ◌<◌, IfSome};
ghost use Rattle.cx_decode.specs.Decoding.{decoded};
ghost use Rattle.cx_decode.specs.Groups.{group_of, instruction_of};
ghost use Rattle.cx_decode.specs.WellFormed.{WellFormed};

use crate::decoder::decode;
use crate::group::Group;
use crate::ins::Ins;
use std::alloc::{AllocError, Global};
use std::marker::Model;

/// How many words the table has room for.
const PLACES: usize = 1024;

/// Spreads words over the table: the top bits of the product are the place. None of the 17 words of the bench's loop
/// share a place by it; of another odd constant two did, which cost 9 instructions of the processor a step.
const SPREAD: u32 = 0x85eb_ca6b;

/// An instruction with its group.
#[derive(Clone, Copy, Debug, PartialEq, Eq)]
pub struct Known {
    /// The instruction.
    pub ins: Ins,
    /// The group of its row.
    pub group: Group,
}

/// A word, and its instruction where it is one.
#[derive(Clone, Copy)]
struct KeptWord {
    word: u32,
    known: Option<Known>,
}

/// A decoder that keeps the words that it came across. It answers as `decode` does.
#[derive(Drop)]
pub struct Decoder {
    words: Vec<KeptWord>,
}

impl Model for Decoder {
    ghost use Rattle.std.specs.Prelude.{◌≡◌, All, vec_len};
    ghost use Rattle.cx_decode.specs.KeptWords.{IsKept};

    ghost Value = { Unit {0} };

    ghost view = { λ d. tt };

    ghost invariant = { λ d. (vec_len d.words ≡ 1024) × All IsKept d.words.items };
}

/// The instruction of a word, with its group.
#[inline(never)]
fn look_up(word: u32) -> Option<Known>
    ensures word { instruction_of result ≡ decoded word }
    ensures group { IfSome result (λ k. k.group ≡ group_of k.ins.op) }
    ensures formed { IfSome result (λ k. WellFormed k.ins) }
{
    match decode(word) {
        Some(ins) => Some(Known {
            ins,
            group: ins.op.group(),
        }),
        None => None,
    }
}

impl Decoder {
    /// A decoder that came across no word but 0. The error is that memory was refused.
    pub fn new(alloc: Global) -> Result<Decoder, AllocError> {
        let zero = KeptWord {
            word: 0,
            known: look_up(0),
        };
        let words = vec![in alloc; zero; PLACES]?;
        Ok(Decoder { words })
    }

    /// The instruction that a word spells, with its group; None where no row of the table of instructions matches it.
    #[inline(always)]
    pub fn decode(&mut self, word: u32) -> Option<Known>
        ensures word { instruction_of result ≡ decoded word }
        ensures group { IfSome result (λ k. k.group ≡ group_of k.ins.op) }
        ensures formed { IfSome result (λ k. WellFormed k.ins) }
    {
        let place = (word.wrapping_mul(SPREAD) >> 22) as usize;
        let kept = self.words[place];
        if kept.word == word {
            return kept.known;
        }
        self.keep(place, word)
    }

    /// Keeps a word in the place of another.
    #[cold]
    #[inline(never)]
    fn keep(&mut self, place: usize, word: u32) -> Option<Known>
        requires { place < 1024 }
        ensures word { instruction_of result ≡ decoded word }
        ensures group { IfSome result (λ k. k.group ≡ group_of k.ins.op) }
        ensures formed { IfSome result (λ k. WellFormed k.ins) }
    {
        let known = look_up(word);
        self.words[place] = KeptWord { word, known };
        known
    }
}
