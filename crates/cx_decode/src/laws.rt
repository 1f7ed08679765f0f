//! What follows of the table: at most one row matches a word, and words and instructions go round.

ghost use Rattle.std.specs.Prelude.{◌≡◌, ℕ, Some, IfSome, IfNone};
ghost use Rattle.cx_decode.specs.Table.{Matches, MatchesNone};
ghost use Rattle.cx_decode.specs.WellFormed.{WellFormed};
ghost use Rattle.cx_decode.specs.declared.op.Op.{Op};

use crate::decoder::decode;
use crate::encoder::encode;
use crate::ins::Ins;

/// At most one row matches any word.
#[tactic(auto, using(crate::proofs::Table::matches_unique))]
pub fn rows_are_apart()
    ensures { (word : ℕ) (op other : Op) → Matches word op → Matches word other → op ≡ other }
{}

/// A well-formed instruction comes back from its word.
pub fn decode_of_encode(ins: Ins) -> Option<Ins>
    requires { WellFormed ins }
    ensures { result ≡ Some ins }
{
    decode(encode(ins))
}

/// A word comes back from its instruction, wherever it has one.
pub fn encode_of_decode(word: u32) -> Option<u32>
    ensures some { IfSome result (λ again. again ≡ word) }
    ensures none { IfNone result (MatchesNone word) }
{
    match decode(word) {
        Some(ins) => Some(encode(ins)),
        None => None,
    }
}
