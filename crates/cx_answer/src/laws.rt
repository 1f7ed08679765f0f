//! Laws of answers.

ghost use Rattle.std.specs.Prelude.{◌≡◌, ◌+◌, ◌-◌, ℕ, IsSome, Option, None, Some, true};
ghost use Rattle.cx_hart.specs.HartStep.{hart_step};
ghost use Rattle.cx_log.specs.Recording.{Recording};
ghost use Rattle.cx_run.specs.Run.{run_of};
ghost use Rattle.cx_words.specs.declared.question.Query.{Query};
ghost use Rattle.cx_answer.specs.AnswerOf.{answer_of, is_query_there};
ghost use Rattle.cx_answer.specs.Latest.{IsLatest, IsNoneMet, latest, or_earlier};
ghost use Rattle.cx_answer.specs.Lines.{is_listed};

/// The last of what is met on a stretch is met at a place of it, and nothing behind it; there is none exactly where
/// nothing is met. It is the last of the rear part, and where nothing is met there the last of the front: so searching
/// one part after the other, from the rear, finds it.
pub fn intervals_are_searched_backwards<X>()
    ensures joined { (met : ℕ → Option X) (first m n : ℕ)
        → latest met first (m + n) ≡ or_earlier (latest met (first + m) n) (latest met first m) }
    ensures last { (met : ℕ → Option X) (first n : ℕ) (x : X)
        → latest met first n ≡ Some x → IsLatest met first n x }
    ensures is_found { (met : ℕ → Option X) (first n : ℕ) (x : X)
        → IsLatest met first n x → latest met first n ≡ Some x }
    ensures none { (met : ℕ → Option X) (first n : ℕ)
        → latest met first n ≡ None → IsNoneMet met first n }
    ensures none_is_found { (met : ℕ → Option X) (first n : ℕ)
        → IsNoneMet met first n → latest met first n ≡ None }
{}

/// The answer to a query of which the step and the place are in a recording, each step of which is carried out, is one
/// that has a line.
pub fn answers_have_lines()
    ensures { (R : Recording) (query : Query) → IsSome (run_of (hart_step R.split) R (R.end - R.base))
        → is_query_there R.base R.end R.pages query ≡ true → is_listed query (answer_of R query) ≡ true }
{}
