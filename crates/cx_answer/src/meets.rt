//! Whether a step is what a query asks for.

ghost use Rattle.std.specs.Prelude.{◌≡◌, ◌≤◌, IfSome, true};
ghost use Rattle.cx_hart.specs.WellFormed.{IsWellFormed};
ghost use Rattle.cx_answer.specs.AnswerOf;
ghost use Rattle.cx_answer.specs.AnswerOf.{is_of_writing, met_with};
ghost use Rattle.cx_answer.specs.Lines.{is_listed};

use crate::reply::Answer;
use cx_hart::{Ended, StepRec, Touch};
use cx_words::Query;

// Whether the byte at a place is one of so many from a first one on.
fn is_within(place: u32, first: u32, len: u32) -> bool
    ensures { result ≡ AnswerOf.within place first len }
{
    first <= place && (place as u64) < first as u64 + len as u64
}

fn touches(place: u32, touch: &Option<Touch>) -> bool
    ensures { result ≡ AnswerOf.touches place touch.now }
{
    match touch {
        None => false,
        Some(touch) => is_within(place, touch.pa, touch.len as u32),
    }
}

fn walks(place: u32, entries: &[u32]) -> bool
    ensures { result ≡ AnswerOf.walks place entries.now }
{
    entries.iter().any(|entry| is_within(place, *entry, 4))
}

fn stores(place: u32, rec: &StepRec) -> bool
    ensures { result ≡ AnswerOf.stores place rec.now }
{
    touches(place, &rec.write) || touches(place, &rec.write_more)
}

fn reads(place: u32, rec: &StepRec) -> bool
    requires { rec.now.walked ≤ 6 }
    ensures { result ≡ AnswerOf.reads place rec.now }
{
    touches(place, &rec.fetch)
        || touches(place, &rec.read)
        || touches(place, &rec.read_more)
        || walks(place, &rec.places[..rec.walked as usize])
}

fn is_trap(ended: Ended) -> bool
    ensures { result ≡ AnswerOf.is_trap ended }
{
    match ended {
        Ended::Retired => false,
        Ended::Trap(_) | Ended::Interrupt(_) => true,
    }
}

// Whether the step itself is what is asked for.
fn is_met(query: &Query, rec: &StepRec) -> bool
    requires { rec.now.walked ≤ 6 }
    ensures { result ≡ AnswerOf.is_met query.now rec.now }
{
    match query {
        Query::State(_) => false,
        Query::Writer(place, _) => stores(*place, rec),
        Query::Reader(place, _) => reads(*place, rec),
        Query::Trap(_) => is_trap(rec.ended),
    }
}

/// What answers a query at step n: the step, or else a transfer before it that is told to.
pub(crate) fn met_with(query: &Query, n: u64, covered: bool, rec: &StepRec) -> Option<Answer>
    requires walked { rec.now.walked ≤ 6 }
    requires asked { covered ≡ true → is_of_writing query.now ≡ true }
    ensures met { result ≡ met_with query.now n covered rec.now }
    ensures listed { IfSome result (λ a. is_listed query.now a ≡ true) }
{
    if is_met(query, rec) {
        Some(Answer::Step(n, rec.ended))
    } else if covered {
        Some(Answer::Dma(n))
    } else {
        None
    }
}
