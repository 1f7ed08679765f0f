//! Searching a stretch of steps.

ghost use Rattle.std.specs.Bool.{OnTrue};
ghost use Rattle.std.specs.Prelude.{◌≡◌, ◌+◌, ◌-◌, ◌%◌, ◌<◌, ◌≤◌, IfErr, IfOk, IfSome, OnOk, true};
ghost use Rattle.cx_log.specs.Recording.{Recording};
ghost use Rattle.cx_run.specs.Due.{due_at};
ghost use Rattle.cx_seek.specs.Seeking.{IsOf, IsSameCourse, distance_in};
ghost use Rattle.cx_seek.specs.declared.fault.SeekFault.TheVariants as fault;
ghost use Rattle.cx_answer.specs.AnswerOf.{IsBetween, found_between, is_covered, is_of_writing, met_at};
ghost use Rattle.cx_answer.specs.Latest.{or_earlier};
ghost use Rattle.cx_answer.specs.Lines.{is_listed};

use crate::meets::met_with;
use crate::reply::Answer;
use cx_hart::{StepRec, Steps};
use cx_io::NoMemory;
use cx_seek::{SeekFault, Seeker};
use cx_words::Query;
use std::sync::ledger::Ledger;

// Whether a transfer before the next step answers a query.
fn is_covered(seeker: &Seeker, query: &Query) -> bool
    requires { seeker.now.player.at < seeker.now.course.end }
    ensures covered { (R : Recording) → IsOf R seeker.now
        → result ≡ is_covered query.now (due_at R.events seeker.now.player.at).transfers }
    ensures asked { result ≡ true → is_of_writing query.now ≡ true }
{
    match query {
        Query::Writer(place, _) => seeker.dma_covers(*place),
        Query::State(_) | Query::Reader(_, _) | Query::Trap(_) => false,
    }
}

// Takes the next step, and tells what answers a query there.
fn meet<L: Ledger>(
    seeker: &mut Seeker,
    query: &Query,
    rec: &mut StepRec,
    steps: &mut Steps<L>,
) -> Result<Option<Answer>, NoMemory>
    requires { seeker.old.player.at < seeker.old.course.end }
    ensures run { (R : Recording) → IsOf R seeker.old → IsOf R seeker.new }
    ensures met { (R : Recording) → IsOf R seeker.old
        → IfOk result (λ met. met ≡ met_at R query.now seeker.old.player.at) }
    ensures between { IfOk result (λ met. IfSome met (IsBetween seeker.old.player.at (seeker.old.player.at + 1))) }
    ensures listed { IfOk result (λ met. IfSome met (λ a. is_listed query.now a ≡ true)) }
    ensures at { OnOk result (seeker.new.player.at ≡ seeker.old.player.at + 1) }
    ensures same { IsSameCourse seeker.old seeker.new }
    ensures ticks { steps.new ≤ steps.old + 1 }
{
    let n = seeker.at();
    let covered = is_covered(seeker, query);
    if !seeker.forward_into(rec, steps)? {
        return Ok(None);
    }
    Ok(met_with(query, n, covered, rec))
}

// The later of two, where there is one.
fn later_of(later: Option<Answer>, earlier: Option<Answer>) -> Option<Answer>
    ensures { result ≡ or_earlier later earlier }
{
    match later {
        Some(answer) => Some(answer),
        None => earlier,
    }
}

/// The last of what answers a query from the step of a checkpoint on and below another step. After `NoMemory` the seeker
/// stands at another step.
pub(crate) fn scan<L: Ledger>(
    seeker: &mut Seeker,
    query: &Query,
    from: u64,
    upto: u64,
    steps: &mut Steps<L>,
) -> Result<Option<Answer>, SeekFault>
    requires above { seeker.old.course.base ≤ from }
    requires some { from < upto }
    requires within { upto ≤ seeker.old.course.end }
    requires checkpoint { (from - seeker.old.course.base) % distance_in seeker.old ≡ 0 }
    ensures run { (R : Recording) → IsOf R seeker.old → IsOf R seeker.new }
    ensures found { (R : Recording) → IsOf R seeker.old
        → IfOk result (λ found. found ≡ found_between R query.now from upto) }
    ensures between { IfOk result (λ found. IfSome found (IsBetween from upto)) }
    ensures listed { IfOk result (λ found. IfSome found (λ a. is_listed query.now a ≡ true)) }
    ensures refused { IfErr result (λ e. e ≡ fault.NoMemory) }
    ensures same { IsSameCourse seeker.old seeker.new }
    ensures ticks { steps.new ≤ steps.old + (upto - from) }
{
    seeker.seek(from, steps)?;
    let mut rec = StepRec::BLANK;
    let mut found = None;
    for _ in from..upto {
        let met = meet(seeker, query, &mut rec, steps)?;
        found = later_of(met, found);
    }
    Ok(found)
}
