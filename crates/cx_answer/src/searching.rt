//! Answering a query.

ghost use Rattle.std.specs.Prelude.{◌≡◌, ◌↔◌, ◌+◌, ◌-◌, ◌%◌, ◌<◌, ◌≤◌, Err, false, true, IfErr, IfOk, OnOk};
ghost use Rattle.cx_log.specs.Recording.{Recording};
ghost use Rattle.cx_seek.specs.Seeking.{IsOf, IsSameCourse, distance_in};
ghost use Rattle.cx_seek.specs.declared.fault.SeekFault.TheVariants as fault;
ghost use Rattle.cx_words.specs.declared.question.Query.TheVariants.{State as state};
ghost use Rattle.cx_answer.specs.AnswerOf;
ghost use Rattle.cx_answer.specs.AnswerOf.{answer_below, answer_of, is_query_there, most_ticks, step_of};
ghost use Rattle.cx_answer.specs.Lines.{is_listed};
ghost use Rattle.cx_answer.specs.declared.reply.Answer.TheVariants as reply;

use crate::reply::Answer;
use crate::stretch::scan;
use cx_hart::Steps;
use cx_map::{PAGE_SIZE, RAM_START};
use cx_seek::{SeekFault, Seeker};
use cx_words::Query;
use std::sync::ledger::Ledger;

// The step that is asked about.
fn step_of(query: &Query) -> u64
    ensures { result ≡ step_of query.now }
{
    match query {
        Query::State(n) | Query::Writer(_, n) | Query::Reader(_, n) | Query::Trap(n) => *n,
    }
}

// Whether a place is in so many pages of RAM.
fn is_in_ram(pages: u32, place: u32) -> bool
    ensures { result ≡ AnswerOf.is_in_ram pages place }
{
    place >= RAM_START && (place as u64) < RAM_START as u64 + pages as u64 * PAGE_SIZE as u64
}

fn is_place(pages: u32, query: &Query) -> bool
    ensures { result ≡ AnswerOf.is_place pages query.now }
{
    match query {
        Query::Writer(place, _) | Query::Reader(place, _) => is_in_ram(pages, *place),
        Query::State(_) | Query::Trap(_) => true,
    }
}

/// Whether a query's step is one of the recording or its end, and its place is in RAM.
pub fn is_query_there(seeker: &Seeker, query: &Query) -> bool
    ensures { result ≡ is_query_there seeker.now.course.base seeker.now.course.end seeker.now.course.pages query.now }
{
    let n = step_of(query);
    seeker.base() <= n && n <= seeker.end() && is_place(seeker.pages(), query)
}

// The step of the last checkpoint below a step.
#[tactic(auto, using(crate::proofs::Searches::is_multiple))]
fn checkpoint_before(base: u64, distance: u64, upto: u64) -> u64
    requires some { base < upto }
    requires apart { 0 < distance }
    ensures above { base ≤ result }
    ensures below { result < upto }
    ensures near { upto ≤ result + distance }
    ensures checkpoint { (result - base) % distance ≡ 0 }
{
    base + (upto - base - 1) / distance * distance
}

// The last of what answers a query before step n.
fn search<L: Ledger>(
    seeker: &mut Seeker,
    query: &Query,
    n: u64,
    steps: &mut Steps<L>,
) -> Result<Answer, SeekFault>
    requires above { seeker.old.course.base ≤ n }
    requires within { n ≤ seeker.old.course.end }
    requires asked { is_listed query.now reply.Nothing ≡ true }
    ensures run { (R : Recording) → IsOf R seeker.old → IsOf R seeker.new }
    ensures answer { (R : Recording) → IsOf R seeker.old → IfOk result (λ a. a ≡ answer_below R query.now n) }
    ensures listed { IfOk result (λ a. is_listed query.now a ≡ true) }
    ensures refused { IfErr result (λ e. e ≡ fault.NoMemory) }
    ensures same { IsSameCourse seeker.old seeker.new }
    ensures ticks { steps.new ≤ steps.old + most_ticks seeker.old.course.base (distance_in seeker.old) n result }
{
    let base = seeker.base();
    let distance = seeker.distance();
    let mut upto = n;
    while base < upto {
        let from = checkpoint_before(base, distance, upto);
        if let Some(answer) = scan(seeker, query, from, upto, steps)? {
            return Ok(answer);
        }
        upto = from;
    }
    Ok(Answer::Nothing)
}

// The state before step n.
fn state_at<L: Ledger>(
    seeker: &mut Seeker,
    n: u64,
    steps: &mut Steps<L>,
) -> Result<Answer, SeekFault>
    requires above { seeker.old.course.base ≤ n }
    requires within { n ≤ seeker.old.course.end }
    ensures run { (R : Recording) → IsOf R seeker.old → IsOf R seeker.new }
    ensures answer { (R : Recording) → IsOf R seeker.old
        → IfOk result (λ a. a ≡ answer_of R (state n)) }
    ensures listed { IfOk result (λ a. is_listed (state n) a ≡ true) }
    ensures refused { IfErr result (λ e. e ≡ fault.NoMemory) }
    ensures same { IsSameCourse seeker.old seeker.new }
    ensures ticks { steps.new ≤ steps.old + most_ticks seeker.old.course.base (distance_in seeker.old) n result }
{
    seeker.seek(n, steps)?;
    Ok(Answer::State(*seeker.state()))
}

/// The answer to a query: the state before its step; or the last step or transfer of a device below it that did what is
/// asked, where at one step the step is later than a transfer before it; or nothing. It takes fewer steps than lie
/// between two checkpoints for a state; for a step or a transfer at step m fewer than that and the steps from m on; and
/// else no more than lie behind the first step of the recording.
///
/// `NotThere` comes exactly where the query's step is none of the recording, nor its end, or where its place isn't in
/// RAM; nothing changes then. After `NoMemory` the seeker stands at another step.
#[tactic(auto, unfolding(crate::specs::AnswerOf::answer_of))]
pub fn answer<L: Ledger>(
    seeker: &mut Seeker,
    query: &Query,
    steps: &mut Steps<L>,
) -> Result<Answer, SeekFault>
    ensures run { (R : Recording) → IsOf R seeker.old → IsOf R seeker.new }
    ensures answer { (R : Recording) → IsOf R seeker.old → IfOk result (λ a. a ≡ answer_of R query.now) }
    ensures listed { IfOk result (λ a. is_listed query.now a ≡ true) }
    ensures not_there { (result ≡ Err fault.NotThere) ↔ (is_query_there seeker.old.course.base seeker.old.course.end
        seeker.old.course.pages query.now ≡ false) }
    ensures stays { result ≡ Err fault.NotThere → seeker.new ≡ seeker.old }
    ensures same { IsSameCourse seeker.old seeker.new }
    ensures ticks { steps.new ≤ steps.old
        + most_ticks seeker.old.course.base (distance_in seeker.old) (step_of query.now) result }
{
    if !is_query_there(seeker, query) {
        return Err(SeekFault::NotThere);
    }
    match query {
        Query::State(n) => state_at(seeker, *n, steps),
        Query::Writer(_, n) | Query::Reader(_, n) | Query::Trap(n) => search(
            seeker, query, *n, steps,
        ),
    }
}
