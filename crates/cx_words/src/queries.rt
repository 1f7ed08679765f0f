//! The queries of `inspect`.

ghost use Rattle.std.specs.Prelude.{◌≡◌, ◌<◌, map, length, unwrap_or, [], None, slice_get, Some, IfSome, MatchOption};
ghost use Rattle.std.specs.String.{string_bytes};
ghost use Rattle.cx_words.specs.Queries;
ghost use Rattle.cx_words.specs.Queries.{in_front, queries_behind, queries_of};

use crate::arguments::word_number;
use crate::number::read_number;
use crate::question::Query;

/// How many queries the words are, where all of them are queries.
#[tactic(auto, unfolding(crate::specs::Queries::query_count, crate::specs::Queries::queries_of))]
pub(crate) fn query_count(words: &[String]) -> Option<usize>
    ensures { result ≡ Queries.query_count (map string_bytes words.now) }
{
    let mut rest = words;
    let mut count = 0;
    while !rest.is_empty() {
        let (_, behind) = first_query(rest)?;
        rest = behind;
        count += 1;
    }
    Some(count)
}

/// One query of the words of an `inspect`, the first of which is the name of the command.
#[tactic(auto, using(crate::proofs::QueryCounts::behind_name))]
pub fn query(words: &[String], index: usize) -> Query
    requires { index < length (queries_behind (map string_bytes words.now)) }
    ensures { slice_get (queries_behind (map string_bytes words.now)) index ≡ Some result }
{
    let [_, arguments @ ..] = words else {
        unreachable!();
    };
    nth(arguments, index)
}

// One query of words that are queries.
#[tactic(auto, using(crate::proofs::QueryCounts::one_by_one))]
fn nth(words: &[String], index: usize) -> Query
    requires { index < length (unwrap_or (queries_of (map string_bytes words.now)) []) }
    ensures { slice_get (unwrap_or (queries_of (map string_bytes words.now)) []) index ≡ Some result }
{
    let mut rest = words;
    for _ in 0..index {
        let (_, behind) = front(rest);
        rest = behind;
    }
    front(rest).0
}

// The query at the front of words that are queries, at least one, and the words behind it.
#[tactic(auto, unfolding(crate::specs::Queries::queries_of))]
fn front(words: &[String]) -> (Query, &[String])
    requires { 0 < length (unwrap_or (queries_of (map string_bytes words.now)) []) }
    ensures { queries_of (map string_bytes words.now) ≡ in_front result.0 (queries_of (map string_bytes result.1.now)) }
{
    match first_query(words) {
        Some(first) => first,
        None => unreachable!(),
    }
}

// The query at the front of the words, where one stands there, and the words behind it.
#[tactic(auto, unfolding(crate::specs::Queries::queries_of))]
fn first_query(words: &[String]) -> Option<(Query, &[String])>
    requires { 0 < length words.now }
    ensures shorter { IfSome result (λ first. length first.1.now < length words.now) }
    ensures query { MatchOption result (queries_of (map string_bytes words.now) ≡ None)
        (λ first. queries_of (map string_bytes words.now)
        ≡ in_front first.0 (queries_of (map string_bytes first.1.now))) }
{
    let [kind, number, rest @ ..] = words else {
        return None;
    };
    if let Some(query) = step_query(kind.as_str(), number.as_str()) {
        return Some((query, rest));
    }
    let [step, rest @ ..] = rest else {
        return None;
    };
    let query = place_query(kind.as_str(), number.as_str(), step.as_str())?;
    Some((query, rest))
}

fn step_query(kind: &str, step: &str) -> Option<Query>
    ensures { result ≡ Queries.step_query kind.now step.now }
{
    match kind {
        "state" => read_number(step).map(Query::State),
        "trap" => read_number(step).map(Query::Trap),
        _ => None,
    }
}

fn place_query(kind: &str, place: &str, step: &str) -> Option<Query>
    ensures { result ≡ Queries.place_query kind.now place.now step.now }
{
    if kind != "writer" && kind != "reader" {
        return None;
    }
    let place = word_number(place)?;
    let step = read_number(step)?;
    if kind == "writer" {
        Some(Query::Writer(place, step))
    } else {
        Some(Query::Reader(place, step))
    }
}
