//! The queries of an `inspect`.

ghost use Rattle.std.specs.List.{list_all};
ghost use Rattle.std.specs.Prelude.{◌≡◌, IfOk, length, map};
ghost use Rattle.std.specs.String.{string_bytes};
ghost use Rattle.cx_answer.specs.AnswerOf.{is_query_there};
ghost use Rattle.cx_words.specs.Queries.{queries_behind};

use cx_answer::is_query_there;
use cx_io::NoMemory;
use cx_seek::Seeker;
use cx_words::{Query, query};
use std::alloc::Global;

/// The queries of the words of an `inspect`, the first of which is the name of the command. `NoMemory` is free.
pub(crate) fn read_queries(
    alloc: Global,
    words: &[String],
    count: usize,
) -> Result<Vec<Query>, NoMemory>
    requires { count ≡ length (queries_behind (map string_bytes words.now)) }
    ensures { IfOk result (λ queries. queries.items ≡ queries_behind (map string_bytes words.now)) }
{
    let mut queries = Vec::new(alloc);
    for index in 0..count {
        if queries.push(query(words, index)).is_err() {
            return Err(NoMemory);
        }
    }
    Ok(queries)
}

/// Whether the steps and places of all queries are there.
pub(crate) fn all_there(seeker: &Seeker, queries: &[Query]) -> bool
    ensures { result ≡ list_all (is_query_there seeker.now.course.base seeker.now.course.end
        seeker.now.course.pages) queries.now }
{
    queries.iter().all(|query| is_query_there(seeker, query))
}
