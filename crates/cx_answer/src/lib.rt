//! The answers to queries about a recording: the state before a step, and who wrote a byte last, who read it, and which
//! trap came before.
//!
//! `answer` seeks and takes steps again, one stretch between two checkpoints at a time, from the last before the step
//! that is asked about on backwards. `answer_line` puts the line of an answer.
#![tactic(auto)]

mod laws;
mod line;
mod meets;
mod reply;
mod searching;
mod stretch;

pub use laws::{answers_have_lines, intervals_are_searched_backwards};
pub use line::answer_line;
pub use reply::Answer;
pub use searching::{answer, is_query_there};
