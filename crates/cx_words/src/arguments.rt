//! What stands behind the name of a command.

ghost use Rattle.std.specs.Prelude.{◌≡◌, map};
ghost use Rattle.std.specs.String.{string_bytes};
ghost use Rattle.cx_words.specs.Arguments;

use crate::number::read_number;

/// The most steps that are recorded.
const MOST_STEPS: u64 = 1 << 27;

/// A number below 2^32.
#[tactic(auto, unfolding(crate::specs::Arguments::word_number))]
pub(crate) fn word_number(text: &str) -> Option<u32>
    ensures { result ≡ Arguments.word_number text.now }
{
    u32::try_from(read_number(text)?).ok()
}

/// A number of steps to be recorded: from 1 to 2^27.
#[tactic(auto, unfolding(crate::specs::Arguments::step_count))]
pub(crate) fn step_count(text: &str) -> Option<u64>
    ensures { result ≡ Arguments.step_count text.now }
{
    let count = read_number(text)?;
    (1 <= count && count <= MOST_STEPS).then_some(count)
}

/// One number below 2^32.
#[tactic(auto, unfolding(crate::specs::Arguments::one_word))]
pub(crate) fn one_word(arguments: &[String]) -> Option<u32>
    ensures { result ≡ Arguments.one_word (map string_bytes arguments.now) }
{
    match arguments {
        [text] => word_number(text.as_str()),
        _ => None,
    }
}

/// Two numbers.
#[tactic(auto, unfolding(crate::specs::Arguments::two_numbers))]
pub(crate) fn two_numbers(arguments: &[String]) -> Option<(u64, u64)>
    ensures { result ≡ Arguments.two_numbers (map string_bytes arguments.now) }
{
    match arguments {
        [first, second] => {
            let first = read_number(first.as_str())?;
            let second = read_number(second.as_str())?;
            Some((first, second))
        }
        _ => None,
    }
}
