//! The words of the command line. `read_words` tells which command they ask for, and with which numbers.
//!
//! A number is spelled in decimal without leading zeros, or as `0x` and one to sixteen hexadecimal digits of either
//! case. Whatever isn't a command of the program is none: nothing is guessed, and no word is read by half. Reading
//! takes no memory.
#![tactic(auto)]

mod arguments;
mod command;
mod number;
mod queries;
mod question;
mod spelling;

pub use command::{Command, read_words};
pub use queries::query;
pub use question::Query;
pub use spelling::numbers_read_back;
