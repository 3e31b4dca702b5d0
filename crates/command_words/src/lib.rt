//! The command words of the program: a folder, a command, and options with their numbers.
#![tactic(auto)]

pub mod laws;
mod number;
mod parse;
mod read;
mod table;
mod usage_text;

pub use parse::WordsRefusal;
pub use read::{Command, read_words};
pub use table::{DEFAULT_PARTITIONS, DEFAULT_PERCENT, DEFAULT_TOMB_LIMIT, DEFAULT_VALUE_LIMIT};
pub use usage_text::usage;
