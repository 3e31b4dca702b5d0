//! The top call of the program: what the command words say, done over a folder, a source and a sink.
#![tactic(auto)]

mod outcome;
mod script;
mod serving;
mod telling;

pub use outcome::Outcome;
pub use serving::serve;
pub use telling::tell;
