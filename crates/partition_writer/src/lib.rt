//! A partition's writer.
#![tactic(auto)]

mod noted;
mod refusal;
mod storing;
mod writer;

pub use refusal::WriteRefusal;
pub use writer::Writer;
