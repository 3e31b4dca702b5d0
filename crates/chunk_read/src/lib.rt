//! Chunk files that are read.
#![tactic(auto)]

mod chunk;
mod copies;
mod found;
mod pieces;
mod records;
mod refusal;
mod walk;

pub use chunk::{Chunk, read_chunk};
pub use pieces::read_pieces;
pub use records::Records;
pub use refusal::ReadRefusal;
pub use walk::Walk;
