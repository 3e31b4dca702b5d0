//! The chunk files of a writer: those that take records, one of each class at most, and full ones, with the port that
//! they go through.
#![tactic(auto)]

mod files;
mod full;
mod taking;

pub use files::WriterFiles;
