//! The maps of a partition, in memory.
#![tactic(auto)]

mod maps;
mod nested;
mod sorted;

pub use maps::RamMap;
