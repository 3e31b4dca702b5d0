//! How a folder is restarted: its files are read, and a writer goes on from each partition's records.
#![tactic(auto)]

mod contents;
mod ended;
pub mod laws;
mod listing;
mod load;
mod numbers;
mod opening;
mod reading;
mod refusal;
mod restarting;
mod taking;

pub use ended::Ended;
pub use refusal::RestartRefusal;
pub use restarting::restart;
