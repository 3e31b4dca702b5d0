//! What the records found in a partition's files restart to.
#![tactic(auto)]

mod found;
mod order;
mod play;
mod replaying;

pub use found::{Found, FoundRecords};
pub use replaying::{ReplayRefusal, Replayed, replay};
