//! Events on their way from a partition's writer to its collector: the end that notes and tells, the end that hears, and both
//! together again. What was heard and what is left is what was noted, in order, each once.
#![tactic(auto)]

mod bounds;
mod ends;
mod hearer;
mod queue;
mod sends;
mod teller;
mod waiting;

pub use bounds::Bounds;
pub use ends::{Hearer, Joined, Teller};
pub use queue::{pair, rejoin};
