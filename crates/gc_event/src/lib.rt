//! Events of a partition, and what a collector knows by them: the top of a key, the occurrences that are present, what is
//! stale and what is live among them. The definitions are scans over lists, in `specs/`; their laws are contracts of
//! functions that do nothing.
#![tactic(auto)]

mod event;
mod event_laws;
mod worked_laws;

pub use event::Event;
pub use event_laws::{the_top_is_greatest, where_none_touches_there_is_no_top};
pub use worked_laws::a_worked_cycle;
