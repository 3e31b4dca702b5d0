//! What a collector knows of a partition, as two plain lists with full scans. Each call equals the definitions of `gc_event`:
//! it shows that they can be computed, and stands beside the tables with counts in tests. No call of the program.
#![tactic(auto)]

mod ledger;
mod lists;
mod mark;
mod records;
mod seen;

pub use ledger::Ledger;
