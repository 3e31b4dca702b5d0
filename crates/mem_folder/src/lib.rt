//! A folder that lies in memory, tells all that it holds, and fails as planned.
#![tactic(auto)]

mod chain;
mod content;
mod faults;
mod file;
mod folder;
mod picks;

pub use faults::FaultPlan;
pub use file::MemFile;
pub use folder::MemFolder;
