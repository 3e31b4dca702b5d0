//! Chunk files that are written: filling, full, and sealed.
#![tactic(auto)]

mod filling;
mod full;
mod sealed;

pub use filling::Filling;
pub use full::{Full, NotSealed};
pub use sealed::Sealed;
