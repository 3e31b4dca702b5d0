//! Sessions over a script, on one thread, and what a folder's maps are.
#![tactic(auto)]

mod dumping;
pub mod laws;
mod lines;
mod session;
mod step;
mod writers;

pub use dumping::dump;
pub use restart_load::{Ended, RestartRefusal};
pub use session::play;
