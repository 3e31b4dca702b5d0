//! A folder that lies on a disk. It is the edge to the system, and tells no content: that the system keeps what it answers
//! is taken on trust. What is proved of it is that it counts its faults, and that it lists names of chunks alone.
#![tactic(auto)]

mod error;
mod faults;
mod file;
mod folder;
mod lock;

pub use error::{DiskCall, DiskError};
pub use file::RealFile;
pub use folder::RealFolder;
pub use lock::LockFile;
