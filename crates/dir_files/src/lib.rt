//! Folders of chunk files, and what a crash may leave of them.
#![tactic(auto)]

mod folder;
pub mod laws;

pub use folder::{Folder, FolderRefusal, RemoveRefusal};
