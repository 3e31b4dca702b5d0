//! What the system said when a call on a folder failed.

use std::fmt::{self, Display, Formatter};
use std::io;
use thiserror::Error;

/// What was asked of the system.
#[derive(Clone, Copy, Debug, PartialEq, Eq)]
pub enum DiskCall {
    /// To lock the folder against other programs.
    Lock,
    /// To list a folder's files.
    List,
    /// To open a file that is there, or the folder.
    Open,
    /// To make a file.
    Create,
    /// To write at a file's end.
    Append,
    /// To read a file.
    Read,
    /// To make durable what was written, or a folder's names.
    Sync,
    /// To remove a file.
    Remove,
}

impl Display for DiskCall {
    fn fmt<W: fmt::Write>(&self, f: &mut Formatter<W>) -> fmt::Result {
        f.write_str(match self {
            DiskCall::Lock => "lock",
            DiskCall::List => "list",
            DiskCall::Open => "open",
            DiskCall::Create => "create",
            DiskCall::Append => "append",
            DiskCall::Read => "read",
            DiskCall::Sync => "sync",
            DiskCall::Remove => "remove",
        })
    }
}

/// Where a call failed.
#[derive(Debug, Drop)]
pub(crate) enum Place {
    /// At the file of this name.
    File([u8; 28]),
    /// At the folder of this path, which is missing where there was no memory for it.
    Folder(Option<String>),
}

impl Display for Place {
    fn fmt<W: fmt::Write>(&self, f: &mut Formatter<W>) -> fmt::Result {
        match self {
            Place::File(name) => f.write_str(str::from_utf8(name).unwrap_or("a file")),
            Place::Folder(Some(path)) => f.write_str(path.as_str()),
            Place::Folder(None) => f.write_str("the folder"),
        }
    }
}

/// A call that failed: what was asked of the system, at which file, and what it said. Where the folder itself was
/// asked, its path stands in place of the file.
#[derive(Debug, Drop, Error)]
#[error("{call} {place}: {said}")]
pub struct DiskError {
    pub(crate) call: DiskCall,
    pub(crate) place: Place,
    pub(crate) said: io::Error,
}
