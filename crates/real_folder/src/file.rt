//! A handle of a file that lies on a disk.

ghost use Rattle.std.specs.Prelude.{◌≡◌, Some};
ghost use Rattle.hr_base.specs.Names.{IsChunkName};

use crate::lock::Keep;
use hr_base::{ChunkName, Named};

/// When a file was there: at which port it was seen, and after how many of the port's directory syncs.
#[derive(Clone, Copy, Debug, PartialEq, Eq)]
pub(crate) struct Seen {
    pub(crate) port: u64,
    pub(crate) syncs: u64,
}

/// An open file.
#[derive(Drop)]
pub(crate) struct Opened<F> {
    pub(crate) file: F,
    /// Whether it can be appended to, and not only read.
    pub(crate) appends: bool,
    /// Leave to stay open over file syncs, where it has that.
    pub(crate) keep: Option<Keep>,
}

/// A handle of a file. It holds a descriptor from its first read to the next file sync or the file's end, and from its
/// first append to the next file sync, or longer: 64 handles of a folder keep theirs over file syncs. A handle that was
/// only read, or whose last file sync was refused, holds none at rest.
#[derive(Drop)]
pub struct RealFile<F> {
    pub(crate) name: ChunkName,
    pub(crate) seen: Option<Seen>,
    pub(crate) opened: Option<Opened<F>>,
    /// The system refused a file sync, so it may have dropped bytes.
    pub(crate) sync_failed: bool,
    pub ghost valid: { IsChunkName name },
}

impl<F> Named for RealFile<F> {
    ghost name = { λ file. Some file.name };
}

impl<F> RealFile<F> {
    /// Of a file that is there, with what is open of it.
    pub(crate) fn new(name: ChunkName, seen: Option<Seen>, opened: Option<Opened<F>>) -> RealFile<F>
        requires { IsChunkName name }
        ensures { result.name ≡ name }
    {
        RealFile {
            name,
            seen,
            opened,
            sync_failed: false,
        }
    }
}
