//! The lock of a folder, and the descriptors that its handles keep.

use std::alloc::Global;
use std::fs::{self, OpenFile, TryLockError};
use std::io::{self, ErrorKind};
use std::sync::Arc;
use std::sync::atomic::{AtomicBool, AtomicU64, Ordering};

/// How many descriptors handles keep over file syncs, at all ports of a folder together.
const MAX_KEPT: u64 = 64;

/// An open file, or an open folder, that the system can lock.
pub trait LockFile {
    /// Takes the lock for this opening, or answers `WouldBlock` at once where another opening has it. It lasts until
    /// this one is closed.
    fn try_lock_file(&self) -> Result<(), TryLockError>;
}

impl LockFile for fs::File {
    fn try_lock_file(&self) -> Result<(), TryLockError> {
        self.try_lock()
    }
}

/// What is said of a sync that is not tried again.
pub(crate) fn not_again() -> io::Error {
    io::Error::other("an earlier sync failed")
}

/// What is said at a port that was made while the folder could not be locked.
pub(crate) fn not_locked() -> io::Error {
    io::Error::other("the folder was not locked when this port was made")
}

/// A folder that this program has locked. A root and its forks share it, so the lock lasts as long as one of them.
#[derive(Drop)]
pub(crate) struct Locked<F> {
    folder: F,
    kept: Arc<AtomicU64>,
    /// The system refused a directory sync, so it may have dropped names.
    sync_failed: AtomicBool,
}

impl<F: LockFile + Drop> Locked<F> {
    /// Locks an open folder.
    pub(crate) fn take(alloc: Global, folder: F) -> io::Result<Locked<F>> {
        match folder.try_lock_file() {
            Ok(()) => Ok(Locked {
                folder,
                kept: Arc::new(alloc, AtomicU64::new(0))?,
                sync_failed: AtomicBool::new(false),
            }),
            Err(TryLockError::WouldBlock) => Err(io::Error::new(
                ErrorKind::WouldBlock,
                "another program works on the folder",
            )),
            Err(TryLockError::Error(said)) => Err(said),
        }
    }
}

impl<F: OpenFile> Locked<F> {
    /// Makes the folder's names durable. Once that was refused it is not tried again, at no port.
    pub(crate) fn sync(&self) -> io::Result<()> {
        if self.sync_failed.load(Ordering::SeqCst) {
            return Err(not_again());
        }
        let synced = self.folder.sync_all();
        if synced.is_err() {
            self.sync_failed.store(true, Ordering::SeqCst);
        }
        synced
    }
}

impl<F> Locked<F> {
    /// Leave to keep one more descriptor over file syncs, where there is room for it.
    pub(crate) fn keep(&self) -> Option<Keep> {
        let kept = Arc::try_clone(&self.kept).ok()?;
        let add = |count: u64| if count < MAX_KEPT {
            Some(count + 1)
        } else {
            None
        };
        kept.fetch_update(Ordering::SeqCst, Ordering::SeqCst, add)
            .ok()?;
        Some(Keep { kept })
    }
}

/// Leave to keep a descriptor over file syncs. It is given back where it is dropped, in any thread.
pub(crate) struct Keep {
    kept: Arc<AtomicU64>,
}

impl Drop for Keep {
    fn drop(self) {
        self.kept.fetch_sub(1, Ordering::SeqCst);
        let Keep { kept: _ } = self;
    }
}
