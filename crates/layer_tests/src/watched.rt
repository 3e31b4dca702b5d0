//! A system that keeps nothing, writes down what it is asked, and refuses one kind of call.

use crate::real_files::{Ports, faults_of};
use real_folder::{LockFile, RealFolder};
use std::alloc::{AllocError, Allocator, Global};
use std::cell::RefCell;
use std::fs::{Metadata, OpenFile, OpenOptions, TryLockError};
use std::io::{self, ErrorKind, Read, Seek, SeekFrom, Write};
use std::os::unix::fs::FileExt;
use std::rc::Rc;
use std::rt::Files;
use std::test::Fail;
use test_rows::system_rows::{OnDisk, Watched};

/// The calls so far, and the one that is refused.
#[derive(Drop)]
struct Watch {
    calls: RefCell<String>,
    refused: RefCell<String>,
}

impl Watch {
    fn note(&self, call: &str) {
        if let Ok(mut calls) = self.calls.try_borrow_mut() {
            let _ = calls.push(' ');
            let _ = calls.push_str(call);
        }
    }

    fn ask(&self, call: &str) -> io::Result<()> {
        self.note(call);
        match self.refused.try_borrow() {
            Ok(refused) if refused.as_str() == call => Err(io::Error::from_raw_os_error(5)),
            _ => Ok(()),
        }
    }
}

#[derive(Drop)]
pub(crate) struct System {
    alloc: Global,
    watch: Rc<Watch>,
}

impl System {
    pub(crate) fn new(alloc: Global) -> Result<System, AllocError> {
        let watch = Watch {
            calls: RefCell::new(String::new(alloc)),
            refused: RefCell::new(String::new(alloc)),
        };
        Ok(System {
            alloc,
            watch: Rc::new(alloc, watch)?,
        })
    }
}

impl OnDisk for System {
    type Calls = Ports<System>;

    fn root(&self, alloc: Global) -> Result<RealFolder<System>, Fail> {
        Ok(RealFolder::at(self.clone()?, String::from_str(alloc, "maps")?))
    }

    fn faults(&self, alloc: Global, port: &RealFolder<System>) -> Result<String, Fail> {
        Ok(faults_of(alloc, port)?)
    }
}

impl Watched for System {
    fn refuse(&self, call: &str) -> Result<(), Fail> {
        let call = String::from_str(self.alloc, call)?;
        let _before = self.watch.refused.try_replace(call);
        Ok(())
    }

    fn note(&self, text: &str) {
        self.watch.note(text);
    }

    fn told(&self) -> String {
        self.watch
            .calls
            .try_replace(String::new(self.alloc))
            .unwrap_or(String::new(self.alloc))
    }
}

impl Clone for System {
    fn clone(&self) -> Result<System, AllocError> {
        Ok(System {
            alloc: self.alloc,
            watch: self.watch.clone()?,
        })
    }
}

impl Alloc for System {
    type A = Global;

    fn alloc(&self) -> Global {
        self.alloc
    }
}

/// An open file or folder.
pub(crate) struct Handle {
    watch: Rc<Watch>,
}

impl Drop for Handle {
    fn drop(self) {
        self.watch.note("close");
        let Handle { watch: _ } = self;
    }
}

/// The names of an empty folder.
#[derive(Drop)]
pub(crate) struct NoNames;

impl Read for NoNames {
    fn read(&mut self, _buf: &mut [u8]) -> io::Result<usize> {
        Ok(0)
    }
}

fn unsupported() -> io::Error {
    io::Error::from(ErrorKind::Unsupported)
}

impl Files for System {
    type File = Handle;

    type Dir = NoNames;

    fn open_file(&self, how: &OpenOptions, _path: &str) -> io::Result<Handle> {
        self.watch.ask(if how.asks_create_new() {
            "new"
        } else if how.asks_append() {
            "open+"
        } else {
            "open"
        })?;
        Ok(Handle {
            watch: self.watch.clone()?,
        })
    }

    fn open_dir(&self, _path: &str) -> io::Result<NoNames> {
        self.watch.ask("readdir")?;
        Ok(NoNames)
    }

    fn remove_file(&self, _path: &str) -> io::Result<()> {
        self.watch.ask("unlink")
    }

    fn metadata(&self, _path: &str) -> io::Result<Metadata> {
        Err(unsupported())
    }

    fn symlink_metadata(&self, _path: &str) -> io::Result<Metadata> {
        Err(unsupported())
    }

    fn copy(&self, _from: &str, _to: &str) -> io::Result<u64> {
        Err(unsupported())
    }

    fn rename(&self, _from: &str, _to: &str) -> io::Result<()> {
        Err(unsupported())
    }

    fn create_dir(&self, _path: &str) -> io::Result<()> {
        Err(unsupported())
    }

    fn remove_dir(&self, _path: &str) -> io::Result<()> {
        Err(unsupported())
    }

    fn remove_dir_all<B: Allocator>(&self, _alloc: B, _path: &str) -> io::Result<()> {
        Err(unsupported())
    }
}

impl OpenFile for Handle {
    fn metadata(&self) -> io::Result<Metadata> {
        Err(unsupported())
    }

    fn set_len(&self, _size: u64) -> io::Result<()> {
        Err(unsupported())
    }

    fn sync_all(&self) -> io::Result<()> {
        self.watch.ask("fsync")
    }

    fn sync_data(&self) -> io::Result<()> {
        self.watch.ask("fdatasync")
    }
}

impl LockFile for Handle {
    fn try_lock_file(&self) -> Result<(), TryLockError> {
        self.watch.ask("lock").map_err(TryLockError::Error)
    }
}

impl Read for Handle {
    fn read(&mut self, _buf: &mut [u8]) -> io::Result<usize> {
        Err(unsupported())
    }
}

impl Write for Handle {
    fn write(&mut self, buf: &[u8]) -> io::Result<usize> {
        self.watch.ask("write")?;
        Ok(buf.len())
    }

    fn flush(&mut self) -> io::Result<()> {
        Ok(())
    }
}

impl Seek for Handle {
    fn seek(&mut self, _to: SeekFrom) -> io::Result<u64> {
        Err(unsupported())
    }
}

/// Each file has the same byte everywhere.
impl FileExt for Handle {
    fn read_at(&self, buf: &mut [u8], _offset: u64) -> io::Result<usize> {
        self.watch.ask("read")?;
        buf.fill(b'x');
        Ok(buf.len())
    }

    fn write_at(&self, _buf: &[u8], _offset: u64) -> io::Result<usize> {
        Err(unsupported())
    }
}
