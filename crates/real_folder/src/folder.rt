//! A port of a folder on a disk.

ghost use Rattle.std.specs.Prelude.{◌≡◌, ◌≤◌, ◌+◌, ◌-◌, ◌^◌, None, Some, true, false, All, IfOk, IfSome, IsSome, OnErr, OnOk, MatchOption, is_none, is_ok, is_some, length, min};
ghost use Rattle.std.specs.declared.io.ErrorKind.TheVariants.{OutOfMemory};
ghost use Rattle.std.specs.IoError.{error_kind};
ghost use Rattle.hr_base.specs.Names.{IsChunkName};
ghost use Rattle.dir_files.specs.Faults.{is_disk, is_fault, is_remove_fault, kept_file, CountsFault};
ghost use Rattle.real_folder.specs.Disk.{NotesFault, HoldsLock, first_of};

use crate::error::{DiskCall, DiskError, Place};
use crate::faults::Faults;
use crate::file::{Opened, RealFile, Seen};
use crate::lock::{LockFile, Locked, not_again, not_locked};
use dir_files::{Folder, FolderRefusal, RemoveRefusal};
use hr_base::{ChunkName, Memory, print_name, read_name};
use std::alloc::{AllocError, Global};
use std::fs::{self, OpenFile, OpenOptions};
use std::io::{self, ErrorKind, Write};
use std::os::unix::fs::FileExt;
use std::rt::Files;
use std::sync::Arc;

/// The number of a port that was not forked.
const ROOT: u64 = 0;

/// A port of a folder on a disk. The folder is there before, and other files in it are left alone.
///
/// One program at a time works on a folder. The first call of a root that touches the disk, or its first fork, takes the
/// system's lock on the folder, without a file, and the lock lasts until the root and all its forks are dropped, or the
/// program ends in any way. Where another program has it, the call is a fault, and so it is where the system knows no
/// such lock; then the error has the system's words. A fork takes no lock of its own: one that was made while the
/// folder could not be locked has a fault at each call that touches the disk.
///
/// The first error that the system gave is kept. A sync that the system refused is not tried again, of a file at its
/// handle, of names at any port: the system may have dropped what it did not write, and would answer the next sync
/// without that. `names` gives the name of a folder that is named as a chunk file is, and the first read of it is a fault.
#[derive(Drop)]
pub struct RealFolder<R: Files> {
    rt: R,
    path: String,
    lock: Option<Arc<Locked<R::File>>>,
    faults: Faults,
    /// The number of this port among the forks of the root, where it has one. Forks of forks have none.
    number: Option<u64>,
    forks: u64,
    /// How many directory syncs succeeded here.
    syncs: u64,
}

/// Adds a chunk's file to the path of its folder.
fn path_of(folder: &String, name: ChunkName) -> Result<String, AllocError>
    requires { IsChunkName name }
{
    let mut path = folder.clone()?;
    path.push('/')?;
    for byte in print_name(name) {
        path.push(char::from(byte))?;
    }
    Ok(path)
}

impl<R: Files + Alloc + Clone + Drop> RealFolder<R>
where
    R::File: FileExt + LockFile,
{
    /// The root port of the folder at this path. It touches no disk and takes no memory. A folder has one root at a
    /// time: `mark` tells its ports apart by their numbers.
    pub fn at(rt: R, path: String) -> RealFolder<R>
        ensures count { ⟦<RealFolder<R> as Folder>⟧.count result ≡ 0 }
        ensures first { result.faults.first ≡ None }
    {
        RealFolder {
            rt,
            path,
            lock: None,
            faults: Faults::none(),
            number: Some(ROOT),
            forks: 0,
            syncs: 0,
        }
    }

    /// The first error that the system gave here, or at a port that was adopted. There is one where the disk failed.
    pub fn first_error(&self) -> Option<&DiskError>
        ensures first { MatchOption result (self.now.faults.first ≡ None)
            (λ error. self.now.faults.first ≡ Some error.now) }
        ensures known { is_none result ≡ true → ⟦<RealFolder<R> as Folder>⟧.count self.now ≡ 0 }
    {
        self.faults.first.as_ref()
    }
}

impl<R: Files> RealFolder<R> {
    /// Counts a fault of the disk, and answers it.
    fn fault(&mut self, call: DiskCall, place: Place, said: io::Error) -> FolderRefusal
        ensures answer { result ≡ FolderRefusal.Fault }
        ensures noted { NotesFault true self.old.faults self.new.faults }
        ensures lock { self.new.lock ≡ self.old.lock }
    {
        self.faults.note(DiskError { call, place, said });
        FolderRefusal::Fault
    }

    /// Answers an error of the system: a fault, which counts, unless it had no memory.
    fn refuse(&mut self, call: DiskCall, place: Place, said: io::Error) -> FolderRefusal
        ensures memory { result ≡ FolderRefusal.Memory → error_kind said ≡ OutOfMemory }
        ensures noted { NotesFault (is_disk result) self.old.faults self.new.faults }
        ensures lock { self.new.lock ≡ self.old.lock }
    {
        if said.kind() == ErrorKind::OutOfMemory {
            FolderRefusal::Memory
        } else {
            self.fault(call, place, said)
        }
    }

    /// The same, of the folder itself.
    fn refuse_folder(&mut self, call: DiskCall, said: io::Error) -> FolderRefusal
        ensures noted { NotesFault (is_disk result) self.old.faults self.new.faults }
        ensures lock { self.new.lock ≡ self.old.lock }
    {
        let path = self.path.clone().ok();
        self.refuse(call, Place::Folder(path), said)
    }

    /// Counts a directory sync that the system refused, and answers it.
    fn fault_of_sync(&mut self, said: io::Error) -> FolderRefusal
        ensures answer { result ≡ FolderRefusal.Fault }
        ensures noted { NotesFault true self.old.faults self.new.faults }
        ensures lock { self.new.lock ≡ self.old.lock }
    {
        let path = self.path.clone().ok();
        self.fault(DiskCall::Sync, Place::Folder(path), said)
    }

    /// A number for a fork, where it gets one.
    fn next_number(&mut self) -> Option<u64>
        ensures faults { self.new.faults ≡ self.old.faults }
        ensures lock { self.new.lock ≡ self.old.lock }
    {
        if self.number != Some(ROOT) || self.forks == u64::MAX {
            return None;
        }
        self.forks += 1;
        Some(self.forks)
    }

    /// That a file is there now, as a handle remembers it.
    fn seen_now(&self) -> Option<Seen> {
        let port = self.number?;
        let syncs = self.syncs;
        Some(Seen { port, syncs })
    }
}

/// Where an error lies that is a file's.
fn place_of(name: ChunkName) -> Place
    requires { IsChunkName name }
{
    Place::File(print_name(name))
}

impl<R: Files> RealFolder<R> {
    /// Opens a chunk's file.
    fn open(
        &mut self,
        call: DiskCall,
        name: ChunkName,
        how: &OpenOptions,
    ) -> Result<Opened<R::File>, FolderRefusal>
        requires { IsChunkName name }
        ensures noted { NotesFault (is_fault result) self.old.faults self.new.faults }
        ensures lock { self.new.lock ≡ self.old.lock }
    {
        let path = path_of(&self.path, name)?;
        match how.open(&self.rt, path.as_str()) {
            Ok(file) => Ok(Opened {
                file,
                appends: how.asks_append(),
                keep: None,
            }),
            Err(said) => Err(self.refuse(call, place_of(name), said)),
        }
    }

    /// Opens a chunk's file for reading.
    fn open_to_read(&mut self, name: ChunkName) -> Result<Opened<R::File>, FolderRefusal>
        requires { IsChunkName name }
        ensures noted { NotesFault (is_fault result) self.old.faults self.new.faults }
        ensures lock { self.new.lock ≡ self.old.lock }
    {
        let mut how = OpenOptions::new();
        self.open(DiskCall::Open, name, how.read(true))
    }

    /// Opens a chunk's file for appending, and for reading.
    fn open_to_append(&mut self, name: ChunkName) -> Result<Opened<R::File>, FolderRefusal>
        requires { IsChunkName name }
        ensures noted { NotesFault (is_fault result) self.old.faults self.new.faults }
        ensures lock { self.new.lock ≡ self.old.lock }
    {
        let mut how = OpenOptions::new();
        self.open(DiskCall::Open, name, how.read(true).append(true))
    }

    /// Makes a chunk's file that is not there, and opens it for appending, and for reading.
    fn open_new(&mut self, name: ChunkName) -> Result<Opened<R::File>, FolderRefusal>
        requires { IsChunkName name }
        ensures noted { NotesFault (is_fault result) self.old.faults self.new.faults }
        ensures lock { self.new.lock ≡ self.old.lock }
    {
        let mut how = OpenOptions::new();
        let how = how.read(true).append(true).create_new(true);
        self.open(DiskCall::Create, name, how)
    }
}

impl<R: Files> RealFolder<R>
where
    R::File: LockFile,
{
    /// Opens the folder and locks it, where this is a root. An error is not counted.
    fn lock_folder(&mut self) -> Result<(), (DiskCall, io::Error)>
        ensures faults { self.new.faults ≡ self.old.faults }
        ensures locked { OnOk result (IsSome self.new.lock) }
        ensures unlocked { OnErr result (self.new.lock ≡ self.old.lock) }
    {
        if self.number != Some(ROOT) {
            return Err((DiskCall::Lock, not_locked()));
        }
        let folder = match fs::open(&self.rt, self.path.as_str()) {
            Ok(folder) => folder,
            Err(said) => return Err((DiskCall::Open, said)),
        };
        match share(*self.path.allocator(), folder) {
            Ok(lock) => {
                self.lock = Some(lock);
                Ok(())
            }
            Err(said) => Err((DiskCall::Lock, said)),
        }
    }

    /// Sees to it that the folder is locked, before a call touches the disk.
    fn enter(&mut self) -> Result<(), FolderRefusal>
        ensures noted { NotesFault (is_fault result) self.old.faults self.new.faults }
        ensures lock { HoldsLock (is_ok result) self.old.lock self.new.lock }
    {
        if self.lock.is_some() {
            return Ok(());
        }
        match self.lock_folder() {
            Ok(()) => Ok(()),
            Err((call, said)) => Err(self.refuse_folder(call, said)),
        }
    }

    /// The lock for a fork. The folder is locked before, where that can be done.
    fn lock_of_fork(&mut self) -> Result<Option<Arc<Locked<R::File>>>, AllocError>
        ensures faults { self.new.faults ≡ self.old.faults }
        ensures kept { IsSome self.old.lock → self.new.lock ≡ self.old.lock }
        ensures same { IfOk result (λ lock. is_some lock ≡ is_some self.new.lock) }
    {
        if self.lock.is_none()
            && let Err((_, said)) = self.lock_folder()
            && said.kind() == ErrorKind::OutOfMemory
        {
            return Err(AllocError);
        }
        match &self.lock {
            Some(lock) => Ok(Some(Arc::try_clone(lock)?)),
            None => Ok(None),
        }
    }

    /// Removes a chunk's file.
    fn unlink(&mut self, name: ChunkName) -> Result<(), FolderRefusal>
        requires { IsChunkName name }
        ensures noted { NotesFault (is_fault result) self.old.faults self.new.faults }
        ensures lock { HoldsLock (is_ok result) self.old.lock self.new.lock }
    {
        self.enter()?;
        let path = path_of(&self.path, name)?;
        match fs::remove_file(&self.rt, path.as_str()) {
            Ok(()) => Ok(()),
            Err(said) => Err(self.refuse(DiskCall::Remove, place_of(name), said)),
        }
    }

    /// Makes the folder's names durable, where it is locked.
    fn sync_folder(&self) -> io::Result<()> {
        match &self.lock {
            Some(lock) => lock.sync(),
            None => Err(not_locked()),
        }
    }

    /// What stays open of a file that was synced.
    fn keep(&self, opened: Opened<R::File>) -> Option<Opened<R::File>> {
        let Opened {
            file,
            appends,
            keep,
        } = opened;
        if !appends {
            return None;
        }
        let keep = match keep {
            Some(keep) => keep,
            None => self.lock.as_ref()?.keep()?,
        };
        Some(Opened {
            file,
            appends,
            keep: Some(keep),
        })
    }
}

/// Locks an open folder, for a root and its forks.
fn share<F: LockFile + Drop>(alloc: Global, folder: F) -> io::Result<Arc<Locked<F>>> {
    Ok(Arc::new(alloc, Locked::take(alloc, folder)?)?)
}

/// Adds the name that a text spells, where that is a chunk's.
fn add_name(names: &mut Vec<ChunkName>, text: &str) -> Result<(), AllocError>
    requires { All IsChunkName names.old.items }
    ensures { OnOk result (All IsChunkName names.new.items) }
{
    if let Some(name) = read_name(text.as_bytes()) {
        names.push(name)?;
    }
    Ok(())
}

/// The names of the chunk files in a folder.
fn list<R: Files + Alloc + Clone + Drop>(rt: &R, path: &String) -> io::Result<Vec<ChunkName>>
    ensures { IfOk result (λ names. All IsChunkName names.items) }
{
    let mut names = Vec::new(*path.allocator());
    for entry in fs::read_dir(rt, path.as_str())? {
        add_name(&mut names, entry?.file_name())?;
    }
    Ok(names)
}

impl<R: Files + Alloc + Clone + Drop> Folder for RealFolder<R>
where
    R::File: FileExt + LockFile,
{
    type File = RealFile<R::File>;

    ghost use Rattle.std.specs.Prelude.{false, refl};
    ghost use Rattle.dir_files.specs.Files.{new_file};
    ghost use Rattle.real_folder.specs.Disk.{untold};
    ghost use Rattle.std.proofs.Common.{rules};

    ghost tells = { false };

    ghost port = { λ _. untold };

    ghost state = { λ _. new_file };

    ghost count = { λ folder. folder.faults.count };

    ghost sound = { λ _. false };

    ghost file_fits = { λ file told. Prim.search rules };

    ghost sound_count = { λ folder told. Prim.search rules };

    ghost lawful = { λ folder told. Prim.search rules };

    ghost file_named = { λ file _. (file.name, refl) };

    fn faults(&self) -> u64 {
        self.faults.count
    }

    fn fork(&mut self) -> Result<RealFolder<R>, Memory>
        ensures fresh_count { IfOk result (λ fork. fork.faults.count ≡ 0) }
        ensures fresh_first { IfOk result (λ fork. fork.faults.first ≡ None) }
        ensures same { self.new.faults ≡ self.old.faults }
        ensures locked { IfOk result (λ fork. is_some fork.lock ≡ is_some self.new.lock) }
        ensures lock { IsSome self.old.lock → self.new.lock ≡ self.old.lock }
    {
        let rt = self.rt.clone()?;
        let path = self.path.clone()?;
        let lock = self.lock_of_fork()?;
        let number = self.next_number();
        Ok(RealFolder {
            rt,
            path,
            lock,
            faults: Faults::none(),
            number,
            forks: 0,
            syncs: 0,
        })
    }

    fn adopt(&mut self, other: RealFolder<R>)
        ensures added { self.new.faults.count ≡ min (self.old.faults.count + other.faults.count) (2 ^ 64 - 1) }
        ensures kept { self.old.faults.count ≤ self.new.faults.count }
        ensures first { self.new.faults.first ≡ first_of self.old.faults.first other.faults.first }
        ensures lock { self.new.lock ≡ self.old.lock }
    {
        let RealFolder {
            rt: _,
            path: _,
            lock: _,
            faults,
            number: _,
            forks: _,
            syncs: _,
        } = other;
        self.faults.adopt(faults);
    }

    fn names(&mut self) -> Result<Vec<ChunkName>, FolderRefusal>
        ensures valid { IfOk result (λ names. All IsChunkName names.items) }
        ensures noted { NotesFault (is_fault result) self.old.faults self.new.faults }
        ensures lock { HoldsLock (is_ok result) self.old.lock self.new.lock }
    {
        self.enter()?;
        match list(&self.rt, &self.path) {
            Ok(names) => Ok(names),
            Err(said) => Err(self.refuse_folder(DiskCall::List, said)),
        }
    }

    /// Opens nothing: a file that is not there is found out when it is opened.
    fn take(&mut self, name: ChunkName) -> Result<RealFile<R::File>, FolderRefusal>
        requires { IsChunkName name }
        ensures name { IfOk result (λ file. file.name ≡ name) }
        ensures noted { NotesFault (is_fault result) self.old.faults self.new.faults }
    {
        Ok(RealFile::new(name, self.seen_now(), None))
    }

    fn create(&mut self, name: ChunkName) -> Result<RealFile<R::File>, FolderRefusal>
        requires { IsChunkName name }
        ensures name { IfOk result (λ file. file.name ≡ name) }
        ensures noted { NotesFault (is_fault result) self.old.faults self.new.faults }
        ensures lock { HoldsLock (is_ok result) self.old.lock self.new.lock }
    {
        self.enter()?;
        let opened = self.open_new(name)?;
        Ok(RealFile::new(name, self.seen_now(), Some(opened)))
    }

    /// An error of the write itself is a fault, also where the system had no memory for it, since a part of the piece may
    /// be written.
    fn append(&mut self, file: &mut RealFile<R::File>, piece: &[u8]) -> Result<(), FolderRefusal>
        ensures name { file.new.name ≡ file.old.name }
        ensures noted { NotesFault (is_fault result) self.old.faults self.new.faults }
        ensures lock { HoldsLock (is_ok result) self.old.lock self.new.lock }
    {
        self.enter()?;
        let mut opened = match file.opened.take() {
            Some(opened) if opened.appends => opened,
            _ => self.open_to_append(file.name)?,
        };
        let written = opened.file.write_all(piece);
        file.opened = Some(opened);
        match written {
            Ok(()) => Ok(()),
            Err(said) => Err(self.fault(DiskCall::Append, place_of(file.name), said)),
        }
    }

    /// Closes the file where the sync was refused, where the file was only read, and where as many descriptors are kept as
    /// the folder keeps.
    fn sync_file(&mut self, file: &mut RealFile<R::File>) -> Result<(), FolderRefusal>
        ensures name { file.new.name ≡ file.old.name }
        ensures noted { NotesFault (is_fault result) self.old.faults self.new.faults }
        ensures lock { HoldsLock (is_ok result) self.old.lock self.new.lock }
    {
        self.enter()?;
        let opened = file.opened.take();
        if file.sync_failed {
            return Err(self.fault(DiskCall::Sync, place_of(file.name), not_again()));
        }
        let opened = match opened {
            Some(opened) => opened,
            None => self.open_to_read(file.name)?,
        };
        match opened.file.sync_data() {
            Ok(()) => {
                file.opened = self.keep(opened);
                Ok(())
            }
            Err(said) => {
                file.sync_failed = true;
                Err(self.fault(DiskCall::Sync, place_of(file.name), said))
            }
        }
    }

    fn sync_names(&mut self) -> Result<(), FolderRefusal>
        ensures noted { NotesFault (is_fault result) self.old.faults self.new.faults }
        ensures lock { HoldsLock (is_ok result) self.old.lock self.new.lock }
    {
        self.enter()?;
        match self.sync_folder() {
            Ok(()) => {
                self.syncs = self.syncs.saturating_add(1);
                Ok(())
            }
            Err(said) => Err(self.fault_of_sync(said)),
        }
    }

    /// A name is fixed where this port synced its directory after it first saw the handle.
    fn mark(&self, file: &mut RealFile<R::File>) -> bool
        ensures name { file.new.name ≡ file.old.name }
    {
        let now = self.seen_now();
        match (file.seen, now) {
            (Some(then), Some(now)) if then.port == now.port => then.syncs < now.syncs,
            _ => {
                file.seen = now;
                false
            }
        }
    }

    fn read(
        &mut self,
        file: &mut RealFile<R::File>,
        at: u64,
        into: &mut [u8],
    ) -> Result<usize, FolderRefusal>
        ensures bound { IfOk result (λ count. count ≤ length into.new) }
        ensures name { file.new.name ≡ file.old.name }
        ensures noted { NotesFault (is_fault result) self.old.faults self.new.faults }
        ensures lock { HoldsLock (is_ok result) self.old.lock self.new.lock }
    {
        self.enter()?;
        let opened = match file.opened.take() {
            Some(opened) => opened,
            None => self.open_to_read(file.name)?,
        };
        let given = opened.file.read_at(into, at);
        if opened.appends || matches!(given, Ok(1..)) {
            file.opened = Some(opened);
        }
        match given {
            Ok(count) => Ok(count),
            Err(said) => Err(self.refuse(DiskCall::Read, place_of(file.name), said)),
        }
    }

    fn remove(&mut self, file: RealFile<R::File>) -> Result<(), RemoveRefusal<RealFile<R::File>>>
        ensures kept { IfSome (kept_file result) (λ kept. kept.name ≡ file.name) }
        ensures noted { NotesFault (is_remove_fault result) self.old.faults self.new.faults }
        ensures lock { HoldsLock (is_ok result) self.old.lock self.new.lock }
    {
        match self.unlink(file.name) {
            Ok(()) => Ok(()),
            Err(FolderRefusal::Memory) => Err(RemoveRefusal::Memory(file)),
            Err(FolderRefusal::Fault) => Err(RemoveRefusal::Fault),
        }
    }

    fn give(&mut self, file: RealFile<R::File>)
        ensures { self.new.faults ≡ self.old.faults }
    {
        drop(file);
    }
}
