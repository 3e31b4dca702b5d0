//! A chunk that takes records.

ghost use Rattle.std.specs.Prelude.{◌≡◌, true, false, IfOk, IsOk, Some, length};
ghost use Rattle.hr_base.specs.declared.limits.TheConstants.{MAX_CHUNK_LIMIT};
ghost use Rattle.hr_base.specs.Names.{IsChunkName, TellsNoOther, class_of_kind};
ghost use Rattle.dir_files.specs.Faults.{is_fault};
ghost use Rattle.dir_files.specs.PortCalls.{CountsCall, GivesFile, LeavesPort};
ghost use Rattle.dir_files.specs.Ports.{IsFreeName};
ghost use Rattle.value_chunk.specs.Chunks.{fits, IsChunk, IsOneRecord};
ghost use Rattle.value_chunk.specs.Calls.{begun, Appends, BeginsAt, IsTold, Marks, SyncsFile};

use crate::full::Full;
use dir_files::{Folder, FolderRefusal};
use hr_base::ChunkName;
use std::marker::Model;

/// A chunk that takes records. It owns the handle of its file, so nobody else acts on the file.
pub struct Filling<F: Folder> {
    name: ChunkName,
    file: F::File,
    /// The bytes of the records that were appended.
    size: u64,
    /// Bytes may lie past the file's front.
    unsynced: bool,
    /// The disk refused a record, and a prefix of it may stand behind the others.
    torn: bool,
}

impl<F: Folder> Model for Filling<F> {
    ghost use Rattle.std.specs.Prelude.{◌≡◌, true, Some};
    ghost use Rattle.hr_base.specs.Names.{TellsNoOther};
    ghost use Rattle.value_chunk.specs.Chunks.{Chunk, IsChunk};

    ghost Value = { Chunk };

    ghost view = { λ it.
        record { name = it.name; file = F.state it.file; size = it.size; unsynced = it.unsynced; torn = it.torn } };

    ghost invariant = { λ it. (TellsNoOther (F.File.name it.file) it.name) × (F.tells ≡ true → F.File.name it.file ≡ Some it.name)
        × IsChunk F.tells (record { name = it.name; file = F.state it.file; size = it.size; unsynced = it.unsynced; torn = it.torn }) };
}

impl<F: Folder> Filling<F> {
    /// Creates the file of a chunk, which takes records of the class that its name says.
    pub fn begin(port: &mut F, name: ChunkName) -> Result<Filling<F>, FolderRefusal>
        requires valid { IsChunkName name }
        requires free { F.tells ≡ true → IsFreeName (F.port port.old) name }
        ensures begun { IfOk result (IsTold F.tells (begun name)) }
        ensures port { F.tells ≡ true → BeginsAt result (F.port port.old) (F.port port.new) name }
        ensures counts { CountsCall ⟦<F as Folder>⟧ (is_fault result) port.old port.new }
    {
        let file = port.create(name)?;
        Ok(Filling {
            name,
            file,
            size: 0,
            unsynced: false,
            torn: false,
        })
    }

    /// The chunk's name.
    pub fn name(&self) -> ChunkName
        ensures { result ≡ self.now.name }
    {
        self.name
    }

    /// The bytes of the records that were appended.
    pub fn size(&self) -> u64
        ensures size { result ≡ self.now.size }
        ensures chunk { IsChunk F.tells self.now }
    {
        self.size
    }

    /// Whether so many more bytes keep the limit. An empty chunk takes any record.
    pub fn fits(&self, len: u64, limit: u64) -> bool
        ensures { result ≡ fits self.now.size len limit }
    {
        self.size == 0 || self.size <= limit && len <= limit - self.size
    }

    /// Appends one spelled record, and answers its offset. After `Fault` a prefix of it may stand behind the records.
    pub fn append(&mut self, port: &mut F, bytes: &[u8]) -> Result<u64, FolderRefusal>
        requires spelled { IsOneRecord (class_of_kind self.old.name.kind) bytes.now }
        requires room { fits self.old.size (length bytes.now) MAX_CHUNK_LIMIT ≡ true }
        requires whole { self.old.torn ≡ false }
        ensures appended { Appends F.tells result self.old self.new bytes.now }
        ensures sized { F.tells ≡ true → self.old.size ≡ length self.old.file.bytes }
        ensures port { LeavesPort ⟦<F as Folder>⟧ (is_fault result) port.old port.new }
    {
        let offset = self.size;
        match port.append(&mut self.file, bytes) {
            Ok(()) => {
                self.size += bytes.len() as u64;
                self.unsynced = true;
                Ok(offset)
            }
            Err(FolderRefusal::Fault) => {
                self.unsynced = true;
                self.torn = true;
                Err(FolderRefusal::Fault)
            }
            Err(FolderRefusal::Memory) => Err(FolderRefusal::Memory),
        }
    }

    /// Makes the file's bytes durable. It makes no call of the folder where no bytes are past the front.
    pub fn sync(&mut self, port: &mut F) -> Result<(), FolderRefusal>
        ensures synced { SyncsFile F.tells result self.old self.new }
        ensures idle { self.old.unsynced ≡ false → IsOk result × (self.new ≡ self.old) × (port.new ≡ port.old) }
        ensures port { LeavesPort ⟦<F as Folder>⟧ (is_fault result) port.old port.new }
    {
        if self.unsynced {
            port.sync_file(&mut self.file)?;
            self.unsynced = false;
        }
        Ok(())
    }

    /// Takes note that the file's name is durable, where the port says so, and answers whether it is.
    pub fn mark(&mut self, port: &F) -> bool
        ensures fixed { F.tells ≡ true → result ≡ (F.port port.now).fixed self.old.name }
        ensures marked { Marks F.tells result self.old self.new }
    {
        port.mark(&mut self.file)
    }

    /// The chunk as one that takes no more records.
    pub fn fill(self) -> Full<F>
        requires { self.torn ≡ false }
        ensures { result ≡ self }
    {
        Full { filling: self }
    }

    /// Gives the file back to the folder.
    pub fn give(self, port: &mut F)
        ensures { GivesFile ⟦<F as Folder>⟧ port.old port.new self.name self.file }
    {
        let Filling {
            name: _,
            file,
            size: _,
            unsynced: _,
            torn: _,
        } = self;
        port.give(file);
    }

    /// The chunk's name, its file, and the bytes of its records.
    pub(crate) fn into_parts(self) -> (ChunkName, F::File, u64)
        ensures name { result.0 ≡ self.name }
        ensures size { result.2 ≡ self.size }
        ensures chunk { IsChunk F.tells self }
        ensures told { TellsNoOther (F.File.name result.1) self.name }
        ensures file { F.tells ≡ true → (F.File.name result.1 ≡ Some self.name) × (F.state result.1 ≡ self.file) }
    {
        let Filling {
            name,
            file,
            size,
            unsynced: _,
            torn: _,
        } = self;
        (name, file, size)
    }
}
