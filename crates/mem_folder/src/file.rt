//! A handle of a file that lies in memory.

ghost use Rattle.std.specs.Prelude.{◌≡◌, ◌≤◌, Some, IfOk, OnOk, OnErr, length, take};
ghost use Rattle.hr_base.specs.Names.{IsChunkName};
ghost use Rattle.dir_files.specs.Files.{new_file, with_bytes, synced_file, named_file};

use crate::chain::{Chain, Entry, Slot};
use crate::content::Content;
use hr_base::{ChunkName, Named};
use std::alloc::{AllocError, Global};

/// A handle of a file: its name, its content, and a node for a port to keep it by.
#[derive(Debug, Drop)]
pub struct MemFile {
    name: ChunkName,
    content: Content,
    node: Box<Chain>,
    pub ghost fits: { content.front ≤ length content.bytes },
    pub ghost valid: { IsChunkName name },
}

impl Named for MemFile {
    ghost name = { λ file. Some file.name };
}

impl MemFile {
    ghost use Rattle.mem_folder.specs.Memory.{returned_entry, removed_entry};
    ghost use Rattle.mem_folder.specs.Moves.{MovesBytes};

    /// Of a file that lay at a port.
    pub(crate) fn of(name: ChunkName, content: Content, node: Box<Chain>) -> MemFile
        requires valid { IsChunkName name }
        requires fits { content.front ≤ length content.bytes }
        ensures name { result.name ≡ name }
        ensures content { result.content ≡ content }
    {
        MemFile {
            name,
            content,
            node,
        }
    }

    /// Of a file that was just created.
    pub(crate) fn new(alloc: Global, name: ChunkName) -> Result<MemFile, AllocError>
        requires { IsChunkName name }
        ensures name { IfOk result (λ file. file.name ≡ name) }
        ensures content { IfOk result (λ file. file.content ≡ new_file) }
    {
        let node = Chain::spare(alloc)?;
        Ok(MemFile {
            name,
            content: Content::new(alloc),
            node,
        })
    }

    /// The name of the file.
    pub(crate) fn name(&self) -> ChunkName
        ensures { result ≡ self.now.name }
    {
        self.name
    }

    /// The content of the file.
    pub(crate) fn content(&self) -> &Content
        ensures { result.now ≡ self.now.content }
    {
        &self.content
    }

    /// Moves bytes, from this offset on, to the front of a buffer, and gives how many.
    pub(crate) fn read(&self, at: u64, into: &mut [u8]) -> usize
        ensures { MovesBytes self.now.content.bytes at into.old into.new result }
    {
        self.content.read(at, into)
    }

    /// Adds bytes at the end.
    pub(crate) fn append(&mut self, piece: &[u8]) -> Result<(), AllocError>
        ensures appended { OnOk result (self.new.content ≡ with_bytes self.old.content piece.now) }
        ensures refused { OnErr result (self.new.content ≡ self.old.content) }
        ensures name { self.new.name ≡ self.old.name }
    {
        self.content.append(piece)
    }

    /// Makes the bytes durable.
    pub(crate) fn sync(&mut self)
        ensures content { self.new.content ≡ synced_file self.old.content }
        ensures name { self.new.name ≡ self.old.name }
    {
        self.content.sync();
    }

    /// Makes the name durable.
    pub(crate) fn fix_name(&mut self)
        ensures content { self.new.content ≡ named_file self.old.content }
        ensures name { self.new.name ≡ self.old.name }
    {
        self.content.fix_name();
    }

    /// What a port keeps of the file, and the node for that.
    pub(crate) fn into_slot(self) -> (Slot, Box<Chain>)
        ensures name { result.0.name ≡ self.name }
        ensures valid { IsChunkName result.0.name }
        ensures entry { result.0.entry ≡ returned_entry self.content }
    {
        let MemFile {
            name,
            content,
            node,
        } = self;
        let entry = Entry::returned(content);
        (Slot { name, entry }, node)
    }

    /// What a port keeps of the file where it is removed, and the node for that.
    pub(crate) fn into_removed_slot(self) -> (Slot, Box<Chain>)
        ensures name { result.0.name ≡ self.name }
        ensures valid { IsChunkName result.0.name }
        ensures entry { result.0.entry ≡ removed_entry self.content }
    {
        let MemFile {
            name,
            content,
            node,
        } = self;
        let entry = Entry::removed(content);
        (Slot { name, entry }, node)
    }
}
