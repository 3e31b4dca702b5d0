//! A chunk that takes no more records.

ghost use Rattle.std.specs.Prelude.{◌≡◌, true, false, IsOk, MatchResult};
ghost use Rattle.dir_files.specs.Files.{IsDurable};
ghost use Rattle.dir_files.specs.Faults.{is_disk, is_fault};
ghost use Rattle.dir_files.specs.PortCalls.{CountsCall, GivesFile, LeavesPort};
ghost use Rattle.dir_files.specs.Ports.{can_be_fixed};
ghost use Rattle.value_chunk.specs.Calls.{IsChunkKept, Marks, Seals, SealsAt, SyncsFile};

use crate::filling::Filling;
use crate::sealed::Sealed;
use dir_files::{Folder, FolderRefusal};
use hr_base::ChunkName;
use std::marker::Model;

/// A chunk that takes no more records, and waits for the sync that seals it.
pub struct Full<F: Folder> {
    pub(crate) filling: Filling<F>,
}

impl<F: Folder> Model for Full<F> {
    ghost use Rattle.std.specs.Prelude.{◌≡◌, false};
    ghost use Rattle.value_chunk.specs.Chunks.{Chunk};

    ghost Value = { Chunk };

    ghost view = { λ it. it.filling };

    ghost invariant = { λ it. it.filling.torn ≡ false };
}

/// A chunk that was not sealed, and why.
pub struct NotSealed<F: Folder> {
    pub kept: Full<F>,
    pub why: FolderRefusal,
}

impl<F: Folder> Full<F> {
    /// The chunk's name.
    pub fn name(&self) -> ChunkName
        ensures { result ≡ self.now.name }
    {
        self.filling.name()
    }

    /// Makes the file's bytes durable. It makes no call of the folder where no bytes are past the front.
    pub fn sync(&mut self, port: &mut F) -> Result<(), FolderRefusal>
        ensures synced { SyncsFile F.tells result self.old self.new }
        ensures idle { self.old.unsynced ≡ false → IsOk result × (self.new ≡ self.old) × (port.new ≡ port.old) }
        ensures port { LeavesPort ⟦<F as Folder>⟧ (is_fault result) port.old port.new }
    {
        self.filling.sync(port)
    }

    /// Takes note that the file's name is durable, where the port says so, and answers whether it is.
    pub fn mark(&mut self, port: &F) -> bool
        ensures fixed { F.tells ≡ true → result ≡ (F.port port.now).fixed self.old.name }
        ensures marked { Marks F.tells result self.old self.new }
    {
        self.filling.mark(port)
    }

    /// The chunk as one that is sealed, where bytes and name are known to be durable. It makes no call of the folder.
    pub fn sealed(self) -> Sealed<F>
        requires synced { self.unsynced ≡ false }
        requires durable { F.tells ≡ true → IsDurable self.file }
        ensures { result ≡ self }
    {
        let Full { filling } = self;
        Sealed { filling }
    }

    /// Makes the file's bytes and then its name durable. It makes no call of the folder that is not needed.
    pub fn seal(self, port: &mut F) -> Result<Sealed<F>, NotSealed<F>>
        requires { F.tells ≡ true → can_be_fixed (F.port port.old) self.name ≡ true }
        ensures sealed { MatchResult result
            (λ sealed. Seals F.tells self sealed) (λ refused. IsChunkKept F.tells self refused.kept) }
        ensures idle { F.tells ≡ true → self.unsynced ≡ false → (F.port port.old).fixed self.name ≡ true
            → IsOk result × (port.new ≡ port.old) }
        ensures port { F.tells ≡ true → SealsAt result (F.port port.old) (F.port port.new) self.name }
        ensures counts { MatchResult result (λ _. CountsCall ⟦<F as Folder>⟧ false port.old port.new)
            (λ refused. CountsCall ⟦<F as Folder>⟧ (is_disk refused.why) port.old port.new) }
    {
        let Full { mut filling } = self;
        match make_durable(&mut filling, port) {
            Ok(()) => Ok(Sealed { filling }),
            Err(why) => Err(NotSealed {
                kept: Full { filling },
                why,
            }),
        }
    }

    /// Gives the file back to the folder.
    pub fn give(self, port: &mut F)
        ensures { GivesFile ⟦<F as Folder>⟧ port.old port.new self.name self.file }
    {
        let Full { filling } = self;
        filling.give(port);
    }
}

/// Makes a file's bytes and then its name durable.
fn make_durable<F: Folder>(chunk: &mut Filling<F>, port: &mut F) -> Result<(), FolderRefusal>
    requires { F.tells ≡ true → can_be_fixed (F.port port.old) chunk.old.name ≡ true }
    ensures sealed { MatchResult result
        (λ _. Seals F.tells chunk.old chunk.new) (λ _. IsChunkKept F.tells chunk.old chunk.new) }
    ensures idle { F.tells ≡ true → chunk.old.unsynced ≡ false → (F.port port.old).fixed chunk.old.name ≡ true
        → IsOk result × (port.new ≡ port.old) }
    ensures port { F.tells ≡ true → SealsAt result (F.port port.old) (F.port port.new) chunk.old.name }
    ensures counts { CountsCall ⟦<F as Folder>⟧ (is_fault result) port.old port.new }
{
    chunk.sync(port)?;
    if chunk.mark(port) {
        return Ok(());
    }
    port.sync_names()?;
    chunk.mark(port);
    Ok(())
}
