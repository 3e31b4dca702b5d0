//! A chunk whose bytes and name a crash keeps.

ghost use Rattle.std.specs.Prelude.{◌≡◌, ◌≤◌, true, Some};
ghost use Rattle.hr_base.specs.declared.limits.TheConstants.{MAX_CHUNK_LIMIT};
ghost use Rattle.hr_base.specs.Names.{TellsNoOther};
ghost use Rattle.dir_files.specs.PortCalls.{GivesFile};
ghost use Rattle.value_chunk.specs.Chunks.{IsSealed};

use crate::filling::Filling;
use dir_files::Folder;
use hr_base::ChunkName;
use std::marker::Model;

/// A chunk whose bytes and name a crash keeps.
pub struct Sealed<F: Folder> {
    pub(crate) filling: Filling<F>,
}

impl<F: Folder> Model for Sealed<F> {
    ghost use Rattle.std.specs.Prelude.{◌≡◌, true, false, length};
    ghost use Rattle.dir_files.specs.Files.{IsDurable};
    ghost use Rattle.value_chunk.specs.Chunks.{Chunk};

    ghost Value = { Chunk };

    ghost view = { λ it. it.filling };

    ghost invariant = { λ it. (it.filling.torn ≡ false) × (F.tells ≡ true → IsDurable it.filling.file) };
}

impl<F: Folder> Sealed<F> {
    /// The chunk's name, its file, and the file's length.
    pub fn into_file(self) -> (ChunkName, F::File, u64)
        ensures name { result.0 ≡ self.name }
        ensures size { result.2 ≡ self.size }
        ensures within { result.2 ≤ MAX_CHUNK_LIMIT }
        ensures told { TellsNoOther (F.File.name result.1) self.name }
        ensures file { F.tells ≡ true → (F.File.name result.1 ≡ Some self.name) × (F.state result.1 ≡ self.file) }
        ensures sealed { F.tells ≡ true → IsSealed self }
    {
        let Sealed { filling } = self;
        filling.into_parts()
    }

    /// Gives the file back to the folder.
    pub fn give(self, port: &mut F)
        ensures { GivesFile ⟦<F as Folder>⟧ port.old port.new self.name self.file }
    {
        let Sealed { filling } = self;
        filling.give(port);
    }
}
