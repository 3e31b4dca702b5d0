//! The chunks that take records.

ghost use Rattle.std.specs.Prelude.{◌≡◌, true, false, [], All, IfSome, IsOk, length, option_map, option_to_list};
ghost use Rattle.hr_base.specs.declared.limits.TheConstants.{MAX_CHUNK_LIMIT};
ghost use Rattle.hr_base.specs.Names.{class_of_kind};
ghost use Rattle.std.specs.List.{AllZip};
ghost use Rattle.dir_files.specs.Faults.{is_fault};
ghost use Rattle.dir_files.specs.PortCalls.{CountsCall, LeavesPort};
ghost use Rattle.value_chunk.specs.Chunks.{IsOneRecord};
ghost use Rattle.writer_files.specs.Hands.{AreOnce, IsOf, no_takings, of_class, taking_fits, taking_list, with_class};
ghost use Rattle.writer_files.specs.HandCalls.{AppendsIn, AppendsTo, EachTaking, GivesEach, IsMarkedFrom, SyncsEach, SyncsTakings};

use dir_files::{Folder, FolderRefusal};
use hr_base::{ChunkName, Class, class_of};
use std::marker::Model;
use value_chunk::Filling;

/// The chunks that take records, one of each class at most. It owns the handles of their files, so nobody else acts on
/// them.
pub(crate) struct Fillings<F: Folder> {
    values: Option<Filling<F>>,
    tombs: Option<Filling<F>>,
    clears: Option<Filling<F>>,
}

impl<F: Folder> Model for Fillings<F> {
    ghost use Rattle.writer_files.specs.Hands.{HasClasses, Takings};

    ghost Value = { Takings };

    ghost view = { λ it. record { values = it.values; tombs = it.tombs; clears = it.clears } };

    ghost invariant = { λ it. HasClasses (record { values = it.values; tombs = it.tombs; clears = it.clears }) };
}

impl<F: Folder> Fillings<F> {
    /// No chunks. It takes no memory.
    pub(crate) fn none() -> Fillings<F>
        ensures { result ≡ no_takings }
    {
        Fillings {
            values: None,
            tombs: None,
            clears: None,
        }
    }

    /// The chunk of the class.
    fn slot(&self, class: Class) -> &Option<Filling<F>>
        ensures { result.now ≡ of_class self.now class }
    {
        match class {
            Class::Value => &self.values,
            Class::Tomb => &self.tombs,
            Class::Clear => &self.clears,
        }
    }

    /// Whether some chunk of the class takes records, and so many more bytes keep the limit there.
    pub(crate) fn takes(&self, class: Class, len: u64, limit: u64) -> bool
        ensures { result ≡ taking_fits (of_class self.now class) len limit }
    {
        match self.slot(class) {
            Some(chunk) => chunk.fits(len, limit),
            None => false,
        }
    }

    /// The name of the chunk of the class.
    pub(crate) fn name(&self, class: Class) -> Option<ChunkName>
        ensures { result ≡ option_map (λ chunk. chunk.name) (of_class self.now class) }
    {
        match self.slot(class) {
            Some(chunk) => Some(chunk.name()),
            None => None,
        }
    }

    /// Takes the chunk as the one of its class, and hands out the one before it.
    pub(crate) fn replace(&mut self, chunk: Filling<F>) -> Option<Filling<F>>
        ensures before { result ≡ of_class self.old (class_of_kind chunk.name.kind) }
        ensures after { self.new ≡ with_class self.old (class_of_kind chunk.name.kind) (Some chunk) }
    {
        match class_of(chunk.name().kind) {
            Class::Value => self.values.replace(chunk),
            Class::Tomb => self.tombs.replace(chunk),
            Class::Clear => self.clears.replace(chunk),
        }
    }

    /// Appends one spelled record to the chunk of its class, and answers its offset. After `Fault` a prefix of it may
    /// stand behind the others.
    pub(crate) fn append(
        &mut self,
        port: &mut F,
        class: Class,
        bytes: &[u8],
    ) -> Result<u64, FolderRefusal>
        requires spelled { IsOneRecord class bytes.now }
        requires room { taking_fits (of_class self.old class) (length bytes.now) MAX_CHUNK_LIMIT ≡ true }
        requires whole { IfSome (of_class self.old class) (λ chunk. chunk.torn ≡ false) }
        ensures appended { AppendsIn F.tells result self.old self.new class bytes.now }
        ensures port { LeavesPort ⟦<F as Folder>⟧ (is_fault result) port.old port.new }
    {
        match class {
            Class::Value => append_to(&mut self.values, port, class, bytes),
            Class::Tomb => append_to(&mut self.tombs, port, class, bytes),
            Class::Clear => append_to(&mut self.clears, port, class, bytes),
        }
    }

    /// Makes the bytes of each file durable, of one after another until the folder refuses one. It makes no call of the
    /// folder for a file that has no bytes past its front.
    pub(crate) fn sync(&mut self, port: &mut F) -> Result<(), FolderRefusal>
        ensures synced { SyncsTakings F.tells result self.old self.new }
        ensures idle { All (λ chunk. chunk.unsynced ≡ false) (taking_list self.old)
            → IsOk result × (self.new ≡ self.old) × (port.new ≡ port.old) }
        ensures port { LeavesPort ⟦<F as Folder>⟧ (is_fault result) port.old port.new }
    {
        sync_taking(&mut self.values, port)?;
        sync_taking(&mut self.tombs, port)?;
        sync_taking(&mut self.clears, port)
    }

    /// Takes note of the names that the port says are durable.
    pub(crate) fn mark(&mut self, port: &F)
        ensures { EachTaking (IsMarkedFrom F.tells (F.port port.now).fixed) self.old self.new }
    {
        mark_taking(&mut self.values, port);
        mark_taking(&mut self.tombs, port);
        mark_taking(&mut self.clears, port);
    }

    /// Gives every file back to the folder.
    pub(crate) fn give(self, port: &mut F)
        requires { F.tells ≡ true → AreOnce (taking_list self) }
        ensures given { F.tells ≡ true → GivesEach (F.port port.old) (F.port port.new) (taking_list self) }
        ensures counts { CountsCall ⟦<F as Folder>⟧ false port.old port.new }
    {
        let Fillings {
            values,
            tombs,
            clears,
        } = self;
        give_taking(clears, port);
        give_taking(tombs, port);
        give_taking(values, port);
    }
}

/// Appends one spelled record to the chunk, which has room for it.
fn append_to<F: Folder>(
    taking: &mut Option<Filling<F>>,
    port: &mut F,
    class: Class,
    bytes: &[u8],
) -> Result<u64, FolderRefusal>
    requires spelled { IsOneRecord class bytes.now }
    requires of { IsOf class taking.old }
    requires room { taking_fits taking.old (length bytes.now) MAX_CHUNK_LIMIT ≡ true }
    requires whole { IfSome taking.old (λ chunk. chunk.torn ≡ false) }
    ensures appended { AppendsTo F.tells result taking.old taking.new bytes.now }
    ensures port { LeavesPort ⟦<F as Folder>⟧ (is_fault result) port.old port.new }
{
    match taking {
        Some(chunk) => chunk.append(port, bytes),
        None => unreachable!(),
    }
}

/// Makes the bytes of the chunk's file durable, where there is a chunk.
fn sync_taking<F: Folder>(
    taking: &mut Option<Filling<F>>,
    port: &mut F,
) -> Result<(), FolderRefusal>
    ensures synced { SyncsEach F.tells result (option_to_list taking.old) (option_to_list taking.new) }
    ensures idle { All (λ chunk. chunk.unsynced ≡ false) (option_to_list taking.old)
        → IsOk result × (taking.new ≡ taking.old) × (port.new ≡ port.old) }
    ensures port { LeavesPort ⟦<F as Folder>⟧ (is_fault result) port.old port.new }
{
    match taking {
        Some(chunk) => chunk.sync(port),
        None => Ok(()),
    }
}

/// Takes note that the name of the chunk's file is durable, where there is a chunk and the port says so.
fn mark_taking<F: Folder>(taking: &mut Option<Filling<F>>, port: &F)
    ensures { AllZip (IsMarkedFrom F.tells (F.port port.now).fixed) (option_to_list taking.old) (option_to_list taking.new) }
{
    if let Some(chunk) = taking {
        chunk.mark(port);
    }
}

/// Gives the chunk's file back to the folder, where there is a chunk.
fn give_taking<F: Folder>(taking: Option<Filling<F>>, port: &mut F)
    ensures given { F.tells ≡ true → GivesEach (F.port port.old) (F.port port.new) (option_to_list taking) }
    ensures counts { CountsCall ⟦<F as Folder>⟧ false port.old port.new }
{
    match taking {
        Some(chunk) => chunk.give(port),
        None => {}
    }
}
