//! The interface of a folder.

ghost use Rattle.std.specs.Prelude.{◌≡◌};
ghost use Rattle.dir_files.specs.declared.folder.FolderRefusal.TheVariants.{Memory as OutOfMemory};

use hr_base::{ChunkName, Memory, Named};
use std::alloc::AllocError;
use thiserror::Error;

/// Why a call on a folder did nothing, or not all.
#[derive(Clone, Copy, Debug, PartialEq, Eq, Error)]
pub enum FolderRefusal {
    /// There was no memory.
    #[error("out of memory")]
    Memory,
    /// The disk failed.
    #[error("the disk failed")]
    Fault,
}

/// Why a file was not removed.
#[derive(Debug, Drop)]
pub enum RemoveRefusal<File> {
    /// There was no memory. The handle comes back, and nothing changed.
    Memory(File),
    /// The disk failed. The file is gone all the same.
    Fault,
}

impl From<AllocError> for FolderRefusal {
    ghost from_gives = { λ _ e. e ≡ OutOfMemory };

    fn from(_refused: AllocError) -> FolderRefusal {
        FolderRefusal::Memory
    }
}

/// A port of a folder of chunk files. What each call makes of files, names and the count of faults stands in its
/// clauses, and the words of these in `specs/`. Clauses on files hold where the folder tells its content.
pub trait Folder: Sized {
    ghost use Rattle.std.specs.Prelude.{◌≡◌, ◌↔◌, ◌≤◌, ◌+◌, ◌-◌, ◌^◌, ℕ, Bool, true, false, List, Option, Some, None, IsTrue, IsErrOf, IfOk, IfSome, IsSome, OnOk, OnErr, MatchBool, All, length, min, take};
    ghost use Rattle.hr_base.specs.declared.name.ChunkName.{ChunkName};
    ghost use Rattle.hr_base.specs.Names.{IsChunkName, TellsNoOther};
    ghost use Rattle.dir_files.specs.Files.{FileState, new_file, with_bytes, synced_file, named_file, IsReadAt};
    ghost use Rattle.dir_files.specs.Faults.{is_fault, is_remove_fault, kept_file, CountsFault, StaysSound};
    ghost use Rattle.dir_files.specs.Ports.{Port, IsPort, SamePort, IsEmptyPort, CanJoin, Joins, IsListing, IsFreeName, Takes, Creates, MayCreate, SyncsNames, Gives, Removes};

    /// A handle of a file. It has the name of its file, and it moves by ownership. The name of a handle that is dropped
    /// stays lent: each call that owns handles says that it gives or hands on all of them.
    type File: Named + Drop;

    /// Whether the folder tells its content.
    ghost tells: { Bool };

    /// The files and names of the port.
    ghost port: { Self → Port };

    /// The file behind a handle.
    ghost state: { Self.File → FileState };

    /// How often the disk failed at this port.
    ghost count: { Self → ℕ };

    /// Whether the port tells that the disk never fails.
    ghost sound: { Self → Bool };

    /// How often the disk failed at this port, or the greatest number.
    fn faults(&self) -> u64
        ensures { result ≡ count self.now };

    /// Another port of the same folder. It has no file and no name, and has seen no fault.
    fn fork(&mut self) -> Result<Self, Memory>
        ensures fresh { tells ≡ true → IfOk result (λ fork. IsEmptyPort (port fork)) }
        ensures fresh_count { IfOk result (λ fork. count fork ≡ 0) }
        ensures fresh_sound { sound self.old ≡ true → IfOk result (λ fork. sound fork ≡ true) }
        ensures same { tells ≡ true → SamePort (port self.old) (port self.new) }
        ensures counts { count self.new ≡ count self.old }
        ensures stays_sound { StaysSound (sound self.old) (sound self.new) (count self.new) };

    /// Joins another port of the same folder to this one.
    fn adopt(&mut self, other: Self)
        requires { tells ≡ true → CanJoin (port self.old) (port other) }
        ensures joined { tells ≡ true → Joins (port self.old) (port other) (port self.new) }
        ensures added { count self.new ≡ min (count self.old + count other) (2 ^ 64 - 1) }
        ensures kept { count self.old ≤ count self.new }
        ensures stays_sound { sound other ≡ true → StaysSound (sound self.old) (sound self.new) (count self.new) };

    /// The chunk names of the held files, in any order. Names of files that are no chunk names are passed over.
    fn names(&mut self) -> Result<Vec<ChunkName>, FolderRefusal>
        ensures valid { IfOk result (λ names. All IsChunkName names.items) }
        ensures listed { tells ≡ true → IfOk result (λ names. IsListing (port self.old) names.items) }
        ensures same { tells ≡ true → SamePort (port self.old) (port self.new) }
        ensures counts { CountsFault (is_fault result) (count self.old) (count self.new) }
        ensures stays_sound { StaysSound (sound self.old) (sound self.new) (count self.new) };

    /// Gives the handle of a held file.
    fn take(&mut self, name: ChunkName) -> Result<Self::File, FolderRefusal>
        requires valid { IsChunkName name }
        requires held { tells ≡ true → IsSome ((port self.old).held name) }
        ensures name { IfOk result (λ file. TellsNoOther (Self.File.name file) name) }
        ensures taken { tells ≡ true → OnOk result (Takes (port self.old) (port self.new) name) }
        ensures file { tells ≡ true → IfOk result (λ file. (Self.File.name file ≡ Some name) × (Some (state file) ≡ (port self.old).held name)) }
        ensures refused { tells ≡ true → OnErr result (SamePort (port self.old) (port self.new)) }
        ensures counts { CountsFault (is_fault result) (count self.old) (count self.new) }
        ensures stays_sound { StaysSound (sound self.old) (sound self.new) (count self.new) };

    /// Makes an empty file, and gives its handle.
    fn create(&mut self, name: ChunkName) -> Result<Self::File, FolderRefusal>
        requires valid { IsChunkName name }
        requires free { tells ≡ true → IsFreeName (port self.old) name }
        ensures name { IfOk result (λ file. TellsNoOther (Self.File.name file) name) }
        ensures created { tells ≡ true → OnOk result (Creates (port self.old) (port self.new) name) }
        ensures file { tells ≡ true → IfOk result (λ file. (Self.File.name file ≡ Some name) × (state file ≡ new_file)) }
        ensures failed { tells ≡ true → IsErrOf result FolderRefusal.Fault → MayCreate (port self.old) (port self.new) name }
        ensures memory { tells ≡ true → IsErrOf result FolderRefusal.Memory → SamePort (port self.old) (port self.new) }
        ensures counts { CountsFault (is_fault result) (count self.old) (count self.new) }
        ensures stays_sound { StaysSound (sound self.old) (sound self.new) (count self.new) };

    /// Adds bytes at a file's end.
    fn append(&mut self, file: &mut Self::File, piece: &[u8]) -> Result<(), FolderRefusal>
        ensures appended { tells ≡ true → OnOk result (state file.new ≡ with_bytes (state file.old) piece.now) }
        ensures failed { tells ≡ true → IsErrOf result FolderRefusal.Fault → (n : ℕ) × (state file.new ≡ with_bytes (state file.old) (take n piece.now)) }
        ensures memory { tells ≡ true → IsErrOf result FolderRefusal.Memory → state file.new ≡ state file.old }
        ensures name { Self.File.name file.new ≡ Self.File.name file.old }
        ensures same { tells ≡ true → SamePort (port self.old) (port self.new) }
        ensures counts { CountsFault (is_fault result) (count self.old) (count self.new) }
        ensures stays_sound { StaysSound (sound self.old) (sound self.new) (count self.new) };

    /// Makes a file's bytes durable. A call that was refused adds nothing to them.
    fn sync_file(&mut self, file: &mut Self::File) -> Result<(), FolderRefusal>
        ensures synced { tells ≡ true → OnOk result (state file.new ≡ synced_file (state file.old)) }
        ensures refused { tells ≡ true → OnErr result (state file.new ≡ state file.old) }
        ensures name { Self.File.name file.new ≡ Self.File.name file.old }
        ensures same { tells ≡ true → SamePort (port self.old) (port self.new) }
        ensures counts { CountsFault (is_fault result) (count self.old) (count self.new) }
        ensures stays_sound { StaysSound (sound self.old) (sound self.new) (count self.new) };

    /// Makes the names of this port durable, and the removals too.
    fn sync_names(&mut self) -> Result<(), FolderRefusal>
        ensures synced { tells ≡ true → OnOk result (SyncsNames (port self.old) (port self.new)) }
        ensures refused { tells ≡ true → OnErr result (SamePort (port self.old) (port self.new)) }
        ensures counts { CountsFault (is_fault result) (count self.old) (count self.new) }
        ensures stays_sound { StaysSound (sound self.old) (sound self.new) (count self.new) };

    /// Tells a handle that its name is durable, where it is, and answers whether it is. It touches no disk.
    fn mark(&self, file: &mut Self::File) -> bool
        ensures fixed { tells ≡ true → (name : ChunkName) → Self.File.name file.old ≡ Some name → result ≡ (port self.now).fixed name }
        ensures marked { tells ≡ true → MatchBool result (state file.new ≡ named_file (state file.old)) (state file.new ≡ state file.old) }
        ensures name { Self.File.name file.new ≡ Self.File.name file.old };

    /// Moves bytes of a file, from this offset on, to the front of a buffer, and gives how many: 0 for a buffer that is not
    /// empty where the file has no byte there.
    fn read(
        &mut self,
        file: &mut Self::File,
        at: u64,
        into: &mut [u8],
    ) -> Result<usize, FolderRefusal>
        ensures bound { IfOk result (λ count. count ≤ length into.new) }
        ensures given { tells ≡ true → IfOk result (λ count. IsReadAt (state file.old).bytes at into.new count) }
        ensures file { tells ≡ true → state file.new ≡ state file.old }
        ensures name { Self.File.name file.new ≡ Self.File.name file.old }
        ensures same { tells ≡ true → SamePort (port self.old) (port self.new) }
        ensures counts { CountsFault (is_fault result) (count self.old) (count self.new) }
        ensures stays_sound { StaysSound (sound self.old) (sound self.new) (count self.new) };

    /// Removes a file, which may come back after a crash until the names of this port are made durable. Where the disk
    /// fails it is gone too.
    fn remove(&mut self, file: Self::File) -> Result<(), RemoveRefusal<Self::File>>
        ensures removed { tells ≡ true → kept_file result ≡ None → (name : ChunkName) → Self.File.name file ≡ Some name
            → Removes (port self.old) (port self.new) name (state file) }
        ensures kept { tells ≡ true → IfSome (kept_file result) (λ kept. state kept ≡ state file) }
        ensures name { IfSome (kept_file result) (λ kept. Self.File.name kept ≡ Self.File.name file) }
        ensures memory { tells ≡ true → IfSome (kept_file result) (λ _. SamePort (port self.old) (port self.new)) }
        ensures counts { CountsFault (is_remove_fault result) (count self.old) (count self.new) }
        ensures stays_sound { StaysSound (sound self.old) (sound self.new) (count self.new) };

    /// Takes a handle back. Its file is held from then on, and no removed file of its name can come back.
    fn give(&mut self, file: Self::File)
        ensures given { tells ≡ true → (name : ChunkName) → Self.File.name file ≡ Some name → Gives (port self.old) (port self.new) name (state file) }
        ensures counts { count self.new ≡ count self.old }
        ensures stays_sound { StaysSound (sound self.old) (sound self.new) (count self.new) };

    /// A file has what a crash keeps of it.
    ghost file_fits: { (file : Self.File) → tells ≡ true → (state file).front ≤ length (state file).bytes };

    /// A crash keeps of each file what is there, no name is held and gone at once, and a fixed name is lent.
    ghost lawful: { (it : Self) → tells ≡ true → IsPort (port it) };

    /// A handle knows its name.
    ghost file_named: { (file : Self.File) → tells ≡ true → (name : ChunkName) × (Self.File.name file ≡ Some name) };

    /// A port that tells that the disk never fails has seen no fault.
    ghost sound_count: { (it : Self) → sound it ≡ true → count it ≡ 0 };
}
