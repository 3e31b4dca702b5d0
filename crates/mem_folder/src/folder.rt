//! A folder that lies in memory, and whose calls fail as planned.

ghost use Rattle.std.specs.Prelude.{◌≡◌, ◌≤◌, ◌+◌, ◌-◌, ◌/◌, ◌^◌, Some, None, [], true, false, All, length, min, take, MatchOption, IfOk, IsErrOf, IsSome, OnOk, OnErr, if◌then◌else◌};
ghost use Rattle.hr_base.specs.declared.name.ChunkName.{ChunkName};
ghost use Rattle.hr_base.specs.Names.{IsChunkName};
ghost use Rattle.dir_files.specs.Files.{FileState, new_file, with_bytes, synced_file, IsReadAt};
ghost use Rattle.dir_files.specs.Images.{IsImage, read_of, port_of_image};
ghost use Rattle.dir_files.specs.Ports.{IsEmptyPort, IsPort, SamePort, CanJoin, Joins, IsListing, IsFreeName, Takes, Creates, SyncsNames, Gives, Removes};
ghost use Rattle.dir_files.specs.Faults.{is_fault, is_remove_fault, kept_file, CountsFault, StaysSound};
ghost use Rattle.mem_folder.specs.Memory.{memory_port};
ghost use Rattle.mem_folder.specs.Crashes.{CrashesTo};
ghost use Rattle.mem_folder.specs.Lists.{image_of};
ghost use Rattle.mem_folder.specs.Moves.{MovesBytes};
ghost use Rattle.mem_folder.specs.Plans.{is_sound, FollowsPlan, ForksPlan, IsPlanned, KeepsPlan};

use crate::chain::{Chain, Entry, Slot};
use crate::content::Content;
use crate::faults::{FaultPlan, Faults};
use crate::file::MemFile;
use dir_files::{Folder, FolderRefusal, RemoveRefusal};
use hr_base::{ChunkName, Memory, Pick};
use std::alloc::Global;

/// A port of a folder in memory. Its calls fail as its plan says, and it tells everything. A failed `create` leaves no
/// file, and a failed `append` the first half of its piece.
#[derive(Debug, Drop)]
pub struct MemFolder {
    chain: Chain,
    faults: Faults,
    alloc: Global,
    ghost lawful: { IsPort (memory_port chain) },
}

impl MemFolder {
    /// The root port of an empty folder, which follows plan 0. Its k-th fork follows plan k. A missing plan never
    /// fails, and neither does a fork of a fork. It takes no memory.
    pub fn empty(alloc: Global, plans: Vec<FaultPlan>) -> MemFolder
        ensures empty { IsEmptyPort (⟦<MemFolder as Folder>⟧.port result) }
        ensures planned { IsPlanned result.faults plans.items }
        ensures count { ⟦<MemFolder as Folder>⟧.count result ≡ 0 }
        ensures sound { plans.items ≡ [] → ⟦<MemFolder as Folder>⟧.sound result ≡ true }
    {
        MemFolder {
            chain: Chain::empty(),
            faults: Faults::new(plans),
            alloc,
        }
    }

    /// The root port of a folder with these files, each of them durable. The first file of a name counts. The plans are
    /// those of `empty`.
    pub fn of(
        alloc: Global,
        files: Vec<(ChunkName, Vec<u8>)>,
        plans: Vec<FaultPlan>,
    ) -> Result<MemFolder, Memory>
        requires { All (λ file. IsChunkName file.0) files.items }
        ensures holds { IfOk result (λ folder. SamePort (port_of_image (image_of files.items)) (⟦<MemFolder as Folder>⟧.port folder)) }
        ensures planned { IfOk result (λ folder. IsPlanned folder.faults plans.items) }
        ensures count { IfOk result (λ folder. ⟦<MemFolder as Folder>⟧.count folder ≡ 0) }
        ensures sound { plans.items ≡ [] → IfOk result (λ folder. ⟦<MemFolder as Folder>⟧.sound folder ≡ true) }
    {
        let chain = Chain::of(alloc, files)?;
        Ok(MemFolder {
            chain,
            faults: Faults::new(plans),
            alloc,
        })
    }

    /// Whether a handle of some name is out.
    pub fn lends(&self) -> bool
        ensures some { result ≡ true → (name : ChunkName) × ((⟦<MemFolder as Folder>⟧.port self.now).lent name ≡ true) }
        ensures none { result ≡ false → (name : ChunkName) → (⟦<MemFolder as Folder>⟧.port self.now).lent name ≡ false }
    {
        self.chain.lends()
    }

    /// Whether a file of this name may be created here: none is held, lent or foreign, and none may come back.
    pub fn is_free(&self, name: ChunkName) -> bool
        ensures free { result ≡ true → IsFreeName (⟦<MemFolder as Folder>⟧.port self.now) name }
        ensures taken { result ≡ false → IsFreeName (⟦<MemFolder as Folder>⟧.port self.now) name → ⊥ }
    {
        match self.chain.entry(name) {
            None => true,
            Some(entry) => {
                entry.held.is_none() && entry.gone.is_none() && !entry.lent && !entry.foreign
            }
        }
    }

    /// The folder after a crash, which has one of its outcomes, as `docs/FORMATS.md` states. No call of it fails. It takes
    /// no memory.
    pub fn crash(self, pick: Pick) -> MemFolder
        requires { (name : ChunkName) → (⟦<MemFolder as Folder>⟧.port self).lent name ≡ false }
        ensures left { CrashesTo pick (⟦<MemFolder as Folder>⟧.port self) (⟦<MemFolder as Folder>⟧.port result) }
        ensures image { IsImage (⟦<MemFolder as Folder>⟧.port self).held (⟦<MemFolder as Folder>⟧.port self).gone (read_of (⟦<MemFolder as Folder>⟧.port result)) }
        ensures sound { ⟦<MemFolder as Folder>⟧.sound result ≡ true }
        ensures planned { IsPlanned result.faults [] }
    {
        let MemFolder {
            mut chain,
            faults: _,
            alloc,
        } = self;
        chain.crash(pick);
        MemFolder {
            chain,
            faults: Faults::new(Vec::new(alloc)),
            alloc,
        }
    }

    /// Counts a call, which the disk refuses where that is planned.
    fn strike(&mut self) -> Result<(), FolderRefusal>
        ensures cause { OnErr result (IsErrOf result FolderRefusal.Fault) }
        ensures same { self.new.chain ≡ self.old.chain }
        ensures planned { FollowsPlan self.old.faults self.new.faults (is_fault result) }
        ensures counts { CountsFault (is_fault result) self.old.faults.count self.new.faults.count }
        ensures stays_sound { StaysSound (is_sound self.old.faults) (is_sound self.new.faults) self.new.faults.count }
    {
        if self.faults.strikes() {
            Err(FolderRefusal::Fault)
        } else {
            Ok(())
        }
    }

    /// The bytes of a held file. It takes no memory.
    pub fn bytes(&self, name: ChunkName) -> Option<&[u8]>
        ensures { MatchOption result ((⟦<MemFolder as Folder>⟧.port self.now).held name ≡ None) (λ b. (file : FileState) × ((⟦<MemFolder as Folder>⟧.port self.now).held name ≡ Some file) × (b.now ≡ file.bytes)) }
    {
        match self.chain.entry(name) {
            None => None,
            Some(entry) => match &entry.held {
                None => None,
                Some(content) => Some(content.bytes()),
            },
        }
    }
}

/// What is appended of a piece: all of it, or where the disk fails the first half.
fn appended(piece: &[u8], fails: bool) -> &[u8]
    ensures { result.now ≡ (if fails then take (length piece.now / 2) piece.now else piece.now) }
{
    if fails {
        &piece[..piece.len() / 2]
    } else {
        piece
    }
}

impl Folder for MemFolder {
    type File = MemFile;

    ghost use Rattle.std.specs.Prelude.{true, refl};
    ghost use Rattle.mem_folder.specs.Memory.{memory_port};
    ghost use Rattle.mem_folder.specs.Plans.{is_sound, sound_count};

    ghost tells = { true };

    ghost port = { λ folder. memory_port folder.chain };

    ghost state = { λ file. file.content };

    ghost count = { λ folder. folder.faults.count };

    ghost sound = { λ folder. is_sound folder.faults };

    ghost file_fits = { λ file _. file.fits };

    ghost sound_count = { λ folder sound. sound_count folder.faults sound };

    ghost lawful = { λ folder _. folder.lawful };

    ghost file_named = { λ file _. (file.name, refl) };

    fn faults(&self) -> u64 {
        self.faults.count
    }

    fn fork(&mut self) -> Result<MemFolder, Memory>
        ensures fresh { IfOk result (λ fork. IsEmptyPort (memory_port fork.chain)) }
        ensures fresh_count { IfOk result (λ fork. fork.faults.count ≡ 0) }
        ensures fresh_sound { is_sound self.old.faults ≡ true → IfOk result (λ fork. is_sound fork.faults ≡ true) }
        ensures planned { IfOk result (λ fork. ForksPlan self.old.faults self.new.faults fork.faults) }
        ensures same { self.new.chain ≡ self.old.chain }
        ensures counts { self.new.faults.count ≡ self.old.faults.count }
        ensures stays_sound { StaysSound (is_sound self.old.faults) (is_sound self.new.faults) self.new.faults.count }
    {
        Ok(MemFolder {
            chain: Chain::empty(),
            faults: self.faults.fork(self.alloc),
            alloc: self.alloc,
        })
    }

    fn adopt(&mut self, other: MemFolder)
        requires { CanJoin (memory_port self.old.chain) (memory_port other.chain) }
        ensures joined { Joins (memory_port self.old.chain) (memory_port other.chain) (memory_port self.new.chain) }
        ensures planned { KeepsPlan self.old.faults self.new.faults }
        ensures added { self.new.faults.count ≡ min (self.old.faults.count + other.faults.count) (2 ^ 64 - 1) }
        ensures kept { self.old.faults.count ≤ self.new.faults.count }
        ensures stays_sound { is_sound other.faults ≡ true
            → StaysSound (is_sound self.old.faults) (is_sound self.new.faults) self.new.faults.count }
    {
        let MemFolder {
            mut chain,
            faults,
            alloc: _,
        } = other;
        let here = std::mem::replace(&mut self.chain, Chain::empty());
        chain.absorb(here);
        self.chain = chain;
        self.faults.adopt(faults);
    }

    fn names(&mut self) -> Result<Vec<ChunkName>, FolderRefusal>
        ensures valid { IfOk result (λ names. All IsChunkName names.items) }
        ensures listed { IfOk result (λ names. IsListing (memory_port self.old.chain) names.items) }
        ensures same { self.new.chain ≡ self.old.chain }
        ensures planned { FollowsPlan self.old.faults self.new.faults (is_fault result) }
        ensures counts { CountsFault (is_fault result) self.old.faults.count self.new.faults.count }
        ensures stays_sound { StaysSound (is_sound self.old.faults) (is_sound self.new.faults) self.new.faults.count }
    {
        self.strike()?;
        let mut names = Vec::new(self.alloc);
        self.chain.list(&mut names)?;
        Ok(names)
    }

    fn take(&mut self, name: ChunkName) -> Result<MemFile, FolderRefusal>
        requires valid { IsChunkName name }
        requires held { IsSome ((memory_port self.old.chain).held name) }
        ensures taken { OnOk result (Takes (memory_port self.old.chain) (memory_port self.new.chain) name) }
        ensures file { IfOk result (λ file. (file.name ≡ name) × (Some file.content ≡ (memory_port self.old.chain).held name)) }
        ensures refused { OnErr result (self.new.chain ≡ self.old.chain) }
        ensures planned { FollowsPlan self.old.faults self.new.faults (is_fault result) }
        ensures counts { CountsFault (is_fault result) self.old.faults.count self.new.faults.count }
        ensures stays_sound { StaysSound (is_sound self.old.faults) (is_sound self.new.faults) self.new.faults.count }
    {
        self.strike()?;
        let node = Chain::spare(self.alloc)?;
        let content = self.chain.lend(name);
        Ok(MemFile::of(name, content, node))
    }

    fn create(&mut self, name: ChunkName) -> Result<MemFile, FolderRefusal>
        requires valid { IsChunkName name }
        requires free { IsFreeName (memory_port self.old.chain) name }
        ensures created { OnOk result (Creates (memory_port self.old.chain) (memory_port self.new.chain) name) }
        ensures file { IfOk result (λ file. (file.name ≡ name) × (file.content ≡ new_file)) }
        ensures refused { OnErr result (self.new.chain ≡ self.old.chain) }
        ensures planned { FollowsPlan self.old.faults self.new.faults (is_fault result) }
        ensures counts { CountsFault (is_fault result) self.old.faults.count self.new.faults.count }
        ensures stays_sound { StaysSound (is_sound self.old.faults) (is_sound self.new.faults) self.new.faults.count }
    {
        self.strike()?;
        let node = Chain::spare(self.alloc)?;
        let file = MemFile::new(self.alloc, name)?;
        let entry = Entry::created();
        self.chain.merge(Slot { name, entry }, node);
        Ok(file)
    }

    /// Memory is taken before the call counts.
    fn append(&mut self, file: &mut MemFile, piece: &[u8]) -> Result<(), FolderRefusal>
        ensures appended { OnOk result (file.new.content ≡ with_bytes file.old.content piece.now) }
        ensures failed { IsErrOf result FolderRefusal.Fault
            → file.new.content ≡ with_bytes file.old.content (take (length piece.now / 2) piece.now) }
        ensures memory { IsErrOf result FolderRefusal.Memory → file.new.content ≡ file.old.content }
        ensures uncounted { IsErrOf result FolderRefusal.Memory → self.new ≡ self.old }
        ensures name { file.new.name ≡ file.old.name }
        ensures same { self.new.chain ≡ self.old.chain }
        ensures planned { (IsErrOf result FolderRefusal.Memory → ⊥) → FollowsPlan self.old.faults self.new.faults (is_fault result) }
        ensures counts { CountsFault (is_fault result) self.old.faults.count self.new.faults.count }
        ensures stays_sound { StaysSound (is_sound self.old.faults) (is_sound self.new.faults) self.new.faults.count }
    {
        file.append(appended(piece, self.faults.is_due()))?;
        self.strike()
    }

    fn sync_file(&mut self, file: &mut MemFile) -> Result<(), FolderRefusal>
        ensures synced { OnOk result (file.new.content ≡ synced_file file.old.content) }
        ensures refused { OnErr result (file.new.content ≡ file.old.content) }
        ensures name { file.new.name ≡ file.old.name }
        ensures same { self.new.chain ≡ self.old.chain }
        ensures planned { FollowsPlan self.old.faults self.new.faults (is_fault result) }
        ensures counts { CountsFault (is_fault result) self.old.faults.count self.new.faults.count }
        ensures stays_sound { StaysSound (is_sound self.old.faults) (is_sound self.new.faults) self.new.faults.count }
    {
        self.strike()?;
        file.sync();
        Ok(())
    }

    fn sync_names(&mut self) -> Result<(), FolderRefusal>
        ensures synced { OnOk result (SyncsNames (memory_port self.old.chain) (memory_port self.new.chain)) }
        ensures refused { OnErr result (self.new.chain ≡ self.old.chain) }
        ensures planned { FollowsPlan self.old.faults self.new.faults (is_fault result) }
        ensures counts { CountsFault (is_fault result) self.old.faults.count self.new.faults.count }
        ensures stays_sound { StaysSound (is_sound self.old.faults) (is_sound self.new.faults) self.new.faults.count }
    {
        self.strike()?;
        self.chain.sync();
        Ok(())
    }

    fn mark(&self, file: &mut MemFile) -> bool {
        let fixed = self.chain.is_fixed(file.name());
        if fixed {
            file.fix_name();
        }
        fixed
    }

    fn read(&mut self, file: &mut MemFile, at: u64, into: &mut [u8]) -> Result<usize, FolderRefusal>
        ensures given { IfOk result (λ count. IsReadAt file.old.content.bytes at into.new count) }
        ensures moved { IfOk result (λ count. MovesBytes file.old.content.bytes at into.old into.new count) }
        ensures refused { OnErr result (into.new ≡ into.old) }
        ensures bound { IfOk result (λ count. count ≤ length into.new) }
        ensures file { file.new.content ≡ file.old.content }
        ensures name { file.new.name ≡ file.old.name }
        ensures same { self.new.chain ≡ self.old.chain }
        ensures planned { FollowsPlan self.old.faults self.new.faults (is_fault result) }
        ensures counts { CountsFault (is_fault result) self.old.faults.count self.new.faults.count }
        ensures stays_sound { StaysSound (is_sound self.old.faults) (is_sound self.new.faults) self.new.faults.count }
    {
        self.strike()?;
        Ok(file.read(at, into))
    }

    fn remove(&mut self, file: MemFile) -> Result<(), RemoveRefusal<MemFile>>
        ensures removed { Removes (memory_port self.old.chain) (memory_port self.new.chain) file.name file.content }
        ensures done { kept_file result ≡ None }
        ensures planned { FollowsPlan self.old.faults self.new.faults (is_remove_fault result) }
        ensures counts { CountsFault (is_remove_fault result) self.old.faults.count self.new.faults.count }
        ensures stays_sound { StaysSound (is_sound self.old.faults) (is_sound self.new.faults) self.new.faults.count }
    {
        let struck = self.strike();
        let (slot, node) = file.into_removed_slot();
        self.chain.merge(slot, node);
        match struck {
            Ok(()) => Ok(()),
            Err(_refusal) => Err(RemoveRefusal::Fault),
        }
    }

    fn give(&mut self, file: MemFile)
        ensures given { Gives (memory_port self.old.chain) (memory_port self.new.chain) file.name file.content }
        ensures same { self.new.faults ≡ self.old.faults }
    {
        let (slot, node) = file.into_slot();
        self.chain.merge(slot, node);
    }
}
