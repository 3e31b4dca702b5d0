//! All chunks that a writer has in hand.

ghost use Rattle.std.specs.Prelude.{◌≡◌, true};
ghost use Rattle.writer_files.specs.HandProps.{stock_prop};
ghost use Rattle.writer_files.specs.Stocks.{IsStock};

use crate::full::{give_each, mark_full, place, sync_full};
use crate::taking::Fillings;
use dir_files::{Folder, FolderRefusal};
use hr_base::{ChunkName, Class};
use std::alloc::Global;
use std::collections::VecDeque;
use value_chunk::{Filling, Full, Sealed};

/// All chunks that a writer has in hand, and the port that they go through. What each call makes of chunks, files and
/// port stands in its clauses, and the words of these in `specs/`.
pub struct WriterFiles<F: Folder> {
    port: F,
    taking: Fillings<F>,
    /// Those that take no more records, in the order of their names.
    full: VecDeque<Full<F>>,
    /// A file was created since the last directory sync, or may have been.
    fresh: bool,
    ghost stocked: { F.tells ≡ true → IsStock (record { port = F.port port; taking = taking; full = full.items; fresh = fresh }) } by { Prim.hlevel stock_prop },
}

impl<F: Folder> WriterFiles<F> {
    ghost use Rattle.std.specs.Prelude.{◌≢◌, ◌<◌, ◌||◌, [], false, Some, None, All, IfSome, IfNone, IsOk, OnOk, length, option_map, option_to_list};
    ghost use Rattle.hr_base.specs.declared.limits.TheConstants.{MAX_CHUNK_LIMIT};
    ghost use Rattle.hr_base.specs.declared.name.Class.{Class};
    ghost use Rattle.hr_base.specs.declared.name.ChunkName.{ChunkName};
    ghost use Rattle.hr_base.specs.Names.{IsChunkName, class_of_kind};
    ghost use Rattle.hr_base.specs.NameTests.{is_name};
    ghost use Rattle.dir_files.specs.Faults.{is_fault};
    ghost use Rattle.dir_files.specs.Files.{ChangesAt, FileState, IsDurable, IsFile, Names};
    ghost use Rattle.dir_files.specs.PortCalls.{CountsCall, LeavesPort};
    ghost use Rattle.dir_files.specs.Ports.{IsEmptyPort};
    ghost use Rattle.value_chunk.specs.Chunks.{IsOneRecord};
    ghost use Rattle.writer_files.specs.Stocks.{files_of, in_hand, is_in_hand, taking_in, takes, AllDurable, HasNone, IsSynced, LendsBut};
    ghost use Rattle.writer_files.specs.StockCalls.{AppendsAny, BeginsAny, BeginsFile, EachRises, ExtendsFile, HandsOut, KeepsHands};
    ghost use Rattle.writer_files.specs.StockViews.{stock_port, stock};

    /// No chunks, over a port without files. It takes no memory.
    pub fn new(alloc: Global, port: F) -> WriterFiles<F>
        requires { F.tells ≡ true → IsEmptyPort (F.port port) }
        ensures port { stock_port result ≡ port }
        ensures hands { HasNone (stock result) }
        ensures fresh { (stock result).fresh ≡ false }
        ensures files { F.tells ≡ true → (name : ChunkName) → files_of (stock result) name ≡ None }
        ensures lends { F.tells ≡ true → (others : Names) → LendsBut others (stock result) }
    {
        WriterFiles {
            port,
            taking: Fillings::none(),
            full: VecDeque::new(alloc),
            fresh: false,
        }
    }

    /// How often the disk failed at the port, or the greatest number.
    pub fn faults(&self) -> u64
        ensures { result ≡ F.count (stock_port self.now) }
    {
        self.port.faults()
    }

    /// Whether some chunk of the class takes records, and so many more bytes keep the limit there.
    pub fn takes(&self, class: Class, len: u64, limit: u64) -> bool
        ensures { result ≡ takes (stock self.now) class len limit }
    {
        self.taking.takes(class, len, limit)
    }

    /// The name of the chunk of the class that takes records.
    pub fn name(&self, class: Class) -> Option<ChunkName>
        ensures { result ≡ option_map (λ chunk. chunk.name) (taking_in (stock self.now) class) }
    {
        self.taking.name(class)
    }

    /// Creates the file of a chunk, which takes the records of its class from then on. The one before it is full.
    pub fn begin(&mut self, name: ChunkName) -> Result<(), FolderRefusal>
        requires valid { IsChunkName name }
        requires whole { IfSome (taking_in (stock self.old) (class_of_kind name.kind)) (λ chunk. chunk.torn ≡ false) }
        requires free { F.tells ≡ true
            → (files_of (stock self.old) name ≡ None) × ((stock self.old).port.lent name ≡ false) }
        ensures begun { BeginsAny F.tells result (stock self.old) (stock self.new) name }
        ensures files { F.tells ≡ true
            → BeginsFile result (files_of (stock self.old)) (files_of (stock self.new)) name }
        ensures lends { F.tells ≡ true → (others : Names) → LendsBut others (stock self.old)
            → LendsBut others (stock self.new) }
        ensures counts { CountsCall ⟦<F as Folder>⟧ (is_fault result) (stock_port self.old) (stock_port self.new) }
    {
        self.full.reserve(1)?;
        match Filling::begin(&mut self.port, name) {
            Ok(chunk) => {
                self.fresh = true;
                if let Some(before) = self.taking.replace(chunk) {
                    place(&mut self.full, before.fill());
                }
                Ok(())
            }
            Err(FolderRefusal::Fault) => {
                self.fresh = true;
                Err(FolderRefusal::Fault)
            }
            Err(FolderRefusal::Memory) => Err(FolderRefusal::Memory),
        }
    }

    /// Appends one spelled record to the chunk of its class that takes records, and answers its offset. After `Fault` a
    /// prefix of it may stand behind the others.
    pub fn append(&mut self, class: Class, bytes: &[u8]) -> Result<u64, FolderRefusal>
        requires spelled { IsOneRecord class bytes.now }
        requires room { takes (stock self.old) class (length bytes.now) MAX_CHUNK_LIMIT ≡ true }
        requires whole { IfSome (taking_in (stock self.old) class) (λ chunk. chunk.torn ≡ false) }
        ensures appended { AppendsAny F.tells result (stock self.old) (stock self.new) class bytes.now }
        ensures files { F.tells ≡ true → IfSome (taking_in (stock self.old) class)
            (λ chunk. ExtendsFile result (files_of (stock self.old)) (files_of (stock self.new)) chunk.name bytes.now) }
        ensures lends { F.tells ≡ true → (others : Names) → LendsBut others (stock self.old)
            → LendsBut others (stock self.new) }
        ensures port { LeavesPort ⟦<F as Folder>⟧ (is_fault result) (stock_port self.old) (stock_port self.new) }
    {
        self.taking.append(&mut self.port, class, bytes)
    }

    /// Makes all records and names durable: the bytes of each file that has some past its front, then the names, where
    /// a file was created since the last time. It makes no call of the folder where nothing is to be synced. After a
    /// refusal some files may have been synced.
    pub fn sync(&mut self) -> Result<(), FolderRefusal>
        ensures durable { F.tells ≡ true → OnOk result (AllDurable (files_of (stock self.new))) }
        ensures synced { OnOk result (IsSynced (stock self.new)) }
        ensures idle { IsSynced (stock self.old) → IsOk result × (stock self.new ≡ stock self.old)
            × (stock_port self.new ≡ stock_port self.old) }
        ensures kept { KeepsHands (stock self.old) (stock self.new) }
        ensures files { F.tells ≡ true → EachRises (files_of (stock self.old)) (files_of (stock self.new)) }
        ensures fits { F.tells ≡ true → (name : ChunkName) (file : FileState)
            → files_of (stock self.new) name ≡ Some file → IsFile file }
        ensures lends { F.tells ≡ true → (others : Names) → LendsBut others (stock self.old)
            → LendsBut others (stock self.new) }
        ensures counts { CountsCall ⟦<F as Folder>⟧ (is_fault result) (stock_port self.old) (stock_port self.new) }
    {
        self.sync_bytes()?;
        if self.fresh {
            self.sync_names()?;
        }
        Ok(())
    }

    /// Makes the bytes of each file in hand durable, of one after another until the folder refuses one.
    fn sync_bytes(&mut self) -> Result<(), FolderRefusal>
        ensures synced { OnOk result (All (λ chunk. chunk.unsynced ≡ false) (in_hand (stock self.new))) }
        ensures fresh { (stock self.new).fresh ≡ (stock self.old).fresh }
        ensures idle { All (λ chunk. chunk.unsynced ≡ false) (in_hand (stock self.old))
            → IsOk result × (stock self.new ≡ stock self.old) × (stock_port self.new ≡ stock_port self.old) }
        ensures kept { KeepsHands (stock self.old) (stock self.new) }
        ensures files { F.tells ≡ true → EachRises (files_of (stock self.old)) (files_of (stock self.new)) }
        ensures lends { F.tells ≡ true → (others : Names) → LendsBut others (stock self.old)
            → LendsBut others (stock self.new) }
        ensures counts { CountsCall ⟦<F as Folder>⟧ (is_fault result) (stock_port self.old) (stock_port self.new) }
    {
        sync_full(&mut self.full, &mut self.port)?;
        self.taking.sync(&mut self.port)
    }

    /// Makes the names durable, where all bytes are.
    fn sync_names(&mut self) -> Result<(), FolderRefusal>
        requires synced { All (λ chunk. chunk.unsynced ≡ false) (in_hand (stock self.old)) }
        ensures durable { F.tells ≡ true → OnOk result (AllDurable (files_of (stock self.new))) }
        ensures synced { OnOk result (IsSynced (stock self.new)) }
        ensures kept { KeepsHands (stock self.old) (stock self.new) }
        ensures files { F.tells ≡ true → EachRises (files_of (stock self.old)) (files_of (stock self.new)) }
        ensures lends { F.tells ≡ true → (others : Names) → LendsBut others (stock self.old)
            → LendsBut others (stock self.new) }
        ensures counts { CountsCall ⟦<F as Folder>⟧ (is_fault result) (stock_port self.old) (stock_port self.new) }
    {
        self.port.sync_names()?;
        mark_full(&mut self.full, &self.port);
        self.taking.mark(&self.port);
        self.fresh = false;
        Ok(())
    }

    /// The first full chunk by name, which is sealed by a sync. It takes no memory, and makes no call of the folder.
    pub fn next_sealed(&mut self) -> Option<Sealed<F>>
        requires { IsSynced (stock self.old) }
        ensures none { IfNone result (((stock self.old).full ≡ []) × (stock self.new ≡ stock self.old)) }
        ensures out { IfSome result (λ chunk. HandsOut (stock self.old) (stock self.new) chunk) }
        ensures files { F.tells ≡ true → IfSome result (λ chunk. (files_of (stock self.old) chunk.name ≡ Some chunk.file)
            × ChangesAt (files_of (stock self.old)) (files_of (stock self.new)) chunk.name None) }
        ensures lends { F.tells ≡ true → IfSome result (λ chunk. ((stock self.new).port.lent chunk.name ≡ true)
            × ((others : Names) → LendsBut others (stock self.old)
            → LendsBut (λ name. others name || is_name chunk.name name) (stock self.new))) }
        ensures durable { F.tells ≡ true → IfSome result (λ chunk. IsDurable chunk.file) }
        ensures port { stock_port self.new ≡ stock_port self.old }
    {
        match self.full.pop_front() {
            Some(chunk) => Some(chunk.sealed()),
            None => None,
        }
    }

    /// Gives the file of a sealed chunk back to the folder.
    pub fn give(&mut self, chunk: Sealed<F>)
        requires out { F.tells ≡ true → (files_of (stock self.old) chunk.name ≡ None)
            × ((stock self.old).port.lent chunk.name ≡ true) }
        requires durable { F.tells ≡ true → IsDurable chunk.file }
        ensures hands { ((stock self.new).taking ≡ (stock self.old).taking)
            × ((stock self.new).full ≡ (stock self.old).full) × ((stock self.new).fresh ≡ (stock self.old).fresh) }
        ensures files { F.tells ≡ true
            → ChangesAt (files_of (stock self.old)) (files_of (stock self.new)) chunk.name (Some chunk.file) }
        ensures lends { F.tells ≡ true → (others : Names)
            → LendsBut (λ name. others name || is_name chunk.name name) (stock self.old) → LendsBut others (stock self.new) }
        ensures counts { CountsCall ⟦<F as Folder>⟧ false (stock_port self.old) (stock_port self.new) }
    {
        chunk.give(&mut self.port);
    }

    /// Gives every file back, and hands out the port. It takes no memory.
    pub fn close(self) -> F
        ensures held { F.tells ≡ true → (name : ChunkName) → (F.port result).held name ≡ files_of (stock self) name }
        ensures lends { F.tells ≡ true → (others : Names) → LendsBut others (stock self)
            → (name : ChunkName) → (F.port result).lent name ≡ true → others name ≡ true }
        ensures calm { F.tells ≡ true → (name : ChunkName)
            → ((F.port result).foreign name ≡ false) × ((F.port result).gone name ≡ None) }
        ensures counts { CountsCall ⟦<F as Folder>⟧ false (stock_port self) result }
    {
        let WriterFiles {
            mut port,
            taking,
            full,
            fresh: _,
        } = self;
        taking.give(&mut port);
        give_each(full, &mut port);
        port
    }
}
