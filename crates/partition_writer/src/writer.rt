//! The writer of a partition.

ghost use Rattle.std.specs.Prelude.{◌≤◌, ◌<◌, ◌≡◌, ◌+◌, ◌++◌, ◌∷◌, [], None, true, false, IfOk, IfErr, vec_len, vec_capacity};
ghost use Rattle.hr_base.specs.declared.limits.TheConstants.{CHUNK_NO_END, MAX_KEY_LEN, MAX_PARTITIONS, MAX_VALUE_LEN, SEQ_END};
ghost use Rattle.hr_base.specs.Entries.{KeepsLimits};
ghost use Rattle.hr_base.specs.LimitRanges.{IsChunkLimit};
ghost use Rattle.hr_base.specs.Records.{record_length};
ghost use Rattle.writer_files.specs.Stocks.{LendsBut, files_of, no_names};
ghost use Rattle.writer_files.specs.StockViews.{stock};
ghost use Rattle.partition_writer.specs.Answers.{put_record, remove_record};
ghost use Rattle.partition_writer.specs.Standing.{placed};
ghost use Rattle.partition_writer.specs.Storing.{IsBelow, IsUntorn, NamesOwn};

use crate::noted::Noted;
use crate::refusal::WriteRefusal;
use crate::storing::{chosen, give_full, kind_for, store};
use bytes::Bytes;
use dir_files::{Folder, FolderRefusal};
use hr_base::{
    CHUNK_NO_END, ChunkName, ChunkNo, Class, Limits, MAX_KEY_LEN, MAX_VALUE_LEN, Partition,
    SEQ_END, Seq,
};
use ram_map::RamMap;
use record_format::{Record, copied_together, encode};
use std::alloc::Global;
use writer_files::WriterFiles;

/// How many bytes the record of a key and a value has.
fn record_len(class: Class, key: usize, value: usize) -> u64
    requires key { key ≤ MAX_KEY_LEN }
    requires value { value ≤ MAX_VALUE_LEN }
    ensures { result ≡ record_length class key value }
{
    let header = match class {
        Class::Value => 24,
        Class::Tomb => 20,
        Class::Clear => 16,
    };
    header + key as u64 + value as u64
}

/// The record of a put, and its value once more. Both are of one block, to which key and value are copied.
fn value_record(
    alloc: Global,
    next: u64,
    prefix: u64,
    key: &[u8],
    value: &[u8],
) -> Result<(Record, Bytes), WriteRefusal>
    ensures made { IfOk result (λ made. made.0 ≡ put_record next prefix key.now value.now) }
    ensures shared { IfOk result (λ made. made.1 ≡ value.now) }
    ensures err { IfErr result (λ e. e ≡ WriteRefusal.Memory) }
{
    let (key, value) = copied_together(alloc, key, value)?;
    let shared = value.clone()?;
    let rec = Record::Value {
        seq: Seq(next),
        prefix,
        key,
        value,
    };
    Ok((rec, shared))
}

/// The record of a removal.
fn tomb_record(alloc: Global, next: u64, prefix: u64, key: &[u8]) -> Result<Record, WriteRefusal>
    ensures ok { IfOk result (λ rec. rec ≡ remove_record next prefix key.now) }
    ensures err { IfErr result (λ e. e ≡ WriteRefusal.Memory) }
{
    Ok(Record::Tomb {
        seq: Seq(next),
        prefix,
        key: Bytes::copy_from_slice(alloc, key)?,
    })
}

/// Puts a record behind the others, where there is room for it, and uses up its number.
fn note(records: &mut Vec<Noted>, next: &mut u64, rec: Record, chunk: ChunkName)
    requires room { vec_len records.old < vec_capacity records.old }
    requires number { next.old < SEQ_END }
    ensures records { records.new.items ≡ records.old.items ++ placed rec chunk ∷ [] }
    ensures next { next.new ≡ next.old + 1 }
{
    match records.push(Noted { record: rec, chunk }) {
        Ok(()) => {}
        Err(_refused) => unreachable!(),
    }
    *next += 1;
}

/// The writer of a partition. It keeps the partition's maps in memory, and appends one record to a chunk file for each
/// command that changes a map. What each call makes of maps, records, chunks, files and account stands in its clauses,
/// and the words of these in `specs/`.
pub struct Writer<F: Folder> {
    files: WriterFiles<F>,
    map: RamMap,
    /// The records since the last answered sync, that of a command which the disk refused among them.
    records: Vec<Noted>,
    /// The number of the next record.
    next: u64,
    /// The number of the next chunk.
    next_chunk: u64,
    partition: Partition,
    limits: Limits,
    /// The count of faults at which the disk refused a call.
    halted: Option<u64>,
    /// The disk refused the command of the last record, so that it may lack bytes.
    lost: bool,
    /// A record's bytes, on their way to the file.
    buffer: Vec<u8>,
    alloc: Global,
    ghost partitioned: { partition.0 < MAX_PARTITIONS },
    ghost value_limit: { IsChunkLimit limits.value },
    ghost tomb_limit: { IsChunkLimit limits.tomb },
    ghost numbered: { 1 ≤ next },
    ghost limited: { next ≤ SEQ_END },
    ghost chunk_numbered: { 1 ≤ next_chunk },
    ghost chunk_limited: { next_chunk ≤ CHUNK_NO_END },
    ghost own: { NamesOwn partition (stock files) },
    ghost ready: { halted ≡ None → IsUntorn (stock files) },
    ghost below: { F.tells ≡ true → halted ≡ None → IsBelow (files_of (stock files)) next_chunk },
    ghost lends: { F.tells ≡ true → LendsBut no_names (stock files) },
    ghost unlost: { halted ≡ None → lost ≡ false },
    pub ghost lengths: { KeepsLimits map.entries },
}

impl<F: Folder> Writer<F> {
    ghost use Rattle.std.specs.Prelude.{◌≢◌, ◌↔◌, ◌⊎◌, ℕ, length, Option, Some, Ok, Err, is_ok, IsOk, IsSome, OnOk, OnErr, IsErrOf, option_map, if◌then◌else◌};
    ghost use Rattle.std.specs.FinMap.{get};
    ghost use Rattle.hr_base.specs.declared.name.Class.TheVariants.{Value as Values, Tomb as Tombs, Clear as Clears};
    ghost use Rattle.hr_base.specs.declared.name.ChunkName.{ChunkName};
    ghost use Rattle.hr_base.specs.Entries.{content_of, count_under, key_at};
    ghost use Rattle.hr_base.specs.LimitRanges.{IsLimits};
    ghost use Rattle.dir_files.specs.Images.{Image};
    ghost use Rattle.dir_files.specs.Ports.{IsEmptyPort};
    ghost use Rattle.dir_files.specs.PortStates.{IsGivenBack};
    ghost use Rattle.record_format.specs.Spelling.{seq_of, spelling};
    ghost use Rattle.record_format.specs.Splits.{IsOfClass};
    ghost use Rattle.writer_files.specs.StockCalls.{EachRises};
    ghost use Rattle.writer_files.specs.Stocks.{AllDurable, HasNone, IsSettled};
    ghost use Rattle.crash_law.specs.Accounts.{Account, fresh_account};
    ghost use Rattle.crash_law.specs.Commands.{Put, Remove, Clear, command_of, is_written, maps_after};
    ghost use Rattle.crash_law.specs.Crashes.{PartSurvives};
    ghost use Rattle.crash_law.specs.Restarts.{RestartsAs};
    ghost use Rattle.partition_writer.specs.Disk.{HaltsAtFault};
    ghost use Rattle.partition_writer.specs.Standing.{Beginning, HoldsTail, IsBeginning, Stands, all_files, disk_of, limit_of, next_name, spent_by};
    ghost use Rattle.partition_writer.specs.Answers.{KeepsNoted, Loses, StandsAfter, StandsSynced, SyncsAll, Writes, WritesRecord, clear_record, with_maps};
    ghost use Rattle.partition_writer.specs.WriterViews.{port_of, standing};

    /// A writer of the partition over a port of its own, which is a fresh fork. It goes on from these maps, with this
    /// number for its next record and this one for its next chunk. It takes no memory.
    pub fn resume(
        alloc: Global,
        port: F,
        p: Partition,
        limits: &Limits,
        map: RamMap,
        next: u64,
        chunk: u64,
    ) -> Writer<F>
        requires partition { p.0 < MAX_PARTITIONS }
        requires limits { IsLimits limits.now }
        requires lengths { KeepsLimits map.entries }
        requires numbered { 1 ≤ next }
        requires limited { next ≤ SEQ_END }
        requires chunk_numbered { 1 ≤ chunk }
        requires chunk_limited { chunk ≤ CHUNK_NO_END }
        requires fresh { F.tells ≡ true → IsEmptyPort (F.port port) }
        ensures partition { (standing result).partition ≡ p }
        ensures limits { (standing result).limits ≡ limits.now }
        ensures maps { (standing result).maps ≡ map.entries }
        ensures records { (standing result).records ≡ [] }
        ensures next { (standing result).next ≡ next }
        ensures next_chunk { (standing result).next_chunk ≡ chunk }
        ensures running { (standing result).halted ≡ None }
        ensures lost { (standing result).lost ≡ false }
        ensures hands { HasNone (standing result).stock }
        ensures port { port_of result ≡ port }
        // It has no file, and nothing is to be synced.
        ensures settled { IsSettled (standing result).stock }
        ensures files { F.tells ≡ true → (name : ChunkName) → files_of (standing result).stock name ≡ None }
        // It stands for the maps that it goes on from, where they are those of the files found.
        ensures account { F.tells ≡ true → (b : Beginning) → IsBeginning p.0 b → b.maps ≡ map.entries
            → b.first ≡ next → b.first_chunk ≡ chunk → Stands (standing result) b (fresh_account b.maps) }
    {
        Writer {
            files: WriterFiles::new(alloc, port),
            map,
            records: Vec::new(alloc),
            next,
            next_chunk: chunk,
            partition: p,
            limits: *limits,
            halted: None,
            lost: false,
            buffer: Vec::new(alloc),
            alloc,
        }
    }

    /// The partition.
    pub fn partition(&self) -> Partition
        ensures { result ≡ (standing self.now).partition }
    {
        self.partition
    }

    /// The number of the next record.
    pub fn next(&self) -> u64
        ensures { result ≡ (standing self.now).next }
    {
        self.next
    }

    /// The maps.
    pub fn map(&self) -> &RamMap
        ensures { result.now.entries ≡ (standing self.now).maps }
    {
        &self.map
    }

    /// The value of a key.
    pub fn get(&self, prefix: u64, key: &[u8]) -> Option<&Bytes>
        ensures { option_map (λ v. content_of v.now) result
            ≡ get (standing self.now).maps (key_at prefix key.now) }
    {
        self.map.get(prefix, key)
    }

    /// Gives a key a value, and answers the one before. All memory is taken before the record is appended.
    pub fn put(
        &mut self,
        prefix: u64,
        key: &[u8],
        value: &[u8],
    ) -> Result<Option<Bytes>, WriteRefusal>
        requires key { length key.now ≤ MAX_KEY_LEN }
        requires value { length value.now ≤ MAX_VALUE_LEN }

        ensures before { IfOk result (λ before. option_map content_of before
            ≡ get (standing self.old).maps (key_at prefix key.now)) }
        ensures written { WritesRecord result (standing self.old) (standing self.new)
            (put_record (standing self.old).next prefix key.now value.now) }

        // When each refusal comes.
        ensures disk { HaltsAtFault WriteRefusal.Memory WriteRefusal.DiskFault result
            (disk_of (standing self.old)) (disk_of (standing self.new)) }
        ensures halted { (at : ℕ) → IsErrOf result (WriteRefusal.Halted at)
            ↔ ((standing self.old).halted ≡ Some at) }
        ensures spent { (next : ℕ) → IsErrOf result (WriteRefusal.Spent next) ↔ (((standing self.old).halted ≡ None)
            × (spent_by (standing self.old) Values (record_length Values (length key.now) (length value.now)) ≡ Some next)) }
        ensures stopped { (at : ℕ) → IsErrOf result (WriteRefusal.Halted at) → self.new ≡ self.old }
        ensures full { (next : ℕ) → IsErrOf result (WriteRefusal.Spent next) → self.new ≡ self.old }

        // What the writer stands for after each answer.
        ensures account { F.tells ≡ true → (b : Beginning) (a : Account) → Stands (standing self.old) b a
            → StandsAfter result (standing self.new) b a (Put prefix key.now value.now) }
        ensures whole { F.tells ≡ true → (b : Beginning) (a : Account) → Stands (standing self.old) b a
            → OnOk result (HoldsTail (standing self.new) b.found) }
    {
        let len = record_len(Class::Value, key.len(), value.len());
        if let Some(refused) = self.refusal(Class::Value, len) {
            return Err(refused);
        }
        let own = self.map.reserve(prefix, key)?;
        let (rec, shared) = value_record(self.alloc, self.next, prefix, key, value)?;
        self.write(Class::Value, rec)?;
        Ok(self.map.set(prefix, own, shared))
    }

    /// Removes a key, and answers the value that it had. Where it has none, nothing is written.
    pub fn remove(&mut self, prefix: u64, key: &[u8]) -> Result<Option<Bytes>, WriteRefusal>
        requires key { length key.now ≤ MAX_KEY_LEN }

        ensures before { IfOk result (λ before. option_map content_of before
            ≡ get (standing self.old).maps (key_at prefix key.now)) }
        ensures written { IsSome (get (standing self.old).maps (key_at prefix key.now))
            → WritesRecord result (standing self.old) (standing self.new)
            (remove_record (standing self.old).next prefix key.now) }
        // Of an absent key nothing is written, and the folder sees no call.
        ensures absent { get (standing self.old).maps (key_at prefix key.now) ≡ None
            → (standing self.old).halted ≡ None → IsOk result × (self.new ≡ self.old) }

        // When each refusal comes.
        ensures disk { HaltsAtFault WriteRefusal.Memory WriteRefusal.DiskFault result
            (disk_of (standing self.old)) (disk_of (standing self.new)) }
        ensures halted { (at : ℕ) → IsErrOf result (WriteRefusal.Halted at)
            ↔ ((standing self.old).halted ≡ Some at) }
        ensures spent { (next : ℕ) → IsErrOf result (WriteRefusal.Spent next) ↔ (((standing self.old).halted ≡ None)
            × IsSome (get (standing self.old).maps (key_at prefix key.now))
            × (spent_by (standing self.old) Tombs (record_length Tombs (length key.now) 0) ≡ Some next)) }
        ensures stopped { (at : ℕ) → IsErrOf result (WriteRefusal.Halted at) → self.new ≡ self.old }
        ensures full { (next : ℕ) → IsErrOf result (WriteRefusal.Spent next) → self.new ≡ self.old }

        // What the writer stands for after each answer.
        ensures account { F.tells ≡ true → (b : Beginning) (a : Account) → Stands (standing self.old) b a
            → StandsAfter result (standing self.new) b a (Remove prefix key.now) }
        ensures whole { F.tells ≡ true → (b : Beginning) (a : Account) → Stands (standing self.old) b a
            → OnOk result (HoldsTail (standing self.new) b.found) }
    {
        if let Some(at) = self.halted {
            return Err(WriteRefusal::Halted { at });
        }
        if self.map.get(prefix, key).is_none() {
            return Ok(None);
        }
        let len = record_len(Class::Tomb, key.len(), 0);
        if let Some(refused) = self.refusal(Class::Tomb, len) {
            return Err(refused);
        }
        let rec = tomb_record(self.alloc, self.next, prefix, key)?;
        self.write(Class::Tomb, rec)?;
        Ok(self.map.take(prefix, key))
    }

    /// Removes all keys of a prefix, and answers how many there were. Where there are none, nothing is written.
    pub fn clear(&mut self, prefix: u64) -> Result<u64, WriteRefusal>
        ensures count { IfOk result (λ n. n ≡ count_under prefix (standing self.old).maps) }
        ensures written { 0 < count_under prefix (standing self.old).maps
            → WritesRecord result (standing self.old) (standing self.new)
            (clear_record (standing self.old).next prefix) }
        // Of an empty map nothing is written, and the folder sees no call.
        ensures empty { count_under prefix (standing self.old).maps ≡ 0
            → (standing self.old).halted ≡ None → IsOk result × (self.new ≡ self.old) }

        // When each refusal comes.
        ensures disk { HaltsAtFault WriteRefusal.Memory WriteRefusal.DiskFault result
            (disk_of (standing self.old)) (disk_of (standing self.new)) }
        ensures halted { (at : ℕ) → IsErrOf result (WriteRefusal.Halted at)
            ↔ ((standing self.old).halted ≡ Some at) }
        ensures spent { (next : ℕ) → IsErrOf result (WriteRefusal.Spent next) ↔ (((standing self.old).halted ≡ None)
            × (0 < count_under prefix (standing self.old).maps)
            × (spent_by (standing self.old) Clears (record_length Clears 0 0) ≡ Some next)) }
        ensures stopped { (at : ℕ) → IsErrOf result (WriteRefusal.Halted at) → self.new ≡ self.old }
        ensures full { (next : ℕ) → IsErrOf result (WriteRefusal.Spent next) → self.new ≡ self.old }

        // What the writer stands for after each answer.
        ensures account { F.tells ≡ true → (b : Beginning) (a : Account) → Stands (standing self.old) b a
            → StandsAfter result (standing self.new) b a (Clear prefix) }
        ensures whole { F.tells ≡ true → (b : Beginning) (a : Account) → Stands (standing self.old) b a
            → OnOk result (HoldsTail (standing self.new) b.found) }
    {
        if let Some(at) = self.halted {
            return Err(WriteRefusal::Halted { at });
        }
        if self.map.count(prefix) == 0 {
            return Ok(0);
        }
        let len = record_len(Class::Clear, 0, 0);
        if let Some(refused) = self.refusal(Class::Clear, len) {
            return Err(refused);
        }
        let seq = Seq(self.next);
        self.write(Class::Clear, Record::Clear { prefix, seq })?;
        Ok(self.map.clear(prefix))
    }

    /// The bytes that fill a chunk of the class.
    fn limit(&self, class: Class) -> u64
        ensures { result ≡ limit_of (standing self.now).limits class }
    {
        match class {
            Class::Value => self.limits.value,
            Class::Tomb | Class::Clear => self.limits.tomb,
        }
    }

    /// The name of the next chunk of the class.
    fn next_name(&self, class: Class) -> ChunkName
        ensures { result ≡ next_name (standing self.now) class }
    {
        ChunkName {
            partition: self.partition,
            kind: kind_for(class),
            number: ChunkNo(self.next_chunk),
        }
    }

    /// Why no record of so many bytes may be written, if so: the disk refused a call, or a number is spent.
    fn refusal(&self, class: Class, len: u64) -> Option<WriteRefusal>
        ensures none { (result ≡ None) → (self.now.halted ≡ None) × (spent_by (standing self.now) class len ≡ None) }
        ensures halted { (at : ℕ) → (result ≡ Some (WriteRefusal.Halted at)) ↔ (self.now.halted ≡ Some at) }
        ensures spent { (next : ℕ) → (result ≡ Some (WriteRefusal.Spent next))
            ↔ ((self.now.halted ≡ None) × (spent_by (standing self.now) class len ≡ Some next)) }
        ensures only { (result ≢ Some WriteRefusal.Memory) × (result ≢ Some WriteRefusal.DiskFault) }
    {
        if let Some(at) = self.halted {
            return Some(WriteRefusal::Halted { at });
        }
        if self.next >= SEQ_END {
            return Some(WriteRefusal::Spent { next: self.next });
        }
        if !self.files.takes(class, len, self.limit(class)) && self.next_chunk >= CHUNK_NO_END {
            return Some(WriteRefusal::Spent {
                next: self.next_chunk,
            });
        }
        None
    }

    /// Stores a record in its chunk, and counts it among those that are not synced. The maps stay.
    fn write(&mut self, class: Class, rec: Record) -> Result<(), WriteRefusal>
        requires running { self.old.halted ≡ None }
        requires valid { IsOfClass class rec }
        requires number { seq_of rec ≡ self.old.next }
        requires unspent { spent_by (standing self.old) class (length (spelling rec)) ≡ None }
        ensures map { self.new.map ≡ self.old.map }
        ensures only { IfErr result (λ e. (e ≡ WriteRefusal.Memory) ⊎ (e ≡ WriteRefusal.DiskFault)) }
        ensures written { WritesRecord result (standing self.old)
            (with_maps (standing self.new) (if is_ok result then maps_after (command_of rec) self.old.map.entries else self.old.map.entries)) rec }
        ensures disk { HaltsAtFault WriteRefusal.Memory WriteRefusal.DiskFault result
            (disk_of (standing self.old)) (disk_of (standing self.new)) }
        ensures account { F.tells ≡ true → (b : Beginning) (a : Account) → Stands (standing self.old) b a
            → is_written (command_of rec) self.old.map.entries ≡ true
            → StandsAfter result (with_maps (standing self.new) (if is_ok result then maps_after (command_of rec) self.old.map.entries else self.old.map.entries)) b a (command_of rec) }
    {
        self.records.reserve(1)?;
        self.buffer.clear();
        encode(&rec, &mut self.buffer)?;
        let limit = self.limit(class);
        let next = self.next_name(class);
        let chunk = chosen(&self.files, class, self.buffer.len() as u64, limit, next);
        let stored = store(
            &mut self.files,
            &mut self.next_chunk,
            next,
            class,
            limit,
            self.buffer.as_slice(),
        );
        match stored {
            Ok(()) => {
                note(&mut self.records, &mut self.next, rec, chunk);
                Ok(())
            }
            Err(FolderRefusal::Memory) => Err(WriteRefusal::Memory),
            Err(FolderRefusal::Fault) => {
                note(&mut self.records, &mut self.next, rec, chunk);
                self.lost = true;
                self.halted = Some(self.files.faults());
                Err(WriteRefusal::DiskFault)
            }
        }
    }

    /// Makes all records durable, and answers the number of the last one, or 0.
    pub fn sync(&mut self) -> Result<Seq, WriteRefusal>
        ensures number { IfOk result (λ seq. seq.0 + 1 ≡ (standing self.old).next) }
        ensures synced { SyncsAll result (standing self.old) (standing self.new) }
        // It makes no call of the folder where nothing is to be made durable, and leaves nothing so: the full chunks
        // are sealed, and every file of the writer is durable.
        ensures idle { (standing self.old).halted ≡ None → IsSettled (standing self.old).stock
            → IsOk result × (port_of self.new ≡ port_of self.old) }
        ensures settled { OnOk result (IsSettled (standing self.new).stock) }
        // It creates and removes no file, and a crash keeps of each what it kept before, or more.
        ensures files { F.tells ≡ true → EachRises (files_of (standing self.old).stock) (files_of (standing self.new).stock) }
        ensures durable { F.tells ≡ true → OnOk result (AllDurable (files_of (standing self.new).stock)) }

        // When each refusal comes.
        ensures disk { HaltsAtFault WriteRefusal.Memory WriteRefusal.DiskFault result
            (disk_of (standing self.old)) (disk_of (standing self.new)) }
        ensures halted { (at : ℕ) → IsErrOf result (WriteRefusal.Halted at)
            ↔ ((standing self.old).halted ≡ Some at) }
        ensures stopped { (at : ℕ) → IsErrOf result (WriteRefusal.Halted at) → self.new ≡ self.old }

        // What the writer stands for after each answer.
        ensures account { F.tells ≡ true → (b : Beginning) (a : Account) → Stands (standing self.old) b a
            → StandsSynced result (standing self.new) b a }
    {
        if let Some(at) = self.halted {
            return Err(WriteRefusal::Halted { at });
        }
        match self.files.sync() {
            Ok(()) => {
                give_full(&mut self.files);
                self.records.clear();
                Ok(Seq(self.next - 1))
            }
            Err(FolderRefusal::Memory) => Err(WriteRefusal::Memory),
            Err(FolderRefusal::Fault) => {
                self.halted = Some(self.files.faults());
                Err(WriteRefusal::DiskFault)
            }
        }
    }

    /// Gives all files back, and hands out the port. It takes no memory.
    pub fn close(self) -> F
        ensures given { F.tells ≡ true → IsGivenBack (F.port result) }
        ensures held { F.tells ≡ true → (name : ChunkName) → (F.port result).held name ≡ files_of (standing self).stock name }
        ensures faults { F.count result ≡ (standing self).faults }
        ensures stays_sound { (standing self).sound ≡ true → (F.sound result ≡ true) × (F.count result ≡ 0) }
        // Every crash of its files, and of those found, leaves the partition so that it recovers.
        ensures survives { F.tells ≡ true → (b : Beginning) (a : Account) → Stands (standing self) b a
            → PartSurvives (standing self).partition.0 (all_files (F.port result).held b.found) (λ _. None) a }
        // Where no record may lack bytes, what is read without a crash restarts to the maps.
        ensures exact { F.tells ≡ true → (b : Beginning) (a : Account) → Stands (standing self) b a
            → (standing self).lost ≡ false → RestartsAs (λ name. option_map (λ file. file.bytes)
            (all_files (F.port result).held b.found name)) (standing self).partition.0 a.maps }
    {
        let Writer {
            files,
            map: _,
            records: _,
            next: _,
            next_chunk: _,
            partition: _,
            limits: _,
            halted: _,
            lost: _,
            buffer: _,
            alloc: _,
        } = self;
        files.close()
    }
}
