//! How a record is stored in its chunk.

ghost use Rattle.std.specs.Prelude.{◌≡◌, ◌≢◌, ◌⊎◌, ◌+◌, ◌<◌, ◌≤◌, [], true, false, Some, None, Err, OnOk, OnErr, length, option_map, if◌then◌else◌};
ghost use Rattle.hr_base.specs.declared.limits.TheConstants.{CHUNK_NO_END, MAX_CHUNK_LIMIT};
ghost use Rattle.hr_base.specs.Names.{IsChunkName};
ghost use Rattle.dir_files.specs.Faults.{is_fault};
ghost use Rattle.dir_files.specs.Files.{SameAt};
ghost use Rattle.dir_files.specs.PortCalls.{CountsCall};
ghost use Rattle.value_chunk.specs.Chunks.{IsOneRecord};
ghost use Rattle.writer_files.specs.Stocks.{IsSettled, IsSynced, LendsBut, files_of, no_names, taking_in, takes};
ghost use Rattle.writer_files.specs.StockCalls.{KeepsOthers};
ghost use Rattle.writer_files.specs.StockViews.{stock_port, stock};
ghost use Rattle.partition_writer.specs.Standing.{chosen, writer_kind};
ghost use Rattle.partition_writer.specs.Storing.{Fills, FillsUp, IsBelow, IsOpen, IsUntorn, MakesRoom, NamesOwn, StoresIn, TakesIn, number_after, size_of, without_offset};

use dir_files::{Folder, FolderRefusal};
use hr_base::{ChunkName, Class, Kind, MAX_CHUNK_LIMIT};
use writer_files::WriterFiles;

/// The kind of chunk that a writer begins for records of the class.
pub(crate) fn kind_for(class: Class) -> Kind
    ensures { result ≡ writer_kind class }
{
    match class {
        Class::Value => Kind::V,
        Class::Tomb => Kind::T,
        Class::Clear => Kind::X,
    }
}

/// The chunk that a record of so many bytes goes to: the one that takes records of its class where that has room under
/// the limit, and else the next one.
pub(crate) fn chosen<F: Folder>(
    files: &WriterFiles<F>,
    class: Class,
    len: u64,
    limit: u64,
    next: ChunkName,
) -> ChunkName
    ensures { result ≡ chosen (stock files.now) class len limit next }
{
    if !files.takes(class, len, limit) {
        return next;
    }
    match files.name(class) {
        Some(name) => name,
        None => next,
    }
}

/// Begins the next chunk where the one that takes records of the class has no room for so many bytes.
fn make_room<F: Folder>(
    files: &mut WriterFiles<F>,
    next_chunk: &mut u64,
    next: ChunkName,
    class: Class,
    len: u64,
    limit: u64,
) -> Result<(), FolderRefusal>
    requires valid { takes (stock files.old) class len limit ≡ false → IsChunkName next }
    requires kind { next.kind ≡ writer_kind class }
    requires numbered { next_chunk.old < CHUNK_NO_END ⊎ (takes (stock files.old) class len limit ≡ true) }
    requires limited { limit ≤ MAX_CHUNK_LIMIT }
    requires ready { IsUntorn (stock files.old) }
    requires own { NamesOwn next.partition (stock files.old) }
    requires free { F.tells ≡ true → takes (stock files.old) class len limit ≡ false
        → files_of (stock files.old) next ≡ None }
    requires lends { F.tells ≡ true → LendsBut no_names (stock files.old) }
    ensures lends { F.tells ≡ true → LendsBut no_names (stock files.new) }
    ensures room { OnOk result (takes (stock files.new) class len MAX_CHUNK_LIMIT ≡ true) }
    ensures name { OnOk result (option_map (λ chunk. chunk.name) (taking_in (stock files.new) class)
        ≡ Some (chosen (stock files.old) class len limit next)) }
    ensures others { KeepsOthers class (stock files.old) (stock files.new) }
    ensures full { OnOk result (FillsUp (takes (stock files.old) class len limit) (stock files.old) (stock files.new) class) }
    ensures size { OnOk result (size_of (taking_in (stock files.new) class)
        ≡ (if takes (stock files.old) class len limit then size_of (taking_in (stock files.old) class) else 0)) }
    ensures number { OnOk result (next_chunk.new ≡ number_after (takes (stock files.old) class len limit) next_chunk.old) }
    ensures same_number { OnErr result (next_chunk.new ≡ next_chunk.old) }
    ensures files { F.tells ≡ true → MakesRoom result (files_of (stock files.old)) (files_of (stock files.new))
        (chosen (stock files.old) class len limit next) }
    ensures open { F.tells ≡ true → IsOpen (stock files.old) (chosen (stock files.old) class len limit next) }
    ensures taking { TakesIn (stock files.old) (stock files.new) (chosen (stock files.old) class len limit next) }
    ensures ready { IsUntorn (stock files.new) }
    ensures own { NamesOwn next.partition (stock files.new) }
    ensures below { F.tells ≡ true → (result ≢ Err FolderRefusal.Fault) → (next.number.0 ≡ next_chunk.old)
        → IsBelow (files_of (stock files.old)) next_chunk.old → IsBelow (files_of (stock files.new)) next_chunk.new }
    ensures counts { CountsCall ⟦<F as Folder>⟧ (is_fault result) (stock_port files.old) (stock_port files.new) }
{
    if !files.takes(class, len, limit) {
        files.begin(next)?;
        *next_chunk += 1;
    }
    Ok(())
}

/// The answer of an append, without where the record begins.
fn without_offset(appended: Result<u64, FolderRefusal>) -> Result<(), FolderRefusal>
    ensures { result ≡ without_offset appended }
{
    match appended {
        Ok(_offset) => Ok(()),
        Err(refusal) => Err(refusal),
    }
}

/// Stores one spelled record in the chunk of its class that takes records, or in the next one where that has no room.
pub(crate) fn store<F: Folder>(
    files: &mut WriterFiles<F>,
    next_chunk: &mut u64,
    next: ChunkName,
    class: Class,
    limit: u64,
    bytes: &[u8],
) -> Result<(), FolderRefusal>
    requires valid { takes (stock files.old) class (length bytes.now) limit ≡ false → IsChunkName next }
    requires kind { next.kind ≡ writer_kind class }
    requires spelled { IsOneRecord class bytes.now }
    requires numbered { next_chunk.old < CHUNK_NO_END ⊎ (takes (stock files.old) class (length bytes.now) limit ≡ true) }
    requires limited { limit ≤ MAX_CHUNK_LIMIT }
    requires ready { IsUntorn (stock files.old) }
    requires own { NamesOwn next.partition (stock files.old) }
    requires free { F.tells ≡ true → takes (stock files.old) class (length bytes.now) limit ≡ false
        → files_of (stock files.old) next ≡ None }
    requires lends { F.tells ≡ true → LendsBut no_names (stock files.old) }
    ensures lends { F.tells ≡ true → LendsBut no_names (stock files.new) }
    ensures fills { OnOk result (Fills (stock files.old) (stock files.new) class (length bytes.now) limit next) }
    ensures others { KeepsOthers class (stock files.old) (stock files.new) }
    ensures number { OnOk result (next_chunk.new
        ≡ number_after (takes (stock files.old) class (length bytes.now) limit) next_chunk.old) }
    ensures either_number { (next_chunk.new ≡ next_chunk.old) ⊎ (next_chunk.new
        ≡ number_after (takes (stock files.old) class (length bytes.now) limit) next_chunk.old) }
    ensures files { F.tells ≡ true → StoresIn result (files_of (stock files.old)) (files_of (stock files.new))
        (chosen (stock files.old) class (length bytes.now) limit next) bytes.now }
    ensures open { F.tells ≡ true → IsOpen (stock files.old) (chosen (stock files.old) class (length bytes.now) limit next) }
    ensures taking { TakesIn (stock files.old) (stock files.new) (chosen (stock files.old) class (length bytes.now) limit next) }
    ensures ready { (result ≢ Err FolderRefusal.Fault) → IsUntorn (stock files.new) }
    ensures own { NamesOwn next.partition (stock files.new) }
    ensures below { F.tells ≡ true → (result ≢ Err FolderRefusal.Fault) → (next.number.0 ≡ next_chunk.old)
        → IsBelow (files_of (stock files.old)) next_chunk.old → IsBelow (files_of (stock files.new)) next_chunk.new }
    ensures counts { CountsCall ⟦<F as Folder>⟧ (is_fault result) (stock_port files.old) (stock_port files.new) }
{
    make_room(files, next_chunk, next, class, bytes.len() as u64, limit)?;
    without_offset(files.append(class, bytes))
}

/// Gives the files of the full chunks back, after a sync. It takes no memory.
pub(crate) fn give_full<F: Folder>(files: &mut WriterFiles<F>)
    requires synced { IsSynced (stock files.old) }
    requires lends { F.tells ≡ true → LendsBut no_names (stock files.old) }
    ensures settled { IsSettled (stock files.new) }
    ensures taking { (stock files.new).taking ≡ (stock files.old).taking }
    ensures idle { (stock files.old).full ≡ [] → stock_port files.new ≡ stock_port files.old }
    ensures files { F.tells ≡ true → SameAt (files_of (stock files.old)) (files_of (stock files.new)) }
    ensures lends { F.tells ≡ true → LendsBut no_names (stock files.new) }
    ensures counts { CountsCall ⟦<F as Folder>⟧ false (stock_port files.old) (stock_port files.new) }
{
    while let Some(chunk) = files.next_sealed() {
        files.give(chunk);
    }
}
