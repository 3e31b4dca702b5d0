//! Restarting a folder.

ghost use Rattle.std.specs.Prelude.{◌≡◌, ◌≤◌, true, All, length, map, IfErr, IfOk, IsErrOf, OnOk, vec_capacity, []};
ghost use Rattle.hr_base.specs.Counts.{Rose};
ghost use Rattle.hr_base.specs.LimitRanges.{IsLimits};
ghost use Rattle.hr_base.specs.Names.{IsChunkName};
ghost use Rattle.hr_base.specs.declared.name.ChunkName.{ChunkName};
ghost use Rattle.hr_base.specs.declared.limits.TheConstants.{MAX_FILE_LEN};
ghost use Rattle.dir_files.specs.Images.{KeepsImages, read_of};
ghost use Rattle.dir_files.specs.Ports.{IsListing};
ghost use Rattle.dir_files.specs.PortStates.{IsAtRest, IsCalm, IsGivenBack};
ghost use Rattle.crash_law.specs.Restarts.{IsRestartable};
ghost use Rattle.restart_load.specs.Contents.{AreFilesOf, InNameOrder};
ghost use Rattle.restart_load.specs.Reading.{IsFirstLarge, IsFolderRefusal};
ghost use Rattle.restart_load.specs.Refusals.{IsPrintable, IsRefusedFor};
ghost use Rattle.restart_load.specs.Taking.{AllDurableWith, AllNamed, HasTaken, read_bytes};
ghost use Rattle.restart_load.specs.Writers.{AreResumed, EachIs, HasLimits, standings};

use crate::contents::Contents;
use crate::listing::{first_stray, list_names};
use crate::load::load;
use crate::numbers::next_chunks;
use crate::opening::open_writers;
use crate::reading::read_files;
use crate::refusal::RestartRefusal;
use crate::taking::{Taken, give_files, take_files};
use dir_files::Folder;
use hr_base::{ChunkName, Limits};
use partition_writer::Writer;
use std::alloc::Global;

/// How many bytes of a file are asked for at once.
const PIECE_LEN: usize = 1_048_576;

/// Takes all files in hand, makes their bytes durable, and reads them.
fn secure<F: Folder>(
    alloc: Global,
    folder: &mut F,
    names: &[ChunkName],
    files: &mut Vec<Taken<F>>,
) -> Result<Vec<Contents>, RestartRefusal>
    requires valid { All IsChunkName names.now }
    requires none { files.old.items ≡ [] }
    requires room { length names.now ≤ vec_capacity files.old }
    requires listed { F.tells ≡ true → IsListing (F.port folder.old) names.now }
    requires given_back { F.tells ≡ true → IsGivenBack (F.port folder.old) }
    requires named { F.tells ≡ true → AllNamed (F.port folder.old) }
    ensures taken { F.tells ≡ true → HasTaken (F.port folder.old) (F.port folder.new) files.new.items }
    ensures durable { F.tells ≡ true → OnOk result (AllDurableWith (F.port folder.new) files.new.items) }
    ensures read { F.tells ≡ true → IfOk result (λ contents. contents.items ≡ map read_bytes files.new.items) }
    ensures names { IfOk result (λ contents. map (λ one. one.name) contents.items ≡ names.now) }
    ensures small { IfOk result (λ contents. All (λ one. length one.bytes ≤ MAX_FILE_LEN) contents.items) }
    ensures refused { IfErr result (λ refusal. IsFirstLarge F.tells files.new.items refusal) }
    ensures listed { IfErr result (λ refusal. (name : ChunkName) → refusal ≡ RestartRefusal.TooLarge name → map (λ taken. taken.name) files.new.items ≡ names.now) }
    ensures disk { IsErrOf result RestartRefusal.DiskFault → Rose (F.count folder.old) (F.count folder.new) }
    ensures kept { F.count folder.old ≤ F.count folder.new }
{
    take_files(folder, names, files)?;
    let mut piece = vec![in alloc; 0; PIECE_LEN]?;
    read_files(alloc, folder, files.as_mut_slice(), piece.as_mut_slice())
}

/// Reads all files of a folder whose names are durable, and makes their bytes durable before. Every file is given back.
fn read_folder<F: Folder>(
    alloc: Global,
    folder: &mut F,
    names: &[ChunkName],
) -> Result<Vec<Contents>, RestartRefusal>
    requires valid { All IsChunkName names.now }
    requires sorted { InNameOrder names.now }
    requires listed { F.tells ≡ true → IsListing (F.port folder.old) names.now }
    requires given_back { F.tells ≡ true → IsGivenBack (F.port folder.old) }
    requires named { F.tells ≡ true → AllNamed (F.port folder.old) }
    ensures names { IfOk result (λ contents. map (λ one. one.name) contents.items ≡ names.now) }
    ensures read { F.tells ≡ true → IfOk result (λ contents. AreFilesOf (read_of (F.port folder.old)) contents.items) }
    ensures small { IfOk result (λ contents. All (λ one. length one.bytes ≤ MAX_FILE_LEN) contents.items) }
    ensures refused { IfErr result (IsFolderRefusal F.tells (read_of (F.port folder.old))) }
    ensures images { F.tells ≡ true → KeepsImages (F.port folder.old) (F.port folder.new) }
    ensures given_back { F.tells ≡ true → IsGivenBack (F.port folder.new) }
    ensures at_rest { F.tells ≡ true → OnOk result (IsAtRest (F.port folder.new)) }
    ensures disk { IsErrOf result RestartRefusal.DiskFault → Rose (F.count folder.old) (F.count folder.new) }
    ensures kept { F.count folder.old ≤ F.count folder.new }
{
    let mut files = Vec::with_capacity(alloc, names.len())?;
    let read = secure(alloc, folder, names, &mut files);
    give_files(folder, files);
    read
}

/// Restarts a folder. It makes all names and bytes durable that are there, reads each chunk file, and makes a writer for
/// each partition, over a port of its own, which goes on from the records found: of each key the one with the greatest
/// number decides. Every file is given back, whatever the answer.
pub fn restart<F: Folder>(
    alloc: Global,
    folder: &mut F,
    limits: &Limits,
) -> Result<Vec<Writer<F>>, RestartRefusal>
    requires limits { IsLimits limits.now }
    requires calm { F.tells ≡ true → IsCalm (F.port folder.old) }
    ensures each { IfOk result (λ writers. length writers.items ≡ limits.now.partitions) }
    ensures limits { IfOk result (λ writers. EachIs (HasLimits limits.now) (standings writers.items)) }
    ensures resumed { IfOk result (λ writers. AreResumed F.tells (read_of (F.port folder.old)) (standings writers.items)) }
    // Only a folder that restarts is restarted, and what is wrong with another one is told.
    ensures restartable { F.tells ≡ true → OnOk result (IsRestartable (read_of (F.port folder.old)) limits.now.partitions) }
    ensures refused { F.tells ≡ true → IfErr result (IsRefusedFor (read_of (F.port folder.old)) limits.now.partitions) }
    ensures printable { IfErr result IsPrintable }
    // No handle is out, each file has the bytes that it had, and every crash leaves what it might have left before. After
    // a restart all of it is durable.
    ensures calm { F.tells ≡ true → IsCalm (F.port folder.new) }
    ensures images { F.tells ≡ true → KeepsImages (F.port folder.old) (F.port folder.new) }
    ensures at_rest { F.tells ≡ true → OnOk result (IsAtRest (F.port folder.new)) }
    ensures disk { IsErrOf result RestartRefusal.DiskFault → Rose (F.count folder.old) (F.count folder.new) }
    ensures kept { F.count folder.old ≤ F.count folder.new }
{
    let names = list_names(folder)?;
    if let Some(name) = first_stray(names.as_slice(), limits.partitions) {
        return Err(RestartRefusal::Partition { name });
    }
    let contents = read_folder(alloc, folder, names.as_slice())?;
    let parts = load(alloc, contents, limits.partitions)?;
    let chunks = next_chunks(alloc, names.as_slice(), limits.partitions)?;
    let writers = open_writers(alloc, folder, limits, parts, chunks.as_slice())?;
    Ok(writers)
}
