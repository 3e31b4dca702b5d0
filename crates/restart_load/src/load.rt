//! What the contents of files restart to.

ghost use Rattle.std.specs.Prelude.{◌≡◌, ◌<◌, ℕ, length, map, replicate, [], All, IfOk, IfErr, OnOk, Some, slice_get};
ghost use Rattle.record_format.specs.Spelling.{IsRecord};
ghost use Rattle.crash_law.specs.Placed.{records_of};
ghost use Rattle.record_replay.specs.Replays.{facts_in};
ghost use Rattle.record_replay.specs.declared.play.Replayed.{Replayed};
ghost use Rattle.hr_base.specs.LimitRanges.{IsPartitionCount};
ghost use Rattle.restart_load.specs.Contents.{InNameOrder, IsFoundIn, IsTornFile};
ghost use Rattle.restart_load.specs.Gathering.{HaveFound, IsAdded, IsFileRefusal, IsPartRefusal, IsReplayRefusal, facts_of, found_of};
ghost use Rattle.restart_load.specs.Loading.{IsLoadRefusal, IsReplayOf};

use crate::contents::Contents;
use crate::refusal::RestartRefusal;
use chunk_read::{ReadRefusal, read_chunk};
use hr_base::{Partition, class_of};
use record_replay::{FoundRecords, ReplayRefusal, Replayed, replay};
use std::alloc::{AllocError, Global};

/// A list for each partition, with no record in it.
fn none_found(alloc: Global, partitions: u8) -> Result<Vec<FoundRecords>, AllocError>
    ensures { IfOk result (λ found. found.items ≡ replicate partitions []) }
{
    let mut found = Vec::with_capacity(alloc, partitions as usize)?;
    for _ in 0..partitions {
        found.push_reserved(FoundRecords::new(alloc));
    }
    Ok(found)
}

/// Reads the records of a file, and puts them behind those of its partition.
fn add_file(alloc: Global, file: Contents, found: &mut [FoundRecords]) -> Result<(), RestartRefusal>
    requires { file.name.partition.0 < length found.old }
    ensures added { OnOk result (IsAdded file found.old found.new) }
    ensures refused { IfErr result (IsFileRefusal file) }
{
    let Contents { name, bytes } = file;
    match read_chunk(alloc, &bytes, class_of(name.kind)) {
        Ok(chunk) => {
            found[name.partition.0 as usize].add(name, chunk.records)?;
            Ok(())
        }
        Err(ReadRefusal::Memory) => Err(RestartRefusal::Memory),
        Err(ReadRefusal::Damaged { at }) => Err(RestartRefusal::Damaged { name, at }),
    }
}

/// Reads the records of all files. The bytes of each are let go before the next one is read.
fn gather(
    alloc: Global,
    files: Vec<Contents>,
    partitions: u8,
) -> Result<Vec<FoundRecords>, RestartRefusal>
    requires known { All (λ file. file.name.partition.0 < partitions) files.items }
    requires sorted { InNameOrder (map (λ file. file.name) files.items) }
    ensures each { IfOk result (λ found. length found.items ≡ partitions) }
    ensures found { IfOk result (λ found. HaveFound files.items found.items) }
    ensures torn { OnOk result (All IsTornFile files.items) }
    ensures refused { IfErr result (IsLoadRefusal files.items) }
{
    let mut found = none_found(alloc, partitions)?;
    for file in files {
        add_file(alloc, file, found.as_mut_slice())?;
    }
    Ok(found)
}

/// Replays the records of a partition.
fn replay_part(
    alloc: Global,
    found: FoundRecords,
    partition: Partition,
) -> Result<Replayed, RestartRefusal>
    requires { All IsRecord (records_of found) }
    ensures replayed { IfOk result (IsReplayOf (facts_in found)) }
    ensures refused { IfErr result (IsPartRefusal partition.0 found) }
{
    match replay(alloc, found) {
        Ok(part) => Ok(part),
        Err(ReplayRefusal::Memory) => Err(RestartRefusal::Memory),
        Err(ReplayRefusal::Clash { seq }) => Err(RestartRefusal::Clash { partition, seq }),
    }
}

/// Replays the records of each partition.
fn replay_each(
    alloc: Global,
    found: Vec<FoundRecords>,
    partitions: u8,
) -> Result<Vec<Replayed>, RestartRefusal>
    requires count { IsPartitionCount partitions }
    requires each { length found.items ≡ partitions }
    requires valid { (p : ℕ) → All IsRecord (records_of (found_of found.items p)) }
    ensures each { IfOk result (λ parts. length parts.items ≡ partitions) }
    ensures replayed { IfOk result (λ parts. (p : ℕ) (part : Replayed) → slice_get parts.items p ≡ Some part
        → IsReplayOf (facts_of found.items p) part) }
    ensures refused { IfErr result (IsReplayRefusal found.items) }
{
    let mut parts = Vec::with_capacity(alloc, partitions as usize)?;
    let mut p = 0;
    for one in found {
        parts.push_reserved(replay_part(alloc, one, Partition(p))?);
        p += 1;
    }
    Ok(parts)
}

/// Reads the records of all files, and replays those of each partition. Of what is wrong the first is told: a damaged file
/// before a clash.
pub(crate) fn load(
    alloc: Global,
    files: Vec<Contents>,
    partitions: u8,
) -> Result<Vec<Replayed>, RestartRefusal>
    requires count { IsPartitionCount partitions }
    requires known { All (λ file. file.name.partition.0 < partitions) files.items }
    requires sorted { InNameOrder (map (λ file. file.name) files.items) }
    ensures each { IfOk result (λ parts. length parts.items ≡ partitions) }
    ensures replayed { IfOk result (λ parts. (p : ℕ) (part : Replayed) → slice_get parts.items p ≡ Some part
        → IsReplayOf (IsFoundIn files.items p) part) }
    ensures torn { OnOk result (All IsTornFile files.items) }
    ensures refused { IfErr result (IsLoadRefusal files.items) }
{
    let found = gather(alloc, files, partitions)?;
    replay_each(alloc, found, partitions)
}
