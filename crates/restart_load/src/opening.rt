//! The writers of a folder that was read, one for each partition.

ghost use Rattle.std.specs.Prelude.{◌≡◌, ◌≤◌, ◌<◌, [], true, length, IfOk, OnOk, vec_capacity};
ghost use Rattle.hr_base.specs.declared.limits.TheConstants.{MAX_PARTITIONS};
ghost use Rattle.hr_base.specs.LimitRanges.{IsLimits};
ghost use Rattle.dir_files.specs.Ports.{SamePort};
ghost use Rattle.dir_files.specs.PortStates.{IsGivenBack};
ghost use Rattle.partition_writer.specs.WriterViews.{standing};
ghost use Rattle.restart_load.specs.Opening.{AreOpened, CanOpen, CanOpenAll, HasNoFile, IsOpened};
ghost use Rattle.restart_load.specs.Taking.{IsPortKept};
ghost use Rattle.restart_load.specs.Writers.{EachIs, standings};

use dir_files::Folder;
use hr_base::{Limits, Memory, Partition};
use partition_writer::Writer;
use record_replay::Replayed;
use std::alloc::Global;

/// Opens a writer of the partition over a port of its own.
fn open_one<F: Folder>(
    alloc: Global,
    folder: &mut F,
    limits: &Limits,
    p: Partition,
    part: Replayed,
    chunk: u64,
) -> Result<Writer<F>, Memory>
    requires limits { IsLimits limits.now }
    requires partition { p.0 < MAX_PARTITIONS }
    requires open { CanOpen part chunk }
    ensures opened { IfOk result (λ writer. IsOpened F.tells limits.now p.0 part chunk (standing writer)) }
    ensures same { F.tells ≡ true → SamePort (F.port folder.old) (F.port folder.new) }
    ensures count { F.count folder.new ≡ F.count folder.old }
{
    let port = folder.fork()?;
    let Replayed { map, next } = part;
    Ok(Writer::resume(alloc, port, p, limits, map, next, chunk))
}

/// Opens the writers, one for each part. Where there is no memory for all of them, those that were opened are there.
fn open_each<F: Folder>(
    alloc: Global,
    folder: &mut F,
    limits: &Limits,
    parts: Vec<Replayed>,
    chunks: &[u64],
    writers: &mut Vec<Writer<F>>,
) -> Result<(), Memory>
    requires limits { IsLimits limits.now }
    requires none { writers.old.items ≡ [] }
    requires room { limits.now.partitions ≤ vec_capacity writers.old }
    requires parts { length parts.items ≡ limits.now.partitions }
    requires chunks { length chunks.now ≡ limits.now.partitions }
    requires open { CanOpenAll parts.items chunks.now }
    ensures all { OnOk result (length writers.new.items ≡ limits.now.partitions) }
    ensures opened { AreOpened F.tells limits.now parts.items chunks.now (standings writers.new.items) }
    ensures same { F.tells ≡ true → SamePort (F.port folder.old) (F.port folder.new) }
    ensures count { F.count folder.new ≡ F.count folder.old }
{
    let mut p = 0;
    for part in parts {
        let chunk = chunks[p as usize];
        writers.push_reserved(open_one(alloc, folder, limits, Partition(p), part, chunk)?);
        p += 1;
    }
    Ok(())
}

/// Closes a writer that has no file.
fn close_one<F: Folder>(folder: &mut F, writer: Writer<F>)
    requires none { F.tells ≡ true → HasNoFile (standing writer) }
    requires given_back { F.tells ≡ true → IsGivenBack (F.port folder.old) }
    ensures same { F.tells ≡ true → IsPortKept (F.port folder.old) (F.port folder.new) }
    ensures kept { F.count folder.old ≤ F.count folder.new }
{
    folder.adopt(writer.close());
}

/// Closes writers that have no files.
fn close_all<F: Folder>(folder: &mut F, mut writers: Vec<Writer<F>>)
    requires none { F.tells ≡ true → EachIs HasNoFile (standings writers.items) }
    requires given_back { F.tells ≡ true → IsGivenBack (F.port folder.old) }
    ensures same { F.tells ≡ true → IsPortKept (F.port folder.old) (F.port folder.new) }
    ensures kept { F.count folder.old ≤ F.count folder.new }
{
    while let Some(writer) = writers.pop() {
        close_one(folder, writer);
    }
    writers.destroy_empty();
}

/// Opens the writers, one for each part. Where there is no memory for all of them, none is left.
pub(crate) fn open_writers<F: Folder>(
    alloc: Global,
    folder: &mut F,
    limits: &Limits,
    parts: Vec<Replayed>,
    chunks: &[u64],
) -> Result<Vec<Writer<F>>, Memory>
    requires limits { IsLimits limits.now }
    requires parts { length parts.items ≡ limits.now.partitions }
    requires chunks { length chunks.now ≡ limits.now.partitions }
    requires open { CanOpenAll parts.items chunks.now }
    requires given_back { F.tells ≡ true → IsGivenBack (F.port folder.old) }
    ensures all { IfOk result (λ writers. length writers.items ≡ limits.now.partitions) }
    ensures opened { IfOk result (λ writers. AreOpened F.tells limits.now parts.items chunks.now (standings writers.items)) }
    ensures same { F.tells ≡ true → IsPortKept (F.port folder.old) (F.port folder.new) }
    ensures kept { F.count folder.old ≤ F.count folder.new }
{
    let mut writers = Vec::with_capacity(alloc, limits.partitions as usize)?;
    match open_each(alloc, folder, limits, parts, chunks, &mut writers) {
        Ok(()) => Ok(writers),
        Err(refusal) => {
            close_all(folder, writers);
            Err(refusal)
        }
    }
}
