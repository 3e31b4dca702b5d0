//! Chunks that are sealed by themselves. A session makes names durable before it seals, so that it never sees a seal fail.

ghost use Rattle.std.specs.Prelude.{◌≡◌, true, IfOk};
ghost use Rattle.hr_base.specs.declared.name.Class.TheVariants.{Value, Clear};
ghost use Rattle.dir_files.specs.Ports.{can_be_fixed, IsEmptyPort};
ghost use Rattle.value_chunk.specs.Chunks.{IsOneRecord};

use bytes::Bytes;
use dir_files::{Folder, FolderRefusal};
use hr_base::{ChunkName, ChunkNo, Kind, Partition, Seq};
use mem_folder::{FaultPlan, MemFolder};
use record_format::{Record, encode};
use std::alloc::Global;
use std::test::Fail;
use test_rows::disks::NEVER;
use test_rows::expecting::expect;
use tomb_chunk::{TombFilling, TombFull, TombNotSealed};
use value_chunk::{Filling, Full, NotSealed};

const VALUES: ChunkName = ChunkName {
    partition: Partition(3),
    kind: Kind::V,
    number: ChunkNo(7),
};

const CLEARINGS: ChunkName = ChunkName {
    partition: Partition(3),
    kind: Kind::X,
    number: ChunkNo(7),
};

/// A folder whose fourth call fails, and all from the sixth on. A chunk of one record is created and written by two calls.
/// To seal it takes a file sync and a sync of names; and once more the latter alone.
fn folder(alloc: Global) -> Result<MemFolder, Fail>
    ensures { IfOk result (λ port. IsEmptyPort (⟦<MemFolder as Folder>⟧.port port)) }
{
    let calls = vec![in alloc; 4]?;
    let plans = vec![in alloc; FaultPlan { calls, from: 6 }]?;
    Ok(MemFolder::empty(alloc, plans))
}

/// The record of a put.
fn value_record(alloc: Global) -> Result<Vec<u8>, Fail>
    ensures { IfOk result (λ bytes. IsOneRecord Value bytes.items) }
{
    let rec = Record::Value {
        seq: Seq(1),
        prefix: 5,
        key: Bytes::from_static(b"key"),
        value: Bytes::from_static(b"value"),
    };
    let mut bytes = Vec::new(alloc);
    encode(&rec, &mut bytes)?;
    Ok(bytes)
}

/// The record of a clearing.
fn clear_record(alloc: Global) -> Result<Vec<u8>, Fail>
    ensures { IfOk result (λ bytes. IsOneRecord Clear bytes.items) }
{
    let rec = Record::Clear {
        prefix: 5,
        seq: Seq(1),
    };
    let mut bytes = Vec::new(alloc);
    encode(&rec, &mut bytes)?;
    Ok(bytes)
}

/// A chunk of one value.
fn fill_values(port: &mut MemFolder, piece: &[u8]) -> Result<Full<MemFolder>, FolderRefusal>
    requires empty { IsEmptyPort (⟦<MemFolder as Folder>⟧.port port.old) }
    requires one { IsOneRecord Value piece.now }
    ensures ready { IfOk result (λ chunk. can_be_fixed (⟦<MemFolder as Folder>⟧.port port.new) chunk.name ≡ true) }
{
    let mut chunk = Filling::begin(port, VALUES)?;
    match chunk.append(port, piece) {
        Ok(_) => Ok(chunk.fill()),
        Err(refusal) => {
            chunk.give(port);
            Err(refusal)
        }
    }
}

/// A chunk of one clearing.
fn fill_clearings(port: &mut MemFolder, piece: &[u8]) -> Result<TombFull<MemFolder>, FolderRefusal>
    requires empty { IsEmptyPort (⟦<MemFolder as Folder>⟧.port port.old) }
    requires one { IsOneRecord Clear piece.now }
    ensures ready { IfOk result (λ chunk. can_be_fixed (⟦<MemFolder as Folder>⟧.port port.new) chunk.name ≡ true) }
{
    let mut chunk = TombFilling::begin(port, CLEARINGS)?;
    match chunk.append(port, piece) {
        Ok(_) => Ok(chunk.fill()),
        Err(refusal) => {
            chunk.give(port);
            Err(refusal)
        }
    }
}

/// What a chunk comes to that is not sealed at first and then is: its name, and the bytes of its records.
type Sealed = Result<(ChunkName, u64), Fail>;

/// Seals a chunk of values, at the second time.
fn seal_values(chunk: Full<MemFolder>, port: &mut MemFolder) -> Sealed
    requires { can_be_fixed (⟦<MemFolder as Folder>⟧.port port.old) chunk.name ≡ true }
{
    match chunk.seal(port) {
        Ok(sealed) => {
            sealed.give(port);
            Err("sealed at once".into())
        }
        Err(NotSealed { kept, why: _ }) => match kept.seal(port) {
            Ok(sealed) => {
                let (name, file, len) = sealed.into_file();
                port.give(file);
                Ok((name, len))
            }
            Err(NotSealed { kept, why }) => {
                kept.give(port);
                Err(why.into())
            }
        },
    }
}

/// Seals a chunk of clearings, at the second time.
fn seal_clearings(chunk: TombFull<MemFolder>, port: &mut MemFolder) -> Sealed
    requires { can_be_fixed (⟦<MemFolder as Folder>⟧.port port.old) chunk.name ≡ true }
{
    match chunk.seal(port) {
        Ok(sealed) => {
            sealed.give(port);
            Err("sealed at once".into())
        }
        Err(TombNotSealed { kept, why: _ }) => match kept.seal(port) {
            Ok(sealed) => {
                let (name, file, len) = sealed.into_file();
                port.give(file);
                Ok((name, len))
            }
            Err(TombNotSealed { kept, why }) => {
                kept.give(port);
                Err(why.into())
            }
        },
    }
}

/// What the folder holds of a chunk then, and how many calls failed.
fn expect_held(
    port: &MemFolder,
    name: ChunkName,
    piece: &[u8],
    sealed: Sealed,
) -> Result<(), Fail> {
    expect(sealed? == (name, piece.len() as u64), "sealed")?;
    expect(port.bytes(name) == Some(piece), "held")?;
    expect(port.faults() == 1, "one fault")
}

#[test]
fn a_chunk_that_is_not_sealed_is_sealed_later(rt: HostRuntime) -> Result<(), Fail> {
    let mut port = folder(rt.alloc())?;
    let piece = value_record(rt.alloc())?;
    let full = fill_values(&mut port, piece.as_slice())?;
    let sealed = seal_values(full, &mut port);
    expect_held(&port, VALUES, piece.as_slice(), sealed)?;
    let mut port = folder(rt.alloc())?;
    let piece = clear_record(rt.alloc())?;
    let full = fill_clearings(&mut port, piece.as_slice())?;
    let sealed = seal_clearings(full, &mut port);
    expect_held(&port, CLEARINGS, piece.as_slice(), sealed)
}
