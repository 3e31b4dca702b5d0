//! The numbers of the next chunks.

ghost use Rattle.std.specs.Prelude.{◌≡◌, ◌<◌, ℕ, All, Some, length, slice_get, IfOk};
ghost use Rattle.hr_base.specs.declared.name.ChunkName.{ChunkName};
ghost use Rattle.hr_base.specs.Names.{IsChunkName};
ghost use Rattle.restart_load.specs.Numbers.{IsNextAmong, is_writer_kind, next_after};

use hr_base::{ChunkName, Kind};
use std::alloc::{AllocError, Global};

/// Whether a writer begins chunks of the kind.
fn is_writers(kind: Kind) -> bool
    ensures { result ≡ is_writer_kind kind }
{
    match kind {
        Kind::V | Kind::T | Kind::X => true,
        Kind::W | Kind::U | Kind::Y => false,
    }
}

/// The number of the next chunk once this name is known.
fn raised(next: u64, name: ChunkName) -> u64
    requires { IsChunkName name }
    ensures { result ≡ next_after next name }
{
    if is_writers(name.kind) {
        next.max(name.number.0 + 1)
    } else {
        next
    }
}

/// The number of the next chunk of each partition: above those of all its chunks that a writer began.
pub(crate) fn next_chunks(
    alloc: Global,
    names: &[ChunkName],
    partitions: u8,
) -> Result<Vec<u64>, AllocError>
    requires valid { All IsChunkName names.now }
    requires known { All (λ name. name.partition.0 < partitions) names.now }
    ensures each { IfOk result (λ next. length next.items ≡ partitions) }
    ensures next { IfOk result (λ next. (p n : ℕ) → slice_get next.items p ≡ Some n → IsNextAmong names.now p n) }
{
    let mut next = vec![in alloc; 1; partitions as usize]?;
    for name in names {
        let p = name.partition.0 as usize;
        next[p] = raised(next[p], *name);
    }
    Ok(next)
}
