//! Chunk files that are read whole, from pieces.

ghost use Rattle.std.specs.Prelude.{◌≡◌, ◌⊎◌, ◌<◌, ◌^◌, ◌++◌, ℕ, [], Err, IfOk, MatchResult, OnOk, length};
ghost use Rattle.chunk_read.specs.Chunks.{IsChunkOf, IsDamagedAt};
ghost use Rattle.chunk_read.specs.Pieces.{joined};

use crate::chunk::Chunk;
use crate::records::Records;
use crate::refusal::ReadRefusal;
use crate::walk::Walk;
use hr_base::Class;
use record_format::Record;
use std::alloc::{AllocError, Global};

/// Reads the bytes of a chunk file of the class that come in these pieces. However they are cut, the answer is
/// that of `read_chunk`.
pub fn read_pieces(alloc: Global, pieces: &[Vec<u8>], class: Class) -> Result<Chunk, ReadRefusal>
    requires { length (joined pieces.now) < 2 ^ 64 }
    ensures read { IfOk result (λ chunk. IsChunkOf class (joined pieces.now) chunk) }
    ensures damaged { (at : ℕ) → result ≡ Err (ReadRefusal.Damaged at)
        → IsDamagedAt class (joined pieces.now) at }
    ensures exact { (at : ℕ) → IsDamagedAt class (joined pieces.now) at
        → MatchResult result (λ _. ⊥)
        (λ e. (e ≡ ReadRefusal.Damaged at) ⊎ (e ≡ ReadRefusal.Memory)) }
{
    let mut walk = Walk::new(alloc, class);
    let mut records = Vec::new(alloc);
    for piece in pieces {
        walk.feed(piece)?;
        take_waiting(&mut walk, &mut records)?;
    }
    Ok(Chunk {
        records: Records::of(records),
        rest: walk.finish(),
    })
}

// Takes the records that wait.
fn take_waiting(walk: &mut Walk, records: &mut Vec<(u64, Record)>) -> Result<(), AllocError>
    ensures records { OnOk result (records.new.items ≡ records.old.items ++ walk.old.waiting) }
    ensures walk { OnOk result (walk.new ≡ record walk.old { waiting = [] }) }
{
    while let Some(next) = walk.next() {
        records.push(next)?;
    }
    Ok(())
}
