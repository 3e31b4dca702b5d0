//! Chunk files that are read whole. What their bytes hold is stated in `docs/FORMATS.md`.

ghost use Rattle.std.specs.Prelude.{◌≡◌, ◌⊎◌, ℕ, Err, IfOk, MatchResult};
ghost use Rattle.chunk_read.specs.Chunks.{IsChunkOf, IsDamagedAt};

use crate::found::{End, read_records};
use crate::records::Records;
use crate::refusal::ReadRefusal;
use hr_base::Class;
use std::alloc::Global;

/// What a chunk file holds.
#[derive(Debug, Drop)]
pub struct Chunk {
    /// The whole records.
    pub records: Records,
    /// How many bytes stand behind them. A crash may have left these of a record that was being written.
    pub rest: u64,
}

/// Reads the bytes of a chunk file of the class.
pub fn read_chunk(alloc: Global, bytes: &[u8], class: Class) -> Result<Chunk, ReadRefusal>
    ensures read { IfOk result (λ chunk. IsChunkOf class bytes.now chunk) }
    ensures damaged { (at : ℕ) → result ≡ Err (ReadRefusal.Damaged at)
        → IsDamagedAt class bytes.now at }

    // Damaged bytes are refused as such, unless memory runs out.
    ensures exact { (at : ℕ) → IsDamagedAt class bytes.now at
        → MatchResult result (λ _. ⊥)
        (λ e. (e ≡ ReadRefusal.Damaged at) ⊎ (e ≡ ReadRefusal.Memory)) }
{
    let found = read_records(alloc, bytes, class, 0)?;
    match found.end {
        End::Torn(rest) => Ok(Chunk {
            records: Records::of(found.records),
            rest: rest as u64,
        }),
        End::Damaged(at) => Err(ReadRefusal::Damaged { at }),
    }
}
