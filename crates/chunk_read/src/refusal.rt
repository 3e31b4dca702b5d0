//! Why a chunk file is not read.

ghost use Rattle.std.specs.Prelude.{◌≡◌};
ghost use Rattle.chunk_read.specs.declared.refusal.ReadRefusal.TheVariants.{Memory as OutOfMemory};

use std::alloc::{AllocError, AllocFailed};
use thiserror::Error;

/// Why a chunk file was not read.
#[derive(Clone, Copy, Debug, PartialEq, Eq, Error)]
pub enum ReadRefusal {
    /// There was no memory.
    #[error("out of memory")]
    Memory,
    /// Behind the whole records, from byte `at` on, stands a header that no record has.
    #[error("damaged at byte {at}")]
    Damaged { at: u64 },
}

impl From<AllocError> for ReadRefusal {
    ghost from_gives = { λ _ e. e ≡ OutOfMemory };

    fn from(_refused: AllocError) -> ReadRefusal {
        ReadRefusal::Memory
    }
}

impl<T: Drop> From<AllocFailed<T>> for ReadRefusal {
    ghost from_gives = { λ _ e. e ≡ OutOfMemory };

    fn from(_refused: AllocFailed<T>) -> ReadRefusal {
        ReadRefusal::Memory
    }
}
