//! Why a writer refuses a call.

ghost use Rattle.std.specs.Prelude.{◌≡◌};
ghost use Rattle.partition_writer.specs.declared.refusal.WriteRefusal.TheVariants.{Memory as OutOfMemory};

use dir_files::FolderRefusal;
use hr_base::Memory;
use std::alloc::{AllocError, AllocFailed};
use thiserror::Error;

/// Why a writer refused a call. Where several causes stand together, `Halted` comes first, then `Spent`, `Memory` and
/// `DiskFault`.
#[derive(Clone, Copy, Debug, PartialEq, Eq, Error)]
pub enum WriteRefusal {
    /// There was no memory. Maps, records and account are as before; an empty file may stand, and bytes may be durable
    /// that were not.
    #[error("out of memory")]
    Memory,
    /// The disk failed in this call. A command counts as the last of the tail, and the writer is halted.
    #[error("the disk failed")]
    DiskFault,
    /// The disk failed in an earlier call, when its count of faults became `at`.
    #[error("halted at fault {at}")]
    Halted { at: u64 },
    /// The command would need the number `next`, which no record can have.
    #[error("no number is left: {next}")]
    Spent { next: u64 },
}

impl From<AllocError> for WriteRefusal {
    ghost from_gives = { λ _ e. e ≡ OutOfMemory };

    fn from(_refused: AllocError) -> WriteRefusal {
        WriteRefusal::Memory
    }
}

impl<T: Drop> From<AllocFailed<T>> for WriteRefusal {
    ghost from_gives = { λ _ e. e ≡ OutOfMemory };

    fn from(_refused: AllocFailed<T>) -> WriteRefusal {
        WriteRefusal::Memory
    }
}

impl From<Memory> for WriteRefusal {
    ghost from_gives = { λ _ e. e ≡ OutOfMemory };

    fn from(_refused: Memory) -> WriteRefusal {
        WriteRefusal::Memory
    }
}

impl From<FolderRefusal> for WriteRefusal {
    ghost use Rattle.partition_writer.specs.Refusals.{write_refusal};

    ghost from_gives = { λ refusal e. e ≡ write_refusal refusal };

    fn from(refusal: FolderRefusal) -> WriteRefusal {
        match refusal {
            FolderRefusal::Memory => WriteRefusal::Memory,
            FolderRefusal::Fault => WriteRefusal::DiskFault,
        }
    }
}
