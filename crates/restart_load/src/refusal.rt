//! Why a folder is not restarted.

ghost use Rattle.std.specs.Prelude.{◌≡◌};
ghost use Rattle.restart_load.specs.declared.refusal.RestartRefusal.TheVariants.{Memory as OutOfMemory};
ghost use Rattle.restart_load.specs.Ends.{refusal_of_folder};

use dir_files::FolderRefusal;
use hr_base::{ChunkName, Memory, Partition, Seq};
use std::alloc::AllocError;
use thiserror::Error;

/// Why a folder was not restarted. What is wrong with its content is told in this order: a stray file before one that is
/// too large, that before a damaged one, that before a clash; of files the first one in the order of their names.
#[derive(Clone, Copy, Debug, PartialEq, Eq, Error)]
pub enum RestartRefusal {
    /// There was no memory.
    #[error("out of memory")]
    Memory,
    /// The disk failed.
    #[error("the disk failed")]
    DiskFault,
    /// The file is of a partition that is none.
    #[error("a file of a partition that is none")]
    Partition { name: ChunkName },
    /// The file has more than `MAX_FILE_LEN` bytes.
    #[error("a file is too large")]
    TooLarge { name: ChunkName },
    /// Behind the whole records of the file stands a header that no record has, from byte `at` on.
    #[error("a file is damaged at byte {at}")]
    Damaged { name: ChunkName, at: u64 },
    /// Two records of the partition have this number, and differ.
    #[error("two records of a partition have one number")]
    Clash { partition: Partition, seq: Seq },
}

impl From<FolderRefusal> for RestartRefusal {
    ghost from_gives = { λ refusal e. e ≡ refusal_of_folder refusal };

    fn from(refusal: FolderRefusal) -> RestartRefusal {
        match refusal {
            FolderRefusal::Memory => RestartRefusal::Memory,
            FolderRefusal::Fault => RestartRefusal::DiskFault,
        }
    }
}

impl From<Memory> for RestartRefusal {
    ghost from_gives = { λ _ e. e ≡ OutOfMemory };

    fn from(_refused: Memory) -> RestartRefusal {
        RestartRefusal::Memory
    }
}

impl From<AllocError> for RestartRefusal {
    ghost from_gives = { λ _ e. e ≡ OutOfMemory };

    fn from(_refused: AllocError) -> RestartRefusal {
        RestartRefusal::Memory
    }
}
