//! The limits of the store, and those that a session works under.

use std::alloc::{AllocError, AllocFailed};
use thiserror::Error;

/// The greatest count of partitions.
pub const MAX_PARTITIONS: u8 = 64;

/// The most bytes of a key.
pub const MAX_KEY_LEN: usize = 65_535;

/// The most bytes of a value.
pub const MAX_VALUE_LEN: usize = 1_048_576;

/// The most bytes of a record's spelling: those of a value record with the longest key and the longest value.
pub const MAX_RECORD_LEN: usize = 24 + MAX_KEY_LEN + MAX_VALUE_LEN;

/// The sequence number from which on a record may have none.
pub const SEQ_END: u64 = 1 << 63;

/// The number from which on a chunk may have none.
pub const CHUNK_NO_END: u64 = 1 << 48;

/// The least number of bytes that a chunk may be limited to.
pub const MIN_CHUNK_LIMIT: u64 = 4_096;

/// The greatest number of bytes that a chunk may be limited to.
pub const MAX_CHUNK_LIMIT: u64 = 67_108_864;

/// The most bytes of a chunk file that a restart takes.
pub const MAX_FILE_LEN: u64 = 134_217_728;

/// The most bytes of a script.
pub const MAX_SCRIPT_LEN: usize = 67_108_864;

/// The greatest percentage of garbage.
pub const MAX_PERCENT: u8 = 100;

/// How many partitions there are, when a chunk is full, and from which share of garbage on a chunk is collected.
#[derive(Clone, Copy, Debug, PartialEq, Eq)]
pub struct Limits {
    /// The count of partitions, from 1 to `MAX_PARTITIONS`.
    pub partitions: u8,
    /// The bytes that fill a chunk of values, from `MIN_CHUNK_LIMIT` to `MAX_CHUNK_LIMIT`.
    pub value: u64,
    /// The bytes that fill a chunk of tombstones or prefix tombstones, in the same range.
    pub tomb: u64,
    /// The percentage of garbage, at most `MAX_PERCENT`.
    pub percent: u8,
}

/// Which of its outcomes a crash has.
#[derive(Clone, Copy, Debug, PartialEq, Eq)]
pub enum Pick {
    /// Only what is durable is left.
    Least,
    /// All is left.
    Most,
    /// A mixture that follows from the number.
    Mix(u64),
}

/// There was no memory.
#[derive(Clone, Copy, Debug, PartialEq, Eq, Error)]
#[error("out of memory")]
pub struct Memory;

impl From<AllocError> for Memory {
    fn from(_refused: AllocError) -> Memory {
        Memory
    }
}

impl<T: Drop> From<AllocFailed<T>> for Memory {
    fn from(_refused: AllocFailed<T>) -> Memory {
        Memory
    }
}
