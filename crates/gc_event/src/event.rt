//! What a partition tells of its records and files.

use bytes::Bytes;
use hr_base::{ChunkName, Class, Seq};

/// What a partition tells its collector: that a record stands durable in a chunk, or that a chunk takes no record any
/// more. The file of that chunk goes over with its handle.
#[derive(Debug, Drop)]
pub enum Event<File> {
    /// A value record.
    Value {
        seq: Seq,
        prefix: u64,
        key: Bytes,
        value: Bytes,
        chunk: ChunkName,
    },
    /// A tombstone.
    Tomb {
        seq: Seq,
        prefix: u64,
        key: Bytes,
        chunk: ChunkName,
    },
    /// A prefix tombstone.
    Clear {
        prefix: u64,
        seq: Seq,
        chunk: ChunkName,
    },
    /// A record of this class, and of so many bytes, that decides no key. The key of a prefix tombstone is empty.
    Dead {
        seq: Seq,
        prefix: u64,
        key: Bytes,
        class: Class,
        len: u64,
        chunk: ChunkName,
    },
    /// A chunk is sealed. Its file has so many bytes.
    Seal {
        name: ChunkName,
        file: File,
        size: u64,
    },
}
