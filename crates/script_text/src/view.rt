//! A line whose key and value lie elsewhere.

use hr_base::Partition;

/// A line whose key and value lie in a buffer.
#[derive(Clone, Copy, Debug, PartialEq, Eq)]
pub enum LineView<'a> {
    /// Gives a key a value.
    Put {
        p: Partition,
        prefix: u64,
        key: &'a [u8],
        value: &'a [u8],
    },
    /// Takes a key out.
    Remove {
        p: Partition,
        prefix: u64,
        key: &'a [u8],
    },
    /// Takes each key of a prefix out.
    Clear {
        p: Partition,
        prefix: u64,
    },
    /// Asks for the value of a key.
    Get {
        p: Partition,
        prefix: u64,
        key: &'a [u8],
    },
    /// Makes all that the partition was told durable.
    Sync {
        p: Partition,
    },
}

// What a line has beside a key and a value.
#[derive(Clone, Copy)]
pub(crate) enum LineHead {
    Put(Partition, u64),
    Remove(Partition, u64),
    Clear(Partition, u64),
    Get(Partition, u64),
    Sync(Partition),
}
