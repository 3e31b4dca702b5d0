//! The lines of a script. The grammar is stated in `docs/FORMATS.md`.

use bytes::Bytes;
use hr_base::Partition;

/// Which command a script is for.
#[derive(Clone, Copy, Debug, PartialEq, Eq)]
pub enum Mode {
    /// On one thread.
    Play,
    /// On one thread, with crashes.
    Drill,
    /// On a thread for each partition.
    Run,
}

/// One line of a script, as contracts see it. The program reads and prints a `LineView`, whose key and value lie
/// elsewhere.
#[derive(Debug, PartialEq, Eq, Drop)]
pub enum Line {
    /// Gives a key a value.
    Put {
        p: Partition,
        prefix: u64,
        key: Bytes,
        value: Bytes,
    },
    /// Takes a key out.
    Remove {
        p: Partition,
        prefix: u64,
        key: Bytes,
    },
    /// Takes each key of a prefix out.
    Clear {
        p: Partition,
        prefix: u64,
    },
    /// Asks for the value of a key.
    Get {
        p: Partition,
        prefix: u64,
        key: Bytes,
    },
    /// Makes all that the partition was told durable.
    Sync {
        p: Partition,
    },
}
