//! A record with its chunk.

use hr_base::ChunkName;
use record_format::Record;
use std::marker::Model;

/// A record, and the chunk that it was appended to.
#[derive(Drop)]
pub(crate) struct Noted {
    pub(crate) record: Record,
    pub(crate) chunk: ChunkName,
}

impl Model for Noted {
    ghost use Rattle.crash_law.specs.Placed.{Placed};

    ghost Value = { Placed };

    ghost view = { λ it. record { content = it.record; chunk = it.chunk } };
}
