//! What a chunk file holds.

use hr_base::ChunkName;
use std::marker::Model;

/// A chunk file's name, and all its bytes.
#[derive(Drop)]
pub(crate) struct Contents {
    pub(crate) name: ChunkName,
    pub(crate) bytes: Vec<u8>,
}

impl Model for Contents {
    ghost use Rattle.restart_load.specs.Contents.{FileBytes};

    ghost Value = { FileBytes };

    ghost view = { λ it. record { name = it.name; bytes = it.bytes.items } };
}
