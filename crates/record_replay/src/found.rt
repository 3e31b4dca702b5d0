//! Records, each with the chunk file that it was found in.

ghost use Rattle.std.specs.Prelude.{◌≡◌, [], ◌∷◌, ◌++◌, ◌<◌, ◌≤◌, map, vec_len, vec_capacity, OnOk, OnErr};
ghost use Rattle.record_replay.specs.Replays.{found_in};

use chunk_read::Records;
use hr_base::{ChunkName, Memory};
use record_format::Record;
use std::alloc::Global;
use std::marker::Model;

/// A record, and the chunk file that it was found in.
#[derive(Debug, Drop)]
pub struct Found {
    pub record: Record,
    pub chunk: ChunkName,
}

impl Model for Found {
    ghost use Rattle.crash_law.specs.Placed.{Placed};

    ghost Value = { Placed };

    ghost view = { λ it. record { content = it.record; chunk = it.chunk } };
}

/// The records found in a partition's files, in the order in which they were added.
#[derive(Debug, Drop)]
pub struct FoundRecords {
    pub(crate) list: Vec<Found>,
}

impl Model for FoundRecords {
    ghost use Rattle.std.specs.Prelude.{List};
    ghost use Rattle.crash_law.specs.Placed.{Placed};

    ghost Value = { List Placed };

    ghost view = { λ records. records.list.items };
}

impl FoundRecords {
    /// No record. It takes no memory.
    pub fn new(alloc: Global) -> FoundRecords
        ensures { result ≡ [] }
    {
        FoundRecords {
            list: Vec::new(alloc),
        }
    }

    /// Puts the records of a chunk file behind the others.
    pub fn add(&mut self, chunk: ChunkName, records: Records) -> Result<(), Memory>
        ensures ok { OnOk result (self.new ≡ self.old ++ map (λ x. found_in chunk x.1) records) }
        ensures err { OnErr result (self.new ≡ self.old) }
    {
        let records = records.into_vec();
        self.list.reserve(records.len())?;
        for (_offset, record) in records {
            put_behind(&mut self.list, Found { record, chunk });
        }
        Ok(())
    }
}

/// Puts a record behind the others, where there is room for it.
fn put_behind(list: &mut Vec<Found>, found: Found)
    requires { vec_len list.old < vec_capacity list.old }
    ensures items { list.new.items ≡ list.old.items ++ found ∷ [] }
    ensures capacity { vec_capacity list.old ≤ vec_capacity list.new }
{
    match list.push(found) {
        Ok(()) => {}
        Err(_refused) => unreachable!(),
    }
}
