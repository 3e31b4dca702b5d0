//! Records as they are played on the maps.

ghost use Rattle.std.specs.Prelude.{◌≡◌, ◌<◌, All, IfOk, OnOk, length, slice_index_or, slice_set};
ghost use Rattle.hr_base.specs.declared.limits.TheConstants.{SEQ_END};
ghost use Rattle.record_format.specs.Spelling.{IsRecord};
ghost use Rattle.crash_law.specs.Commands.{command_of, maps_after};
ghost use Rattle.crash_law.specs.Placed.{records_of};
ghost use Rattle.crash_law.specs.Restarts.{Agree, IsRestartOf};
ghost use Rattle.record_replay.specs.Orders.{IsOrder, left_behind};
ghost use Rattle.record_replay.specs.Replays.{IsNext, facts_in};

use crate::found::Found;
use hr_base::{Memory, Seq};
use ram_map::RamMap;
use record_format::Record;
use std::alloc::Global;
use std::mem;

/// The maps of a partition, and the number of its next record.
#[derive(Drop)]
pub struct Replayed {
    pub map: RamMap,
    pub next: u64,
}

/// Does to the maps what a record says. The value is not copied.
fn play(map: &mut RamMap, rec: Record) -> Result<(), Memory>
    ensures { OnOk result (map.new.entries ≡ maps_after (command_of rec) map.old.entries) }
{
    match rec {
        Record::Value {
            seq: _,
            prefix,
            key,
            value,
        } => {
            let own = map.reserve(prefix, &key)?;
            map.set(prefix, own, value);
        }
        Record::Tomb {
            seq: _,
            prefix,
            key,
        } => {
            map.take(prefix, &key);
        }
        Record::Clear { prefix, seq: _ } => {
            map.clear(prefix);
        }
    }
    Ok(())
}

/// Moves the record at a place out. What is left there has the number 0, which no record has.
fn take_record(list: &mut [Found], place: usize) -> Record
    requires { place < length list.old }
    ensures moved { result ≡ slice_index_or (records_of list.old) place left_behind }
    ensures left { records_of list.new ≡ slice_set (records_of list.old) place left_behind }
{
    let left = Record::Clear {
        prefix: 0,
        seq: Seq(0),
    };
    let found = &mut list[place];
    mem::replace(&mut found.record, left)
}

/// Plays the records in order, each once.
pub(crate) fn play_all(
    alloc: Global,
    mut list: Vec<Found>,
    order: &[(u64, usize)],
) -> Result<Replayed, Memory>
    requires order { IsOrder (records_of list.items) order.now }
    requires records { All IsRecord (records_of list.items) }
    requires agree { Agree (facts_in list.items) }
    ensures restart { IfOk result (λ replayed. IsRestartOf (facts_in list.items) replayed.map.entries) }
    ensures next { IfOk result (λ replayed. IsNext (facts_in list.items) replayed.next) }
{
    let mut map = RamMap::new(alloc);
    let mut next = 1;
    for (number, place) in order {
        if *number >= next {
            play(&mut map, take_record(&mut list, *place))?;
            next = *number + 1;
        }
    }
    Ok(Replayed { map, next })
}
