//! The entries of all maps as one list in order.

ghost use Rattle.std.specs.Prelude.{◌≡◌, ◌++◌, map, nat_eq, IfOk, OnOk};
ghost use Rattle.std.specs.FinMap.{entries};
ghost use Rattle.std.specs.List.{IsDistinct};
ghost use Rattle.std.specs.Map.{keys_of};
ghost use Rattle.std.specs.Vec.{vec_items};
ghost use Rattle.indexmap.specs.IndexMap.{IsUnique};
ghost use Rattle.hr_base.specs.Entries.{is_key};
ghost use Rattle.ram_map.specs.Nested.{all_entries, entries_under, flat_entries, same_bytes, triple_of};

use crate::nested::{Map, Nested};
use bytes::Bytes;
use hr_base::Memory;
use std::alloc::Global;

/// A prefix, a key under it, and the key's value.
pub(crate) type Triple = (u64, Bytes, Bytes);

/// Puts the entries of one map behind others. Keys are copied, and values are shared.
fn push_entries(
    alloc: Global,
    triples: &mut Vec<Triple>,
    prefix: u64,
    one: &Map,
) -> Result<(), Memory>
    ensures ok { OnOk result (triples.new.items
        ≡ triples.old.items ++ map triple_of (entries_under vec_items prefix one.now.entries)) }
    ensures unique { OnOk result (IsUnique (same_bytes vec_items) one.now) }
{
    for (key, value) in one {
        let key = Bytes::copy_from_slice(alloc, key)?;
        triples.push((prefix, key, value.clone()?))?;
    }
    Ok(())
}

/// The entries of all maps, one map after another, with room for so many at once.
fn all_triples(alloc: Global, maps: &Nested, room: usize) -> Result<Vec<Triple>, Memory>
    ensures ok { IfOk result (λ triples. triples.items
        ≡ map triple_of (flat_entries vec_items maps.now.entries)) }
    ensures distinct { OnOk result (IsDistinct is_key
        (keys_of (flat_entries vec_items maps.now.entries))) }
{
    let mut triples = Vec::with_capacity(alloc, room)?;
    for (prefix, one) in maps {
        push_entries(alloc, &mut triples, *prefix, one)?;
    }
    Ok(triples)
}

/// The entries of all maps by prefix and then by key.
pub(crate) fn sorted_triples(
    alloc: Global,
    maps: &Nested,
    room: usize,
) -> Result<Vec<Triple>, Memory>
    ensures { IfOk result (λ triples. triples.items
        ≡ map triple_of (entries (all_entries vec_items maps.now.entries))) }
{
    let mut triples = all_triples(alloc, maps, room)?;
    triples.sort_unstable();
    Ok(triples)
}
