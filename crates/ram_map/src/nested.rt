//! Maps from prefixes to maps from keys to values.

ghost use Rattle.std.specs.Prelude.{◌≡◌, ℕ, ◌⊎◌, IsSome, OnOk, false, nat_eq};
ghost use Rattle.std.specs.FinMap.{insert, remove};
ghost use Rattle.std.specs.Option.{option_copied};
ghost use Rattle.std.specs.Vec.{vec_items};
ghost use Rattle.indexmap.specs.IndexMap.{IsUnique};
ghost use Rattle.hr_base.specs.Entries.{key_at, content_of, count_under, without_prefix};
ghost use Rattle.ram_map.specs.Nested.{all_entries, nested_get, HasRoom};

use bytes::Bytes;
use hr_base::Memory;
use indexmap::IndexMap;

/// The map of one prefix.
pub(crate) type Map = IndexMap<Vec<u8>, Bytes>;

/// For each prefix its map.
pub(crate) type Nested = IndexMap<u64, Map>;

/// The value of a key.
pub(crate) fn find<'a>(maps: &'a Nested, prefix: u64, key: &[u8]) -> Option<&'a Bytes>
    ensures { option_copied result ≡ nested_get vec_items maps.now.entries prefix key.now }
{
    maps.get(&prefix)?.get(key)
}

/// Makes room for one key under a prefix.
pub(crate) fn make_room(maps: &mut Nested, prefix: u64) -> Result<(), Memory>
    ensures unique { IsUnique nat_eq maps.new }
    ensures room { OnOk result (HasRoom maps.new prefix) }
    ensures kept { (other : ℕ) → HasRoom maps.old other → HasRoom maps.new other }
    ensures entries { all_entries vec_items maps.new.entries
        ≡ all_entries vec_items maps.old.entries }
{
    if let Some(map) = maps.get_mut(&prefix) {
        map.reserve(1)?;
        return Ok(());
    }
    let map = IndexMap::with_capacity(*maps.allocator(), 1)?;
    maps.insert(prefix, map)?;
    Ok(())
}

/// Gives a key a value, and answers the one before.
pub(crate) fn put(maps: &mut Nested, prefix: u64, key: Vec<u8>, value: Bytes) -> Option<Bytes>
    requires { IsSome (nested_get vec_items maps.old.entries prefix key.items)
        ⊎ HasRoom maps.old prefix }
    ensures old { result ≡ nested_get vec_items maps.old.entries prefix key.items }
    ensures unique { IsUnique nat_eq maps.new }
    ensures entries { all_entries vec_items maps.new.entries
        ≡ insert (all_entries vec_items maps.old.entries) (key_at prefix key.items) (content_of value) }
{
    let Some(map) = maps.get_mut(&prefix) else {
        unreachable!()
    };
    map.insert(key, value).unwrap()
}

/// Takes a key out, and answers its value.
pub(crate) fn take(maps: &mut Nested, prefix: u64, key: &[u8]) -> Option<Bytes>
    ensures old { result ≡ nested_get vec_items maps.old.entries prefix key.now }
    ensures unique { IsUnique nat_eq maps.new }
    ensures kept { (other : ℕ) → HasRoom maps.old other → HasRoom maps.new other }
    ensures entries { all_entries vec_items maps.new.entries
        ≡ remove (all_entries vec_items maps.old.entries) (key_at prefix key.now) }
{
    let map = maps.get_mut(&prefix)?;
    map.swap_remove(key)
}

/// How many keys a prefix has.
pub(crate) fn count(maps: &Nested, prefix: u64) -> usize
    requires { IsUnique nat_eq maps.now }
    ensures { result ≡ count_under prefix (all_entries vec_items maps.now.entries) }
{
    match maps.get(&prefix) {
        Some(map) => map.len(),
        None => 0,
    }
}

/// Takes the map of a prefix out, and answers how many keys it had.
pub(crate) fn clear(maps: &mut Nested, prefix: u64) -> usize
    requires { IsUnique nat_eq maps.old }
    ensures count { result ≡ count_under prefix (all_entries vec_items maps.old.entries) }
    ensures unique { IsUnique nat_eq maps.new }
    ensures kept { (other : ℕ) → nat_eq prefix other ≡ false
        → HasRoom maps.old other → HasRoom maps.new other }
    ensures entries { all_entries vec_items maps.new.entries
        ≡ without_prefix prefix (all_entries vec_items maps.old.entries) }
{
    match maps.swap_remove(&prefix) {
        Some(map) => map.len(),
        None => 0,
    }
}
