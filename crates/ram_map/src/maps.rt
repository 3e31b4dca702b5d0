//! `RamMap`.

ghost use Rattle.std.specs.Prelude.{◌≡◌, ◌⊎◌, length, map, IsSome, IfOk, OnOk, OnErr, None, Some};
ghost use Rattle.std.specs.FinMap.{empty, entries, get, insert, keys, remove};
ghost use Rattle.std.specs.Option.{option_map};
ghost use Rattle.hr_base.specs.Entries.{key_at, content_of, count_under, without_prefix};
ghost use Rattle.ram_map.specs.Maps.{ready_without};
ghost use Rattle.ram_map.specs.Nested.{triple_of};

use crate::nested::{Nested, clear, count, find, make_room, put, take};
use crate::sorted::sorted_triples;
use bytes::Bytes;
use hr_base::Memory;
use indexmap::IndexMap;
use std::alloc::Global;
use std::marker::Model;

/// The maps of a partition: for each prefix a map from keys to values, which are shared.
///
/// `reserve` makes room for one new key under a prefix, so that a `set` there takes no memory.
/// A key that has a value needs no room. There are no more keys than a `usize` counts:
/// `reserve` finds no memory for one more.
#[derive(Drop)]
pub struct RamMap {
    maps: Nested,
    ready: Option<u64>,
    size: usize,
}

impl Model for RamMap {
    ghost use Rattle.std.specs.Vec.{vec_items};
    ghost use Rattle.ram_map.specs.Maps.{Maps, coded_maps};
    ghost use Rattle.ram_map.specs.Nested.{all_entries, IsConsistent};

    ghost Value = { Maps };

    ghost coded = { coded_maps };

    ghost view = { λ m. record { entries = all_entries vec_items m.maps.entries; ready = m.ready } };

    ghost invariant = { λ m. IsConsistent vec_items m.maps m.ready m.size };
}

impl RamMap {
    /// Maps with no entry. They take no memory.
    pub fn new(alloc: Global) -> RamMap
        ensures entries { result.entries ≡ empty }
        ensures ready { result.ready ≡ None }
    {
        RamMap {
            maps: IndexMap::new(alloc),
            ready: None,
            size: 0,
        }
    }

    /// The value of a key.
    pub fn get(&self, prefix: u64, key: &[u8]) -> Option<&Bytes>
        ensures { option_map (λ v. content_of v.now) result
            ≡ get self.now.entries (key_at prefix key.now) }
    {
        find(&self.maps, prefix, key)
    }

    /// Makes room for one new key under the prefix, and gives the key as a list of its own.
    ///
    /// It fails where there is no memory, and the maps are then as they were.
    pub fn reserve(&mut self, prefix: u64, key: &[u8]) -> Result<Vec<u8>, Memory>
        ensures key { IfOk result (λ k. k.items ≡ key.now) }
        ensures ready { OnOk result (self.new.ready ≡ Some prefix) }
        ensures entries { self.new.entries ≡ self.old.entries }
        ensures err { OnErr result (self.new ≡ self.old) }
    {
        if self.size == usize::MAX {
            return Err(Memory);
        }
        let own = Vec::from_slice(*self.maps.allocator(), key)?;
        make_room(&mut self.maps, prefix)?;
        self.ready = Some(prefix);
        Ok(own)
    }

    /// Gives a key a value, and answers the one before. It takes no memory, and uses up the room that was made.
    pub fn set(&mut self, prefix: u64, key: Vec<u8>, value: Bytes) -> Option<Bytes>
        requires { IsSome (get self.old.entries (key_at prefix key.items))
            ⊎ (self.old.ready ≡ Some prefix) }
        ensures old { option_map content_of result
            ≡ get self.old.entries (key_at prefix key.items) }
        ensures entries { self.new.entries
            ≡ insert self.old.entries (key_at prefix key.items) (content_of value) }
        ensures ready { self.new.ready ≡ None }
    {
        self.ready = None;
        let before = put(&mut self.maps, prefix, key, value);
        self.size += usize::from(before.is_none());
        before
    }

    /// Takes a key out, and answers its value. What was made ready stays so.
    pub fn take(&mut self, prefix: u64, key: &[u8]) -> Option<Bytes>
        ensures old { option_map content_of result
            ≡ get self.old.entries (key_at prefix key.now) }
        ensures entries { self.new.entries ≡ remove self.old.entries (key_at prefix key.now) }
        ensures ready { self.new.ready ≡ self.old.ready }
    {
        let before = take(&mut self.maps, prefix, key);
        self.size -= usize::from(before.is_some());
        before
    }

    /// Takes all keys of a prefix out, and answers how many there were.
    /// Room that was made under the prefix goes with them.
    pub fn clear(&mut self, prefix: u64) -> u64
        ensures count { result ≡ count_under prefix self.old.entries }
        ensures entries { self.new.entries ≡ without_prefix prefix self.old.entries }
        ensures ready { self.new.ready ≡ ready_without prefix self.old.ready }
    {
        let removed = clear(&mut self.maps, prefix);
        self.size -= removed;
        if self.ready == Some(prefix) {
            self.ready = None;
        }
        removed as u64
    }

    /// How many keys a prefix has.
    pub fn count(&self, prefix: u64) -> u64
        ensures { result ≡ count_under prefix self.now.entries }
    {
        count(&self.maps, prefix) as u64
    }

    /// How many keys there are under all prefixes.
    pub fn len(&self) -> usize
        ensures { result ≡ length (keys self.now.entries) }
    {
        self.size
    }

    /// The entries by prefix and then by the bytes of the keys. Keys are copied, and values are shared.
    pub fn entries_sorted(&self) -> Result<Vec<(u64, Bytes, Bytes)>, Memory>
        ensures { IfOk result (λ list. list.items ≡ map triple_of (entries self.now.entries)) }
    {
        sorted_triples(*self.maps.allocator(), &self.maps, self.size)
    }
}
