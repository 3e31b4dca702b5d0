//! Plain maps: what the lines of a script come to, and what a dump tells.

use std::alloc::Global;
use std::collections::BTreeMap;
use std::test::Fail;

/// A key, with the number of its map.
pub type Key = (u64, Vec<u8>);

/// The value of each key.
pub type Maps = BTreeMap<Key, Vec<u8>>;

#[derive(Clone, Copy, Debug, PartialEq, Eq)]
pub enum Verb {
    Put,
    Remove,
    Clear,
    Get,
    Sync,
}

/// What is done to maps. Words that a line lacks are empty.
#[derive(Drop)]
pub struct Deed {
    verb: Verb,
    map: u64,
    key: Vec<u8>,
    value: Vec<u8>,
}

impl Deed {
    /// Whether it changes maps.
    fn is_change(&self) -> bool {
        matches!(self.verb, Verb::Put | Verb::Remove | Verb::Clear)
    }

    /// Whether it is a change of this key.
    fn touches(&self, key: &Key) -> bool {
        let same_map = self.map == key.0;
        match self.verb {
            Verb::Put | Verb::Remove => same_map && self.key.as_slice() == key.1.as_slice(),
            Verb::Clear => same_map,
            Verb::Get | Verb::Sync => false,
        }
    }

    /// The value of a key that it changed.
    fn value(&self) -> Option<&[u8]> {
        match self.verb {
            Verb::Put => Some(self.value.as_slice()),
            _ => None,
        }
    }

    /// Changes the maps, and writes what is replied behind the partition.
    fn apply(&self, alloc: Global, maps: &mut Maps, replies: &mut Vec<u8>) -> Result<(), Fail> {
        let key = (self.map, self.key.to_vec(alloc)?);
        match self.verb {
            Verb::Put => {
                let before = maps.insert(key, self.value.to_vec(alloc)?)?;
                push_value(replies, b"was ", before.as_ref())
            }
            Verb::Remove => {
                let before = maps.remove(&key);
                push_value(replies, b"was ", before.as_ref())
            }
            Verb::Clear => {
                let before = maps.len();
                let map = self.map;
                maps.retain(|key, _| key.0 != map);
                let count = before.saturating_sub(maps.len());
                replies.extend_from_slice(format!(in alloc; "cleared {count}\n")?.as_bytes())?;
                Ok(())
            }
            Verb::Get => push_value(replies, b"is ", maps.get(&key)),
            Verb::Sync => {
                replies.extend_from_slice(b"synced\n")?;
                Ok(())
            }
        }
    }
}

/// Appends a value behind its word, or that there is none.
fn push_value(replies: &mut Vec<u8>, word: &[u8], value: Option<&Vec<u8>>) -> Result<(), Fail> {
    match value {
        None => replies.extend_from_slice(b"none")?,
        Some(value) => {
            replies.extend_from_slice(word)?;
            replies.extend_from_slice(value.as_slice())?;
        }
    }
    replies.push(b'\n')?;
    Ok(())
}

/// A line of a script.
#[derive(Drop)]
pub struct Line {
    partition: u8,
    deed: Deed,
}

/// The verb that a word names.
fn verb_of(word: &str) -> Option<Verb> {
    match word {
        "put" => Some(Verb::Put),
        "remove" => Some(Verb::Remove),
        "clear" => Some(Verb::Clear),
        "get" => Some(Verb::Get),
        "sync" => Some(Verb::Sync),
        _ => None,
    }
}

/// The lines of a script whose words stand for themselves.
pub fn lines_of(alloc: Global, script: &str) -> Result<Vec<Line>, Fail> {
    let mut lines = Vec::new(alloc);
    for text in script.lines() {
        let mut words = text.split(' ');
        let partition = words.next().unwrap_or("").parse::<u8>()?;
        let verb = verb_of(words.next().unwrap_or("")).ok_or("no verb")?;
        let map = words.next().unwrap_or("0").parse::<u64>()?;
        let key = words.next().unwrap_or("").as_bytes().to_vec(alloc)?;
        let value = words.next().unwrap_or("").as_bytes().to_vec(alloc)?;
        let deed = Deed {
            verb,
            map,
            key,
            value,
        };
        lines.push(Line { partition, deed })?;
    }
    Ok(lines)
}

/// Adds all keys that lines name to those of each partition.
pub fn add_keys(alloc: Global, lines: &[Line], keys: &mut [Maps]) -> Result<(), Fail> {
    for line in lines {
        let part = keys.get_mut(line.partition as usize).ok_or("no partition")?;
        let key = line.deed.key.to_vec(alloc)?;
        part.insert((line.deed.map, key), Vec::new(alloc))?;
    }
    Ok(())
}

/// The maps of a partition: now, and as of the last sync that was answered; and the places of the changes since then.
#[derive(Drop)]
struct Part {
    maps: Maps,
    durable: Maps,
    since: Vec<usize>,
}

/// What lines come to that were answered: their replies, and the maps of each partition.
#[derive(Drop)]
pub struct Account {
    replies: Vec<u8>,
    parts: Vec<Part>,
    alloc: Global,
}

impl Account {
    /// From maps that are durable, one of each partition.
    pub fn over(alloc: Global, found: Vec<Maps>) -> Result<Account, Fail> {
        let mut parts = Vec::new(alloc);
        for maps in found {
            parts.push(Part {
                durable: maps.clone()?,
                maps,
                since: Vec::new(alloc),
            })?;
        }
        Ok(Account {
            replies: Vec::new(alloc),
            parts,
            alloc,
        })
    }

    /// From empty maps of so many partitions.
    pub fn new(alloc: Global, partitions: u8) -> Result<Account, Fail> {
        Account::over(alloc, no_maps(alloc, partitions)?)
    }

    /// Answers lines in order.
    pub fn answer_all(&mut self, lines: &[Line]) -> Result<(), Fail> {
        self.answer_some(lines, lines.len())
    }

    /// Answers so many first lines. The next one, if there is one, is refused by the disk, so that its change may be kept
    /// or lost.
    pub fn answer_some(&mut self, lines: &[Line], count: usize) -> Result<(), Fail> {
        let (done, rest) = lines.split_at_checked(count).ok_or("too many lines")?;
        for (place, line) in done.iter().enumerate() {
            self.answer(place, line)?;
        }
        if let Some(refused) = rest.first() {
            self.change(count, refused)?;
        }
        Ok(())
    }

    /// Answers a line.
    fn answer(&mut self, place: usize, line: &Line) -> Result<(), Fail> {
        let Account {
            replies,
            parts,
            alloc,
        } = self;
        let part = parts
            .get_mut(line.partition as usize)
            .ok_or("no partition")?;
        replies.extend_from_slice(format!(in *alloc; "{} ", line.partition)?.as_bytes())?;
        line.deed.apply(*alloc, &mut part.maps, replies)?;
        if line.deed.verb == Verb::Sync {
            part.durable = part.maps.clone()?;
            part.since.clear();
        }
        self.change(place, line)
    }

    /// Notes the place of a line that is a change.
    fn change(&mut self, place: usize, line: &Line) -> Result<(), Fail> {
        let part = self
            .parts
            .get_mut(line.partition as usize)
            .ok_or("no partition")?;
        if line.deed.is_change() {
            part.since.push(place)?;
        }
        Ok(())
    }

    /// What was replied.
    pub fn replies(&self) -> &[u8] {
        self.replies.as_slice()
    }

    /// What a dump of the maps prints.
    pub fn dumped(&self) -> Result<Vec<u8>, Fail> {
        let mut text = Vec::new(self.alloc);
        for (p, part) in self.parts.iter().enumerate() {
            print_maps(self.alloc, p, &part.maps, &mut text)?;
        }
        Ok(text)
    }

    /// What a dump prints of the maps that were made durable last.
    pub fn dumped_durable(&self) -> Result<Vec<u8>, Fail> {
        let mut text = Vec::new(self.alloc);
        for (p, part) in self.parts.iter().enumerate() {
            print_maps(self.alloc, p, &part.durable, &mut text)?;
        }
        Ok(text)
    }

    /// Whether a key of a partition may have this value after a crash: that of the last answered sync, or the one after
    /// one of its own changes since then.
    fn allows(&self, lines: &[Line], p: usize, key: &Key, found: Option<&[u8]>) -> bool {
        let Some(part) = self.parts.get(p) else {
            return false;
        };
        if part.durable.get(key).map(|value| value.as_slice()) == found {
            return true;
        }
        for place in &part.since {
            if let Some(line) = lines.get(*place) {
                if line.deed.touches(key) && line.deed.value() == found {
                    return true;
                }
            }
        }
        false
    }

    /// Whether a crash may leave these maps of a partition: no key is there that is none of these, and each of these has
    /// a value that it may have.
    fn may_leave_part(&self, lines: &[Line], p: usize, keys: &Maps, found: &Maps) -> bool {
        for key in found.keys() {
            if !keys.contains_key(key) {
                return false;
            }
        }
        for key in keys.keys() {
            let value = found.get(key).map(|value| value.as_slice());
            if !self.allows(lines, p, key, value) {
                return false;
            }
        }
        true
    }

    /// The same of all partitions, after some of the lines.
    pub fn may_leave(&self, lines: &[Line], keys: &[Maps], found: &[Maps]) -> bool {
        if keys.len() != self.parts.len() || found.len() != self.parts.len() {
            return false;
        }
        for (p, (keys, maps)) in keys.iter().zip(found).enumerate() {
            if !self.may_leave_part(lines, p, keys, maps) {
                return false;
            }
        }
        true
    }
}

/// Empty maps, one of each partition.
pub fn no_maps(alloc: Global, partitions: u8) -> Result<Vec<Maps>, Fail> {
    let mut parts = Vec::new(alloc);
    for _ in 0..partitions {
        parts.push(BTreeMap::new(alloc))?;
    }
    Ok(parts)
}

/// Prints the lines of a partition's maps.
fn print_maps(alloc: Global, p: usize, maps: &Maps, text: &mut Vec<u8>) -> Result<(), Fail> {
    for (key, value) in maps {
        text.extend_from_slice(format!(in alloc; "{p} {} ", key.0)?.as_bytes())?;
        text.extend_from_slice(key.1.as_slice())?;
        text.push(b' ')?;
        text.extend_from_slice(value.as_slice())?;
        text.push(b'\n')?;
    }
    Ok(())
}

/// The maps that a dump tells, one of each partition. Keys and values stand for themselves.
pub fn maps_of(alloc: Global, partitions: u8, dump: &[u8]) -> Result<Vec<Maps>, Fail> {
    let mut parts = no_maps(alloc, partitions)?;
    for line in str::from_utf8(dump)?.lines() {
        let mut words = line.split(' ');
        let p = words.next().unwrap_or("").parse::<usize>()?;
        let map = words.next().unwrap_or("").parse::<u64>()?;
        let key = words.next().ok_or("no key")?.as_bytes().to_vec(alloc)?;
        let value = words.next().ok_or("no value")?.as_bytes().to_vec(alloc)?;
        let part = parts.get_mut(p).ok_or("no partition")?;
        part.insert((map, key), value)?;
    }
    Ok(parts)
}
