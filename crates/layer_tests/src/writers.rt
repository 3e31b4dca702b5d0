//! A writer by itself, by a table of texts: what a session can't show, since it ends at its first refusal.

ghost use Rattle.std.specs.Prelude.{◌≡◌, ◌≤◌};
ghost use Rattle.hr_base.specs.declared.limits.TheConstants.{CHUNK_NO_END, SEQ_END};
ghost use Rattle.dir_files.specs.Ports.{IsEmptyPort};

use bytes::Bytes;
use dir_files::Folder;
use hr_base::{CHUNK_NO_END, Limits, MAX_KEY_LEN, MAX_VALUE_LEN, Partition, SEQ_END};
use mem_folder::MemFolder;
use partition_writer::{WriteRefusal, Writer};
use ram_map::RamMap;
use std::alloc::Global;
use std::test::Fail;
use test_rows::disks::{NEVER, Stop};
use test_rows::expecting::{expect, expect_text};
use test_rows::words::{name_of, number, split};

const LIMITS: Limits = Limits {
    partitions: 64,
    value: 4_096,
    tomb: 4_096,
    percent: 20,
};

/// A writer of partition 3: the numbers of its next record and chunk, the call of the folder from which on all fail; calls,
/// each with its answer; and then files with their lengths.
#[derive(Clone, Copy)]
struct Row {
    name: &'static str,
    next: u64,
    chunk: u64,
    fails: u64,
    calls: &'static str,
    lengths: &'static str,
}

const ROWS: [Row; 4] = [
    Row {
        name: "maps, their counts and their order",
        next: 1,
        chunk: 1,
        fails: NEVER,
        calls: "\
sync: synced 0
next: 1
put 7 b seven: none
put 2 b two: none
put 2 ab x: none
put 2 a y: none
put 18446744073709551615 a max: none
put 2 b new: was two
count 2: 3
count 3: 0
len: 5
clear 3: cleared 0
remove 2 ab: was x
remove 2 ab: none
count 2: 2
len: 4
clear 7: cleared 1
put 7 b again: none
get 7 b: is again
get 7 c: none
next: 10
sync: synced 9
sync: synced 9
entries: 2 a y;2 b new;7 b again;18446744073709551615 a max;",
        lengths: "p03-v-1 197 p03-t-2 22 p03-x-3 16",
    },
    Row {
        name: "a writer halts where the disk fails",
        next: 1,
        chunk: 1,
        fails: 4,
        calls: "\
put 5 k1 v1: none
sync: disk
sync: halted 1
put 5 k1 v2: halted 1
remove 5 absent: halted 1
clear 6: halted 1
get 5 k1: is v1
len: 1
next: 2",
        lengths: "p03-v-1 28 p03-v-2 -",
    },
    // What writes nothing is answered. Of both numbers that of the record is named.
    Row {
        name: "the last numbers of a record and a chunk",
        next: 9_223_372_036_854_775_807,
        chunk: 281_474_976_710_655,
        fails: NEVER,
        calls: "\
put 1 a x: none
remove 1 b: none
clear 2: cleared 0
put 1 a y: spent 9223372036854775808
remove 1 a: spent 9223372036854775808
clear 1: spent 9223372036854775808
sync: synced 9223372036854775807
get 1 a: is x
len: 1",
        lengths: "p03-v-ffffffffffff 26 p03-t-ffffffffffff -",
    },
    // A chunk with room takes more, also where no other may be begun.
    Row {
        name: "the last number of a chunk",
        next: 9,
        chunk: 281_474_976_710_655,
        fails: NEVER,
        calls: "\
put 1 a x: none
remove 1 a: spent 281474976710656
clear 1: spent 281474976710656
put 1 a y: was x
sync: synced 10
next: 11",
        lengths: "p03-v-ffffffffffff 52 p03-t-ffffffffffff -",
    },
];

/// A writer over a folder without files.
fn begin(alloc: Global, port: MemFolder, next: u64, chunk: u64) -> Writer<MemFolder>
    requires fresh { IsEmptyPort (⟦<MemFolder as Folder>⟧.port port) }
    requires numbered { 1 ≤ next }
    requires limited { next ≤ SEQ_END }
    requires chunk_numbered { 1 ≤ chunk }
    requires chunk_limited { chunk ≤ CHUNK_NO_END }
{
    let map = RamMap::new(alloc);
    Writer::resume(alloc, port, Partition(3), &LIMITS, map, next, chunk)
}

/// Writes a value behind its word, or that there is none.
fn tell_value(told: &mut String, word: &str, value: Option<&Bytes>) -> Result<(), Fail> {
    match value {
        None => write!(told, "none")?,
        Some(value) => write!(told, "{word} {}", str::from_utf8(value.as_slice())?)?,
    }
    Ok(())
}

/// Writes why a call was refused.
fn tell_refusal(told: &mut String, refusal: WriteRefusal) -> Result<(), Fail> {
    match refusal {
        WriteRefusal::Memory => write!(told, "memory")?,
        WriteRefusal::DiskFault => write!(told, "disk")?,
        WriteRefusal::Halted { at } => write!(told, "halted {at}")?,
        WriteRefusal::Spent { next } => write!(told, "spent {next}")?,
    }
    Ok(())
}

/// Writes the value before a change, or why it was refused.
fn tell_change(told: &mut String, answer: Result<Option<Bytes>, WriteRefusal>) -> Result<(), Fail> {
    match answer {
        Ok(before) => tell_value(told, "was", before.as_ref()),
        Err(refusal) => tell_refusal(told, refusal),
    }
}

/// Writes all entries of the maps.
fn tell_entries(told: &mut String, map: &RamMap) -> Result<(), Fail> {
    for (prefix, key, value) in &map.entries_sorted()? {
        let key = str::from_utf8(key.as_slice())?;
        let value = str::from_utf8(value.as_slice())?;
        write!(told, "{prefix} {key} {value};")?;
    }
    Ok(())
}

/// Changes a key.
fn change(
    writer: &mut Writer<MemFolder>,
    map: u64,
    rest: &str,
    removes: bool,
) -> Result<Result<Option<Bytes>, WriteRefusal>, Fail> {
    let (key, value) = split(rest);
    let (key, value) = (key.as_bytes(), value.as_bytes());
    if key.len() > MAX_KEY_LEN || value.len() > MAX_VALUE_LEN {
        return Err("too long".into());
    }
    Ok(if removes {
        writer.remove(map, key)
    } else {
        writer.put(map, key, value)
    })
}

/// Makes the call of a line, and writes its answer.
fn make(writer: &mut Writer<MemFolder>, line: &str, told: &mut String) -> Result<(), Fail> {
    let (verb, rest) = split(line);
    let (map, rest) = split(rest);
    let map = if map.is_empty() { 0 } else { number(map)? };
    match verb {
        "put" => tell_change(told, change(writer, map, rest, false)?)?,
        "remove" => tell_change(told, change(writer, map, rest, true)?)?,
        "clear" => match writer.clear(map) {
            Ok(count) => write!(told, "cleared {count}")?,
            Err(refusal) => tell_refusal(told, refusal)?,
        },
        "sync" => match writer.sync() {
            Ok(last) => write!(told, "synced {}", last.0)?,
            Err(refusal) => tell_refusal(told, refusal)?,
        },
        "get" => tell_value(told, "is", writer.get(map, rest.as_bytes()))?,
        "next" => write!(told, "{}", writer.next())?,
        "count" => write!(told, "{}", writer.map().count(map))?,
        "len" => write!(told, "{}", writer.map().len())?,
        "entries" => tell_entries(told, writer.map())?,
        _ => return Err("no such line".into()),
    }
    Ok(())
}

/// Makes the calls of a row, and compares what each answers.
fn make_all(alloc: Global, writer: &mut Writer<MemFolder>, row: &Row) -> Result<(), Fail> {
    for line in row.calls.lines() {
        let (call, wanted) = line.split_once(": ").ok_or("no answer")?;
        let mut told = String::new(alloc);
        make(writer, call, &mut told)?;
        expect_text(told.as_bytes(), wanted.as_bytes(), line)?;
    }
    Ok(())
}

/// Makes the calls of a row, and compares the lengths of the files then.
fn check_row(alloc: Global, row: &Row) -> Result<(), Fail> {
    let numbered = 1 <= row.next && row.next <= SEQ_END;
    if !numbered || row.chunk == 0 || CHUNK_NO_END < row.chunk {
        return Err("no number".into());
    }
    let stop = Stop {
        port: 0,
        call: row.fails,
        goes_on: true,
    };
    let port = MemFolder::empty(alloc, stop.plans(alloc)?);
    let mut writer = begin(alloc, port, row.next, row.chunk);
    let made = make_all(alloc, &mut writer, row);
    let folder = writer.close();
    made?;
    let mut words = row.lengths.split(' ');
    while let Some(short) = words.next() {
        let length = words.next().unwrap_or("-");
        let found = folder
            .bytes(name_of(alloc, short)?)
            .map(|bytes| bytes.len());
        let wanted = if length == "-" {
            None
        } else {
            Some(number(length)? as usize)
        };
        expect(found == wanted, row.name)?;
    }
    Ok(())
}

#[test]
fn calls_of_a_writer_go_by_the_table(rt: HostRuntime) -> Result<(), Fail> {
    for row in &ROWS {
        check_row(rt.alloc(), row)?;
    }
    Ok(())
}

fn may_go_to_a_thread<T: Send + Sync + Drop>(_value: T) {}

#[test]
fn maps_may_go_to_a_thread(rt: HostRuntime) {
    may_go_to_a_thread(RamMap::new(rt.alloc()));
}
