//! Events and chunk names as text. All are of partition 0, and a chunk is `v-1`.

ghost use Rattle.std.specs.Prelude.{◌≡◌, ◌≤◌, true, IfOk, OnOk};
ghost use Rattle.hr_base.specs.declared.limits.TheConstants.{MAX_KEY_LEN, MAX_VALUE_LEN};
ghost use Rattle.hr_base.specs.Names.{IsChunkName};
ghost use Rattle.hr_base.specs.Records.{IsSeq};
ghost use Rattle.gc_event.specs.Events.{IsEvent};

use bytes::Bytes;
use gc_event::Event;
use hr_base::{
    CHUNK_NO_END, ChunkName, ChunkNo, Class, Kind, MAX_FILE_LEN, MAX_KEY_LEN, MAX_PARTITIONS,
    MAX_VALUE_LEN, Named, Partition, SEQ_END, Seq, class_of,
};
use record_format::Record;
use std::alloc::Global;
use std::test::Fail;

/// A file that tells no name.
#[derive(Debug, Drop)]
pub struct Handle;

impl Named for Handle {
    ghost use Rattle.std.specs.Prelude.{None};

    ghost name = { λ _. None };
}

/// A record, and whether it is told by an event of its own kind. A value `x*3` is three letters.
#[derive(Clone, Copy)]
pub struct Fact<'a> {
    pub seq: u64,
    pub class: Class,
    pub prefix: u64,
    pub key: &'a str,
    pub value: &'a str,
    pub own: bool,
}

/// The number that a text is.
pub fn number(text: &str) -> Result<u64, Fail> {
    Ok(text.parse::<u64>()?)
}

/// A line's first word, and the others.
pub fn split(line: &str) -> (&str, &str) {
    line.split_once(' ').unwrap_or((line, ""))
}

/// The chunk of partition 0 with this kind and number.
pub fn chunk(kind: Kind, number: u64) -> ChunkName {
    ChunkName {
        partition: Partition(0),
        kind,
        number: ChunkNo(number),
    }
}

/// The chunk that a text names.
pub fn read_chunk(text: &str) -> Result<ChunkName, Fail> {
    let (letter, digits) = text.split_once('-').ok_or("no chunk")?;
    let kind = match letter {
        "t" => Kind::T,
        "u" => Kind::U,
        "v" => Kind::V,
        "w" => Kind::W,
        "x" => Kind::X,
        "y" => Kind::Y,
        _ => return Err("no kind".into()),
    };
    Ok(chunk(kind, number(digits)?))
}

/// The letters of a value.
fn value_of(alloc: Global, text: &str) -> Result<Vec<u8>, Fail> {
    let (letter, times) = text.split_once('*').unwrap_or((text, "1"));
    let mut value = Vec::new(alloc);
    for _ in 0..number(times)? {
        value.extend_from_slice(letter.as_bytes())?;
    }
    Ok(value)
}

/// Whether a record or a file may stand in a chunk of the name.
fn is_name(name: ChunkName) -> bool
    ensures { result ≡ true → IsChunkName name }
{
    let number = name.number.0;
    name.partition.0 < MAX_PARTITIONS && 1 <= number && number < CHUNK_NO_END
}

/// That a record may be told: its number, the lengths of its key and of its value, and its chunk.
fn check_bounds(seq: u64, key: usize, value: usize, chunk: ChunkName) -> Result<(), Fail>
    ensures { OnOk result (IsSeq seq × (key ≤ MAX_KEY_LEN) × (value ≤ MAX_VALUE_LEN) × IsChunkName chunk) }
{
    if seq < 1 || SEQ_END <= seq {
        return Err("no number".into());
    }
    if MAX_KEY_LEN < key || MAX_VALUE_LEN < value {
        return Err("too long".into());
    }
    if !is_name(chunk) {
        return Err("no chunk".into());
    }
    Ok(())
}

/// The event that tells a record in a chunk.
pub fn event_of(alloc: Global, fact: Fact<'_>, chunk: ChunkName) -> Result<Event<Handle>, Fail>
    ensures { IfOk result (IsEvent ⟦<Handle as Named>⟧.name) }
{
    let key = Bytes::copy_from_slice(alloc, fact.key.as_bytes())?;
    let value = Bytes::from_vec(value_of(alloc, fact.value)?)?;
    check_bounds(fact.seq, key.len(), value.len(), chunk)?;
    let (prefix, class) = (fact.prefix, class_of(chunk.kind));
    if class != fact.class {
        return Err("no such event".into());
    }
    let seq = Seq(fact.seq);
    if !fact.own {
        return Ok(Event::Dead {
            seq,
            prefix,
            key,
            class,
            len: 16,
            chunk,
        });
    }
    Ok(match class {
        Class::Value => Event::Value {
            seq,
            prefix,
            key,
            value,
            chunk,
        },
        Class::Tomb => Event::Tomb {
            seq,
            prefix,
            key,
            chunk,
        },
        Class::Clear => Event::Clear { prefix, seq, chunk },
    })
}

/// The class of the records that a verb makes.
fn read_class(verb: &str) -> Result<Class, Fail> {
    match verb {
        "put" => Ok(Class::Value),
        "remove" => Ok(Class::Tomb),
        "clear" => Ok(Class::Clear),
        _ => Err("no such event".into()),
    }
}

/// The event of a record: `put SEQ MAP KEY VALUE CHUNK`, `remove SEQ MAP KEY CHUNK`, `clear SEQ MAP CHUNK`. Where the
/// record is dead, a put has no value.
fn read_record(alloc: Global, line: &str, own: bool) -> Result<Event<Handle>, Fail>
    ensures { IfOk result (IsEvent ⟦<Handle as Named>⟧.name) }
{
    let mut words = line.split(' ');
    let class = read_class(words.next().unwrap_or(""))?;
    let seq = number(words.next().unwrap_or(""))?;
    let prefix = number(words.next().unwrap_or(""))?;
    let mut fact = Fact {
        seq,
        class,
        prefix,
        key: "",
        value: "",
        own,
    };
    if class != Class::Clear {
        fact.key = words.next().unwrap_or("");
    }
    if own && class == Class::Value {
        fact.value = words.next().unwrap_or("");
    }
    let chunk = read_chunk(words.next().unwrap_or(""))?;
    event_of(alloc, fact, chunk)
}

/// The event of a sealed chunk: its name, and its bytes.
fn read_seal(line: &str) -> Result<Event<Handle>, Fail>
    ensures { IfOk result (IsEvent ⟦<Handle as Named>⟧.name) }
{
    let (name, size) = split(line);
    let (name, size) = (read_chunk(name)?, number(size)?);
    if !is_name(name) || MAX_FILE_LEN < size {
        return Err("no such seal".into());
    }
    Ok(Event::Seal {
        name,
        file: Handle,
        size,
    })
}

/// The event of a line: that of a record, or `dead` and that, or `seal CHUNK SIZE`.
pub fn read_event(alloc: Global, line: &str) -> Result<Event<Handle>, Fail>
    ensures { IfOk result (IsEvent ⟦<Handle as Named>⟧.name) }
{
    let (verb, rest) = split(line);
    match verb {
        "seal" => read_seal(rest),
        "dead" => read_record(alloc, rest, false),
        _ => read_record(alloc, line, true),
    }
}

/// Writes a chunk's name.
pub fn tell_chunk(told: &mut String, name: ChunkName) -> Result<(), Fail> {
    let letter = match name.kind {
        Kind::T => 't',
        Kind::U => 'u',
        Kind::V => 'v',
        Kind::W => 'w',
        Kind::X => 'x',
        Kind::Y => 'y',
    };
    write!(told, " {letter}-{}", name.number.0)?;
    Ok(())
}

/// Writes a word.
fn tell_word(told: &mut String, word: &Bytes) -> Result<(), Fail> {
    write!(told, " {}", str::from_utf8(word.as_slice())?)?;
    Ok(())
}

/// Writes the verb of a class.
fn verb_of(class: Class) -> &'static str {
    match class {
        Class::Value => "put",
        Class::Tomb => "remove",
        Class::Clear => "clear",
    }
}

/// The line of an event.
pub fn line_of(alloc: Global, event: &Event<Handle>) -> Result<String, Fail> {
    let mut told = String::new(alloc);
    let name = match event {
        Event::Value {
            seq,
            prefix,
            key,
            value,
            chunk,
        } => {
            write!(told, "put {} {prefix}", seq.0)?;
            tell_word(&mut told, key)?;
            tell_word(&mut told, value)?;
            *chunk
        }
        Event::Tomb {
            seq,
            prefix,
            key,
            chunk,
        } => {
            write!(told, "remove {} {prefix}", seq.0)?;
            tell_word(&mut told, key)?;
            *chunk
        }
        Event::Clear { prefix, seq, chunk } => {
            write!(told, "clear {} {prefix}", seq.0)?;
            *chunk
        }
        Event::Dead {
            seq,
            prefix,
            key,
            class,
            len: _,
            chunk,
        } => {
            write!(told, "dead {} {} {prefix}", verb_of(*class), seq.0)?;
            if *class != Class::Clear {
                tell_word(&mut told, key)?;
            }
            *chunk
        }
        Event::Seal {
            name,
            file: _,
            size,
        } => {
            write!(told, "seal of {size} bytes")?;
            *name
        }
    };
    tell_chunk(&mut told, name)?;
    Ok(told)
}

/// Writes a record: its number, its map, its key and its value.
pub fn tell_record(told: &mut String, record: &Record) -> Result<(), Fail> {
    match record {
        Record::Value {
            seq,
            prefix,
            key,
            value,
        } => {
            write!(told, "put {} {prefix}", seq.0)?;
            tell_word(told, key)?;
            tell_word(told, value)?;
        }
        Record::Tomb { seq, prefix, key } => {
            write!(told, "remove {} {prefix}", seq.0)?;
            tell_word(told, key)?;
        }
        Record::Clear { prefix, seq } => write!(told, "clear {} {prefix}", seq.0)?,
    }
    told.push(';')?;
    Ok(())
}

/// The number of a record, and the bytes of its spelling: a header of 24, 20 or 16 bytes, the key, the value.
pub fn measure(record: &Record) -> (u64, usize) {
    match record {
        Record::Value {
            seq,
            prefix: _,
            key,
            value,
        } => (
            seq.0,
            key.len().saturating_add(value.len()).saturating_add(24),
        ),
        Record::Tomb {
            seq,
            prefix: _,
            key,
        } => (seq.0, key.len().saturating_add(20)),
        Record::Clear { prefix: _, seq } => (seq.0, 16),
    }
}
