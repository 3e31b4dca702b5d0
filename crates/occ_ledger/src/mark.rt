//! What is known of a record that was told.

ghost use Rattle.std.specs.Prelude.{◌≡◌, IfOk};
ghost use Rattle.std.specs.Option.{option_map};
ghost use Rattle.hr_base.specs.Entries.{key_at, is_key};
ghost use Rattle.gc_event.specs.Events.{note_of};
ghost use Rattle.gc_event.specs.Live.{is_clear, is_value};
ghost use Rattle.gc_event.specs.Notes.{concerns};
ghost use Rattle.occ_ledger.specs.Marks.{content_in, identity_in, note_in};

use bytes::Bytes;
use gc_event::Event;
use hr_base::{ChunkName, Class, Memory, Seq};
use record_format::Record;

/// A record, where it was told by an event of its own kind, and else all of it but its value.
#[derive(Drop)]
pub(crate) enum Mark {
    Own(Record),
    Dead {
        seq: Seq,
        prefix: u64,
        key: Bytes,
        class: Class,
    },
}

/// The same record, whose bytes are shared.
pub(crate) fn shared(rec: &Record) -> Result<Record, Memory>
    ensures { IfOk result (λ copy. copy ≡ rec.now) }
{
    Ok(match rec {
        Record::Value {
            seq,
            prefix,
            key,
            value,
        } => Record::Value {
            seq: *seq,
            prefix: *prefix,
            key: key.clone()?,
            value: value.clone()?,
        },
        Record::Tomb { seq, prefix, key } => Record::Tomb {
            seq: *seq,
            prefix: *prefix,
            key: key.clone()?,
        },
        Record::Clear { prefix, seq } => Record::Clear {
            prefix: *prefix,
            seq: *seq,
        },
    })
}

impl Mark {
    /// What an event tells of a record, and the record's chunk. A Seal tells nothing of one.
    pub(crate) fn of<File>(event: &Event<File>) -> Result<Option<(Mark, ChunkName)>, Memory>
        ensures { IfOk result (λ told. note_of event.now ≡ option_map note_in told) }
    {
        Ok(match event {
            Event::Value {
                seq,
                prefix,
                key,
                value,
                chunk,
            } => {
                let record = Record::Value {
                    seq: *seq,
                    prefix: *prefix,
                    key: key.clone()?,
                    value: value.clone()?,
                };
                Some((Mark::Own(record), *chunk))
            }
            Event::Tomb {
                seq,
                prefix,
                key,
                chunk,
            } => {
                let record = Record::Tomb {
                    seq: *seq,
                    prefix: *prefix,
                    key: key.clone()?,
                };
                Some((Mark::Own(record), *chunk))
            }
            Event::Clear { prefix, seq, chunk } => {
                let record = Record::Clear {
                    prefix: *prefix,
                    seq: *seq,
                };
                Some((Mark::Own(record), *chunk))
            }
            Event::Dead {
                seq,
                prefix,
                key,
                class,
                len: _,
                chunk,
            } => {
                let mark = Mark::Dead {
                    seq: *seq,
                    prefix: *prefix,
                    key: key.clone()?,
                    class: *class,
                };
                Some((mark, *chunk))
            }
            Event::Seal { .. } => None,
        })
    }

    /// The same, whose bytes are shared.
    pub(crate) fn copied(&self) -> Result<Mark, Memory>
        ensures { IfOk result (λ copy. copy ≡ self.now) }
    {
        Ok(match self {
            Mark::Own(record) => Mark::Own(shared(record)?),
            Mark::Dead {
                seq,
                prefix,
                key,
                class,
            } => Mark::Dead {
                seq: *seq,
                prefix: *prefix,
                key: key.clone()?,
                class: *class,
            },
        })
    }

    /// The record, where it was told by an event of its own kind.
    pub(crate) fn record(&self) -> Option<&Record>
        ensures { option_map (λ r. r.now) result ≡ content_in self.now }
    {
        match self {
            Mark::Own(record) => Some(record),
            Mark::Dead { .. } => None,
        }
    }

    pub(crate) fn seq(&self) -> u64
        ensures { result ≡ (identity_in self.now).seq }
    {
        match self {
            Mark::Own(
                Record::Value { seq, .. } | Record::Tomb { seq, .. } | Record::Clear { seq, .. },
            ) => seq.0,
            Mark::Dead { seq, .. } => seq.0,
        }
    }

    pub(crate) fn class(&self) -> Class
        ensures { result ≡ (identity_in self.now).class }
    {
        match self {
            Mark::Own(Record::Value { .. }) => Class::Value,
            Mark::Own(Record::Tomb { .. }) => Class::Tomb,
            Mark::Own(Record::Clear { .. }) => Class::Clear,
            Mark::Dead { class, .. } => *class,
        }
    }

    pub(crate) fn prefix(&self) -> u64
        ensures { result ≡ (identity_in self.now).key.prefix }
    {
        match self {
            Mark::Own(
                Record::Value { prefix, .. }
                | Record::Tomb { prefix, .. }
                | Record::Clear { prefix, .. },
            ) => *prefix,
            Mark::Dead { prefix, .. } => *prefix,
        }
    }

    pub(crate) fn key(&self) -> &[u8]
        ensures { result.now ≡ (identity_in self.now).key.bytes }
    {
        match self {
            Mark::Own(Record::Value { key, .. } | Record::Tomb { key, .. }) => key,
            Mark::Own(Record::Clear { .. }) => &[],
            Mark::Dead { key, .. } => key,
        }
    }

    pub(crate) fn is_value(&self) -> bool
        ensures { result ≡ is_value (identity_in self.now) }
    {
        match self.class() {
            Class::Value => true,
            Class::Tomb | Class::Clear => false,
        }
    }

    pub(crate) fn is_clear(&self) -> bool
        ensures { result ≡ is_clear (identity_in self.now) }
    {
        match self.class() {
            Class::Clear => true,
            Class::Value | Class::Tomb => false,
        }
    }

    /// Whether its own key is this one.
    pub(crate) fn has_key(&self, prefix: u64, key: &[u8]) -> bool
        ensures { result ≡ is_key (key_at prefix key.now) (identity_in self.now).key }
    {
        prefix == self.prefix() && key == self.key()
    }

    /// Whether it speaks of the key.
    pub(crate) fn concerns(&self, prefix: u64, key: &[u8]) -> bool
        ensures { result ≡ concerns (identity_in self.now) (key_at prefix key.now) }
    {
        match self.class() {
            Class::Value | Class::Tomb => self.has_key(prefix, key),
            Class::Clear => self.prefix() == prefix,
        }
    }
}
