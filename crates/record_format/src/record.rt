//! Records, and how they are spelled. The layout is stated in `docs/FORMATS.md`.

ghost use Rattle.std.specs.Prelude.{◌≡◌, ◌<◌, ◌≤◌, ◌^◌, ◌++◌, OnOk, OnErr, length, take};
ghost use Rattle.std.specs.Int.{w32, w64, to_be_bytes};
ghost use Rattle.record_format.specs.Spelling.{IsRecord, spelling};

use byteorder::{BigEndian, ByteOrder};
use bytes::Bytes;
use hr_base::{Memory, Seq};

/// One fact about a partition's maps.
#[derive(Debug, Drop)]
pub enum Record {
    /// A key of the map `prefix` was given a value.
    Value {
        seq: Seq,
        prefix: u64,
        key: Bytes,
        value: Bytes,
    },
    /// A key of the map `prefix` was removed.
    Tomb {
        seq: Seq,
        prefix: u64,
        key: Bytes,
    },
    /// All keys of the map `prefix` were removed.
    Clear {
        prefix: u64,
        seq: Seq,
    },
}

/// Appends a record's spelling.
pub fn encode(rec: &Record, out: &mut Vec<u8>) -> Result<(), Memory>
    requires { IsRecord rec.now }
    ensures ok { OnOk result (out.new.items ≡ out.old.items ++ spelling rec.now) }
    ensures err { OnErr result (out.new.items ≡ out.old.items) }
{
    let start = out.len();
    let done = append_record(rec, out);
    if done.is_err() {
        out.truncate(start);
    }
    done
}

// Appends a record's spelling, or a front of it where memory runs out.
fn append_record(rec: &Record, out: &mut Vec<u8>) -> Result<(), Memory>
    requires { IsRecord rec.now }
    ensures ok { OnOk result (out.new.items ≡ out.old.items ++ spelling rec.now) }
    ensures kept { take (length out.old.items) out.new.items ≡ out.old.items }
{
    match rec {
        Record::Value {
            seq,
            prefix,
            key,
            value,
        } => append_value(*seq, *prefix, key, value, out),
        Record::Tomb { seq, prefix, key } => append_tomb(*seq, *prefix, key, out),
        Record::Clear { prefix, seq } => append_clear(*prefix, *seq, out),
    }
}

// The bytes of a number, the highest first.
fn big_endian_u64(number: u64) -> [u8; 8]
    ensures { result ≡ to_be_bytes w64 number }
{
    let mut bytes = [0; 8];
    BigEndian::write_u64(&mut bytes, number);
    bytes
}

// The bytes of a number, the highest first.
fn big_endian_u32(number: u32) -> [u8; 4]
    ensures { result ≡ to_be_bytes w32 number }
{
    let mut bytes = [0; 4];
    BigEndian::write_u32(&mut bytes, number);
    bytes
}

// Appends a value record's header, key and value, or a front of them where memory runs out.
fn append_value(
    seq: Seq,
    prefix: u64,
    key: &[u8],
    value: &[u8],
    out: &mut Vec<u8>,
) -> Result<(), Memory>
    requires key { length key.now < 2 ^ 32 }
    requires value { length value.now < 2 ^ 32 }
    ensures ok { OnOk result (out.new.items
        ≡ out.old.items ++ (to_be_bytes w64 seq.0 ++ to_be_bytes w64 prefix
        ++ to_be_bytes w32 (length key.now) ++ to_be_bytes w32 (length value.now)
        ++ key.now ++ value.now)) }
    ensures kept { take (length out.old.items) out.new.items ≡ out.old.items }
{
    out.extend_from_slice(&big_endian_u64(seq.0))?;
    out.extend_from_slice(&big_endian_u64(prefix))?;
    out.extend_from_slice(&big_endian_u32(key.len() as u32))?;
    out.extend_from_slice(&big_endian_u32(value.len() as u32))?;
    out.extend_from_slice(key)?;
    out.extend_from_slice(value)?;
    Ok(())
}

// Appends a tombstone's header and key, or a front of them where memory runs out.
fn append_tomb(seq: Seq, prefix: u64, key: &[u8], out: &mut Vec<u8>) -> Result<(), Memory>
    requires { length key.now < 2 ^ 32 }
    ensures ok { OnOk result (out.new.items
        ≡ out.old.items ++ (to_be_bytes w64 seq.0 ++ to_be_bytes w64 prefix
        ++ to_be_bytes w32 (length key.now) ++ key.now)) }
    ensures kept { take (length out.old.items) out.new.items ≡ out.old.items }
{
    out.extend_from_slice(&big_endian_u64(seq.0))?;
    out.extend_from_slice(&big_endian_u64(prefix))?;
    out.extend_from_slice(&big_endian_u32(key.len() as u32))?;
    out.extend_from_slice(key)?;
    Ok(())
}

// Appends a prefix tombstone, or a front of it where memory runs out.
fn append_clear(prefix: u64, seq: Seq, out: &mut Vec<u8>) -> Result<(), Memory>
    ensures ok { OnOk result (out.new.items
        ≡ out.old.items ++ (to_be_bytes w64 prefix ++ to_be_bytes w64 seq.0)) }
    ensures kept { take (length out.old.items) out.new.items ≡ out.old.items }
{
    out.extend_from_slice(&big_endian_u64(prefix))?;
    out.extend_from_slice(&big_endian_u64(seq.0))?;
    Ok(())
}
