//! What is found in bytes of a chunk file, wherever in the file they begin.

ghost use Rattle.std.specs.Prelude.{◌≡◌, ◌+◌, ◌<◌, ◌^◌, IfOk, length};
ghost use Rattle.chunk_read.specs.Readings.{IsRead};

use crate::copies::copied;
use hr_base::Class;
use record_format::{Record, Step, decode};
use std::alloc::{AllocError, Global};

// What stands behind whole records.
#[derive(Clone, Copy)]
pub(crate) enum End {
    // So many bytes, which are less than a record.
    Torn(usize),
    // A header that no record has, at this offset.
    Damaged(u64),
}

// What is found in bytes.
#[derive(Drop)]
pub(crate) struct Found {
    // The whole records, each with the offset of its first byte.
    pub(crate) records: Vec<(u64, Record)>,
    pub(crate) end: End,
}

// Reads bytes of a chunk file of the class, of which the first one has the offset `begin`.
pub(crate) fn read_records(
    alloc: Global,
    bytes: &[u8],
    class: Class,
    begin: u64,
) -> Result<Found, AllocError>
    requires { begin + length bytes.now < 2 ^ 64 }
    ensures { IfOk result (λ found. IsRead class begin bytes.now found.records.items found.end) }
{
    let mut records = Vec::new(alloc);
    let mut rest = bytes;
    loop {
        let at = begin + (bytes.len() - rest.len()) as u64;
        match decode(rest, class) {
            Step::Whole(view, count) => {
                records.push((at, copied(alloc, view)?))?;
                rest = &rest[count..];
            }
            Step::Torn => {
                return Ok(Found {
                    records,
                    end: End::Torn(rest.len()),
                });
            }
            Step::Damaged(_) => {
                return Ok(Found {
                    records,
                    end: End::Damaged(at),
                });
            }
        }
    }
}
