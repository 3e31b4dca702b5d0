//! The entries of maps as text.

ghost use Rattle.std.specs.Prelude.{◌≡◌, ◌++◌, length, take, OnOk, OnErr};
ghost use Rattle.script_text.specs.Dumps.{entry_text};

use crate::print::{append_head, append_number, append_word};
use hr_base::{Memory, Partition};
use std::alloc::AllocError;

/// Appends the line of an entry, with its end: the partition, the map, the key and the value. Where there is no memory,
/// `out` stays as it was.
pub fn print_entry(
    p: Partition,
    prefix: u64,
    key: &[u8],
    value: &[u8],
    out: &mut Vec<u8>,
) -> Result<(), Memory>
    ensures ok { OnOk result (out.new.items ≡ out.old.items ++ entry_text p.0 prefix key.now value.now) }
    ensures err { OnErr result (out.new.items ≡ out.old.items) }
{
    let before = out.len();
    match append_entry(p, prefix, key, value, out) {
        Ok(()) => Ok(()),
        Err(_refused) => {
            out.truncate(before);
            Err(Memory)
        }
    }
}

// Appends the line of an entry, with its end. What was there before stays.
fn append_entry(
    p: Partition,
    prefix: u64,
    key: &[u8],
    value: &[u8],
    out: &mut Vec<u8>,
) -> Result<(), AllocError>
    ensures ok { OnOk result (out.new.items ≡ out.old.items ++ entry_text p.0 prefix key.now value.now) }
    ensures kept { take (length out.old.items) out.new.items ≡ out.old.items }
{
    append_head(out, p, b" ")?;
    append_number(out, prefix)?;
    append_word(out, key)?;
    append_word(out, value)?;
    out.push(b'\n')?;
    Ok(())
}
