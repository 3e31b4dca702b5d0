//! Replies, and their text.

ghost use Rattle.std.specs.Prelude.{◌≡◌, ◌++◌, length, take, OnOk, OnErr};
ghost use Rattle.script_text.specs.Replies.{reply_text};

use crate::print::{append_head, append_number};
use crate::text::append_text;
use hr_base::{Memory, Partition};
use std::alloc::AllocError;

/// The reply to a line.
#[derive(Clone, Copy, Debug)]
pub enum Reply<'a> {
    /// The key was absent.
    Absent(Partition),
    /// The key had this value before.
    Was(Partition, &'a [u8]),
    /// So many keys went.
    Cleared(Partition, u64),
    /// The key has this value.
    Is(Partition, &'a [u8]),
    /// The partition's commands are durable.
    Synced(Partition),
}

/// Appends the line of a reply, with its end. Where there is no memory, `out` stays as it was.
pub fn print_reply(reply: &Reply, out: &mut Vec<u8>) -> Result<(), Memory>
    ensures ok { OnOk result (out.new.items ≡ out.old.items ++ reply_text reply.now) }
    ensures err { OnErr result (out.new.items ≡ out.old.items) }
{
    let before = out.len();
    match append_reply(out, reply) {
        Ok(()) => Ok(()),
        Err(_refused) => {
            out.truncate(before);
            Err(Memory)
        }
    }
}

// Appends the line of a reply, with its end. What was there before stays.
fn append_reply(out: &mut Vec<u8>, reply: &Reply) -> Result<(), AllocError>
    ensures ok { OnOk result (out.new.items ≡ out.old.items ++ reply_text reply.now) }
    ensures kept { take (length out.old.items) out.new.items ≡ out.old.items }
{
    match *reply {
        Reply::Absent(p) => append_head(out, p, b" none")?,
        Reply::Was(p, value) => {
            append_head(out, p, b" was ")?;
            append_text(out, value)?;
        }
        Reply::Cleared(p, count) => {
            append_head(out, p, b" cleared ")?;
            append_number(out, count)?;
        }
        Reply::Is(p, value) => {
            append_head(out, p, b" is ")?;
            append_text(out, value)?;
        }
        Reply::Synced(p) => append_head(out, p, b" synced")?,
    }
    out.push(b'\n')?;
    Ok(())
}
