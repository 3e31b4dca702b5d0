//! The reading of one line.

ghost use Rattle.std.specs.Prelude.{◌≡◌, ℕ, IfOk, IfSome, IfNone, List};
ghost use Rattle.script_text.specs.declared.line.Line.{Line};
ghost use Rattle.script_text.specs.Fields.{HasWords, IsCommandText, IsKeyText, IsPutText, IsWord, line_of, word_bytes};
ghost use Rattle.script_text.specs.Lines.{IsLine, line_text, partition_of};

use crate::fields::{cut_at, read_partition};
use crate::line::Mode;
use crate::text::{Word, read_word};
use hr_base::{MAX_KEY_LEN, MAX_VALUE_LEN, Partition, read_decimal};

// A line whose key and value are borrowed from its text.
#[derive(Clone, Copy)]
pub(crate) enum BorrowedLine<'a> {
    Put(Partition, u64, Word<'a>, Word<'a>),
    Remove(Partition, u64, Word<'a>),
    Clear(Partition, u64),
    Get(Partition, u64, Word<'a>),
    Sync(Partition),
}

// The line that a text spells.
pub(crate) fn read_line(text: &[u8], mode: Mode, partitions: u8) -> Option<BorrowedLine<'_>>
    ensures found { IfSome result (λ line. HasWords line × IsLine mode partitions (line_of line)
        × (text.now ≡ line_text (line_of line))) }
    ensures none { IfNone result
        ((line : Line) → IsLine mode partitions line → text.now ≡ line_text line → ⊥) }
{
    let (field, command) = cut_at(text, b' ')?;
    let p = read_partition(field, partitions)?;
    read_command(p, command)
}

// The line of a partition, from its text behind the partition.
fn read_command(p: Partition, command: &[u8]) -> Option<BorrowedLine<'_>>
    ensures found { IfSome result (λ line. HasWords line × IsCommandText command.now (line_of line)
        × (partition_of (line_of line) ≡ p.0)) }
    ensures none { IfNone result ((line : Line) → IsCommandText command.now line → ⊥) }
{
    if let Some(arguments) = command.strip_prefix(b"put ") {
        let (prefix, key, value) = read_put(arguments)?;
        return Some(BorrowedLine::Put(p, prefix, key, value));
    }
    if let Some(arguments) = command.strip_prefix(b"remove ") {
        let (prefix, key) = read_key(arguments)?;
        return Some(BorrowedLine::Remove(p, prefix, key));
    }
    if let Some(arguments) = command.strip_prefix(b"clear ") {
        let prefix = read_decimal(arguments)?;
        return Some(BorrowedLine::Clear(p, prefix));
    }
    if let Some(arguments) = command.strip_prefix(b"get ") {
        let (prefix, key) = read_key(arguments)?;
        return Some(BorrowedLine::Get(p, prefix, key));
    }
    if command == b"sync".as_slice() {
        Some(BorrowedLine::Sync(p))
    } else {
        None
    }
}

// A put's prefix, key and value.
fn read_put(arguments: &[u8]) -> Option<(u64, Word<'_>, Word<'_>)>
    ensures found { IfSome result (λ x. IsWord x.1 × IsWord x.2
        × IsPutText arguments.now x.0 (word_bytes x.1) (word_bytes x.2)) }
    ensures none { IfNone result
        ((prefix : ℕ) (key value : List ℕ) → IsPutText arguments.now prefix key value → ⊥) }
{
    let (field, words) = cut_at(arguments, b' ')?;
    let prefix = read_decimal(field)?;
    let (key_text, value_text) = cut_at(words, b' ')?;
    let key = read_word(key_text, MAX_KEY_LEN)?;
    let value = read_word(value_text, MAX_VALUE_LEN)?;
    Some((prefix, key, value))
}

// A prefix and a key.
fn read_key(arguments: &[u8]) -> Option<(u64, Word<'_>)>
    ensures found { IfSome result (λ x. IsWord x.1 × IsKeyText arguments.now x.0 (word_bytes x.1)) }
    ensures none { IfNone result
        ((prefix : ℕ) (key : List ℕ) → IsKeyText arguments.now prefix key → ⊥) }
{
    let (field, key_text) = cut_at(arguments, b' ')?;
    let prefix = read_decimal(field)?;
    let key = read_word(key_text, MAX_KEY_LEN)?;
    Some((prefix, key))
}
