//! The printing of lines.

ghost use Rattle.std.specs.Prelude.{◌≡◌, ◌++◌, ◌∷◌, codes, decimal, length, take, OnOk, OnErr};
ghost use Rattle.script_text.specs.Lines.{line_text};
ghost use Rattle.script_text.specs.Scripts.{line_of_view};
ghost use Rattle.script_text.specs.Texts.{text_of};

use crate::text::append_text;
use crate::view::LineView;
use hr_base::{Memory, Partition};
use itoa::Buffer;
use std::alloc::AllocError;

/// Appends a line with its end. Where there is no memory, `out` stays as it was.
pub fn print_line(line: &LineView, out: &mut Vec<u8>) -> Result<(), Memory>
    ensures ok { OnOk result (out.new.items ≡ out.old.items ++ line_text (line_of_view line.now) ++ codes "\n") }
    ensures err { OnErr result (out.new.items ≡ out.old.items) }
{
    let before = out.len();
    match append_line(out, line) {
        Ok(()) => Ok(()),
        Err(_refused) => {
            out.truncate(before);
            Err(Memory)
        }
    }
}

// Appends a line with its end. What was there before stays.
fn append_line(out: &mut Vec<u8>, line: &LineView) -> Result<(), AllocError>
    ensures ok { OnOk result (out.new.items ≡ out.old.items ++ line_text (line_of_view line.now) ++ codes "\n") }
    ensures kept { take (length out.old.items) out.new.items ≡ out.old.items }
{
    match line {
        LineView::Put {
            p,
            prefix,
            key,
            value,
        } => {
            append_head(out, *p, b" put ")?;
            append_number(out, *prefix)?;
            append_word(out, *key)?;
            append_word(out, *value)?;
        }
        LineView::Remove { p, prefix, key } => {
            append_head(out, *p, b" remove ")?;
            append_number(out, *prefix)?;
            append_word(out, *key)?;
        }
        LineView::Clear { p, prefix } => {
            append_head(out, *p, b" clear ")?;
            append_number(out, *prefix)?;
        }
        LineView::Get { p, prefix, key } => {
            append_head(out, *p, b" get ")?;
            append_number(out, *prefix)?;
            append_word(out, *key)?;
        }
        LineView::Sync { p } => append_head(out, *p, b" sync")?,
    }
    out.push(b'\n')?;
    Ok(())
}

// Appends a partition's number and a word. What was there before stays.
pub(crate) fn append_head(out: &mut Vec<u8>, p: Partition, word: &[u8]) -> Result<(), AllocError>
    ensures ok { OnOk result (out.new.items ≡ out.old.items ++ (decimal p.0 ++ word.now)) }
    ensures kept { take (length out.old.items) out.new.items ≡ out.old.items }
{
    append_number(out, u64::from(p.0))?;
    out.extend_from_slice(word)
}

// Appends a number. What was there before stays.
pub(crate) fn append_number(out: &mut Vec<u8>, number: u64) -> Result<(), AllocError>
    ensures ok { OnOk result (out.new.items ≡ out.old.items ++ decimal number) }
    ensures kept { take (length out.old.items) out.new.items ≡ out.old.items }
{
    let mut buffer = Buffer::new();
    out.extend_from_slice(buffer.format(number).as_bytes())
}

// Appends a space and the text of a key or a value. What was there before stays.
pub(crate) fn append_word(out: &mut Vec<u8>, bytes: &[u8]) -> Result<(), AllocError>
    ensures ok { OnOk result (out.new.items ≡ out.old.items ++ 32 ∷ text_of bytes.now) }
    ensures kept { take (length out.old.items) out.new.items ≡ out.old.items }
{
    out.push(b' ')?;
    append_text(out, bytes)
}
