//! The lines of a script, one after another.

ghost use Rattle.std.specs.Prelude.{◌≡◌, ◌≤◌, ◌∷◌, [], length, true, false, vec_capacity, IfOk, IfSome};
ghost use Rattle.hr_base.specs.declared.limits.TheConstants.{MAX_KEY_LEN, MAX_VALUE_LEN};
ghost use Rattle.script_text.specs.Fields.{HasWords, KeepsLengths, line_of};
ghost use Rattle.script_text.specs.Scripts.{line_with};

use crate::line::Mode;
use crate::read::{BorrowedLine, read_line};
use crate::script::first_text;
use crate::text::decode;
use crate::view::{LineHead, LineView};
use hr_base::{MAX_KEY_LEN, MAX_VALUE_LEN, Memory, Partition};
use std::alloc::Global;
use std::marker::Model;

/// The lines of a script in order. It shows one of them at a time, and takes no memory once it is there.
#[derive(Drop)]
pub struct Lines<'a> {
    rest: &'a [u8],
    mode: Mode,
    partitions: u8,
    head: LineHead,
    // Room for the longest key and the longest value.
    key: Vec<u8>,
    value: Vec<u8>,
}

impl<'a> Model for Lines<'a> {
    ghost use Rattle.std.specs.Prelude.{◌≤◌, List, vec_capacity};
    ghost use Rattle.hr_base.specs.declared.limits.TheConstants.{MAX_KEY_LEN, MAX_VALUE_LEN};
    ghost use Rattle.script_text.specs.declared.line.Line.{Line};
    ghost use Rattle.script_text.specs.Lines.{IsScript};
    ghost use Rattle.script_text.specs.Scripts.{line_with, script_lines};

    ghost Value = { Line × List Line };

    ghost view = { λ it. (line_with it.head it.key.items it.value.items, script_lines it.rest.now) };

    ghost invariant = { λ it. IsScript it.mode it.partitions it.rest.now (script_lines it.rest.now)
        × (MAX_KEY_LEN ≤ vec_capacity it.key) × (MAX_VALUE_LEN ≤ vec_capacity it.value) };
}

impl<'a> Lines<'a> {
    ghost use Rattle.script_text.specs.Lines.{IsScript};
    ghost use Rattle.script_text.specs.Scripts.{left, line_of_view, script_lines, shown};

    /// The lines of a text before the first one.
    pub(crate) fn of(
        alloc: Global,
        text: &'a [u8],
        mode: Mode,
        partitions: u8,
    ) -> Result<Lines<'a>, Memory>
        requires { IsScript mode partitions text.now (script_lines text.now) }
        ensures { IfOk result (λ lines. left lines ≡ script_lines text.now) }
    {
        Ok(Lines {
            rest: text,
            mode,
            partitions,
            head: LineHead::Sync(Partition(0)),
            key: Vec::with_capacity(alloc, MAX_KEY_LEN)?,
            value: Vec::with_capacity(alloc, MAX_VALUE_LEN)?,
        })
    }

    /// Goes to the next line, and answers whether there is one.
    pub fn advance(&mut self) -> bool
        ensures more { result ≡ true → left self.old ≡ shown self.new ∷ left self.new }
        ensures end { result ≡ false → left self.old ≡ [] }
    {
        if self.rest.is_empty() {
            return false;
        }
        let (text, after) = first_text(self.rest);
        let Some(line) = read_line(text, self.mode, self.partitions) else {
            unreachable!()
        };
        self.head = keep(line, &mut self.key, &mut self.value);
        self.rest = after;
        true
    }

    /// The line that it went to.
    pub fn line(&self) -> LineView<'_>
        ensures { line_of_view result ≡ shown self.now }
    {
        let key = self.key.as_slice();
        let value = self.value.as_slice();
        match self.head {
            LineHead::Put(p, prefix) => LineView::Put {
                p,
                prefix,
                key,
                value,
            },
            LineHead::Remove(p, prefix) => LineView::Remove { p, prefix, key },
            LineHead::Clear(p, prefix) => LineView::Clear { p, prefix },
            LineHead::Get(p, prefix) => LineView::Get { p, prefix, key },
            LineHead::Sync(p) => LineView::Sync { p },
        }
    }
}

// Puts a line's key and value into buffers that have room for them, and answers the rest of it.
fn keep(line: BorrowedLine, key: &mut Vec<u8>, value: &mut Vec<u8>) -> LineHead
    requires words { HasWords line }
    requires short { KeepsLengths line }
    requires key { MAX_KEY_LEN ≤ vec_capacity key.old }
    requires value { MAX_VALUE_LEN ≤ vec_capacity value.old }
    ensures line { line_with result key.new.items value.new.items ≡ line_of line.entry }
    ensures key { MAX_KEY_LEN ≤ vec_capacity key.new }
    ensures value { MAX_VALUE_LEN ≤ vec_capacity value.new }
{
    match line {
        BorrowedLine::Put(p, prefix, key_word, value_word) => {
            decode(key_word, key);
            decode(value_word, value);
            LineHead::Put(p, prefix)
        }
        BorrowedLine::Remove(p, prefix, word) => {
            decode(word, key);
            LineHead::Remove(p, prefix)
        }
        BorrowedLine::Clear(p, prefix) => LineHead::Clear(p, prefix),
        BorrowedLine::Get(p, prefix, word) => {
            decode(word, key);
            LineHead::Get(p, prefix)
        }
        BorrowedLine::Sync(p) => LineHead::Sync(p),
    }
}
