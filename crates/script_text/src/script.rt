//! Whole scripts.

ghost use Rattle.std.specs.Prelude.{◌≡◌, ◌<◌, ◌∷◌, ℕ, List, length, Err, IfNone, IfOk, IfSome, IsOk};
ghost use Rattle.hr_base.specs.LimitRanges.{IsPartitionCount};
ghost use Rattle.script_text.specs.declared.line.Line.{Line};
ghost use Rattle.script_text.specs.Lines.{IsScript, IsFirstBad, line_texts};
ghost use Rattle.script_text.specs.Scripts.{script_lines};

use crate::line::Mode;
use crate::lines::Lines;
use crate::read::read_line;
use hr_base::Memory;
use memchr::memchr;
use std::alloc::Global;
use std::marker::Model;
use thiserror::Error;

/// A script. Its lines are read one by one as they are needed, so it keeps its bytes alone.
#[derive(Debug, Drop)]
pub struct Script {
    text: Vec<u8>,
    mode: Mode,
    partitions: u8,
}

impl Model for Script {
    ghost use Rattle.std.specs.Prelude.{List};
    ghost use Rattle.script_text.specs.declared.line.Line.{Line};
    ghost use Rattle.script_text.specs.Lines.{IsScript};
    ghost use Rattle.script_text.specs.Scripts.{script_lines};

    ghost Value = { List Line };

    ghost view = { λ s. script_lines s.text.items };

    ghost invariant = { λ s. IsScript s.mode s.partitions s.text.items (script_lines s.text.items) };
}

impl Script {
    ghost use Rattle.script_text.specs.Scripts.{left};

    /// The lines in order, before the first one. All memory that they need is taken here.
    pub fn lines(&self, alloc: Global) -> Result<Lines<'_>, Memory>
        ensures { IfOk result (λ lines. left lines ≡ self.now) }
    {
        Lines::of(alloc, self.text.as_slice(), self.mode, self.partitions)
    }
}

/// Why a script was not read.
#[derive(Clone, Copy, Debug, PartialEq, Eq, Error)]
pub enum ScriptRefusal {
    /// There was no memory.
    #[error("out of memory")]
    Memory,
    /// The first line that is none of the grammar, counted from 1.
    #[error("line {number}")]
    Line { number: u64 },
}

/// Reads a script of a mode for so many partitions. It takes no memory.
///
/// Each line ends with byte 10, which the last one may lack; no bytes are a script of no lines.
pub fn read_script(bytes: Vec<u8>, mode: Mode, partitions: u8) -> Result<Script, ScriptRefusal>
    requires { IsPartitionCount partitions }
    ensures found { IfOk result (λ script. IsScript mode partitions bytes.items script) }
    ensures bad { (number : ℕ) → result ≡ Err (ScriptRefusal.Line number)
        → IsFirstBad mode partitions bytes.items number }

    // What is a script is read as such, and what is none is refused by its first bad line.
    ensures all { (lines : List Line) → IsScript mode partitions bytes.items lines
        → IfOk result (λ script. script ≡ lines) × IsOk result }
    ensures first { (number : ℕ) → IsFirstBad mode partitions bytes.items number
        → result ≡ Err (ScriptRefusal.Line number) }
{
    match first_bad(bytes.as_slice(), mode, partitions) {
        None => Ok(Script {
            text: bytes,
            mode,
            partitions,
        }),
        Some(number) => Err(ScriptRefusal::Line { number }),
    }
}

// The number of the first line that is none of the grammar.
fn first_bad(bytes: &[u8], mode: Mode, partitions: u8) -> Option<u64>
    requires { IsPartitionCount partitions }
    ensures none { IfNone result (IsScript mode partitions bytes.now (script_lines bytes.now)) }
    ensures bad { IfSome result (IsFirstBad mode partitions bytes.now) }
{
    let mut number: u64 = 0;
    let mut rest = bytes;
    while !rest.is_empty() {
        let (text, after) = first_text(rest);
        number += 1;
        let Some(_line) = read_line(text, mode, partitions) else {
            return Some(number);
        };
        rest = after;
    }
    None
}

// The text of the first line, and the bytes behind its end.
pub(crate) fn first_text(bytes: &[u8]) -> (&[u8], &[u8])
    requires { 0 < length bytes.now }
    ensures split { line_texts bytes.now ≡ result.0.now ∷ line_texts result.1.now }
    ensures shorter { length result.1.now < length bytes.now }
{
    match memchr(b'\n', bytes) {
        Some(end) => (&bytes[..end], &bytes[end + 1..]),
        None => (bytes, &[]),
    }
}
