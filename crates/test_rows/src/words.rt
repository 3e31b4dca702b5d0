//! Words of the tables.

ghost use Rattle.std.specs.Prelude.{IfOk};
ghost use Rattle.hr_base.specs.Names.{IsChunkName};

use hr_base::{ChunkName, Pick, read_name};
use std::alloc::Global;
use std::test::Fail;

/// A line's first word, and the others.
pub fn split(line: &str) -> (&str, &str) {
    line.split_once(' ').unwrap_or((line, ""))
}

/// The number that a text is.
pub fn number(text: &str) -> Result<u64, Fail> {
    Ok(text.parse::<u64>()?)
}

/// The chunk name of a text without the zeros of its number, and without its end: `p00-v-1`.
pub fn name_of(alloc: Global, short: &str) -> Result<ChunkName, Fail>
    ensures { IfOk result IsChunkName }
{
    let (front, number) = short.rsplit_once('-').ok_or("no number")?;
    let text = format!(in alloc; "{front}-{number:0>16}.chunk")?;
    match read_name(text.as_bytes()) {
        Some(name) => Ok(name),
        None => Err("no chunk name".into()),
    }
}

/// The pick of a crash.
pub fn pick_of(text: &str) -> Result<Pick, Fail> {
    match split(text) {
        ("least", _) => Ok(Pick::Least),
        ("most", _) => Ok(Pick::Most),
        (_, seed) => Ok(Pick::Mix(number(seed)?)),
    }
}

/// A text with an end of line for each semicolon.
pub fn lines_of(alloc: Global, text: &str) -> Result<String, Fail> {
    Ok(text.replace(alloc, ";", "\n")?)
}
