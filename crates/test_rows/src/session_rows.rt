//! Sessions with faults, as text, over any disk.

use crate::disks::{Disk, Edges, NEVER, Stop, Told};
use crate::expecting::{expect, expect_text};
use crate::words::{lines_of, name_of, number, pick_of, split};
use std::alloc::Global;
use std::test::Fail;

const SOUND: Edges = Edges {
    source: NEVER,
    sink: NEVER,
    most: 7,
    room: 1_000,
};

/// What the lines of a row came to so far.
#[derive(Drop)]
struct Bench<D: Disk> {
    row: &'static str,
    disk: D,
    edges: Edges,
    told: Option<Told>,
    alloc: Global,
}

impl<D: Disk> Bench<D> {
    /// At the head of a row.
    fn at(alloc: Global, row: &'static str) -> Bench<D> {
        Bench {
            row,
            disk: D::empty(alloc),
            edges: SOUND,
            told: None,
            alloc,
        }
    }

    /// Plans that calls fail.
    fn plan(&mut self, text: &str) -> Result<(), Fail> {
        let mut words = text.split(' ');
        let stop = Stop {
            port: number(words.next().unwrap_or(""))?,
            call: number(words.next().unwrap_or(""))?,
            goes_on: words.next() == Some("on"),
        };
        self.disk = self.disk.copied(self.alloc, stop)?;
        Ok(())
    }

    /// Runs the program.
    fn run(&mut self, words: &str, script: &str) -> Result<(), Fail> {
        let alloc = self.alloc;
        let script = lines_of(alloc, script)?.as_bytes().to_vec(alloc)?;
        self.told = Some(self.disk.run_between(alloc, words, script, self.edges)?);
        Ok(())
    }

    /// Compares what a run came to.
    fn expect_told(&self, text: &str) -> Result<(), Fail> {
        let (status, printed) = split(text);
        let printed = lines_of(self.alloc, printed)?;
        let told = self.told.as_ref().ok_or("no run")?;
        expect_text(told.printed(), printed.as_bytes(), self.row)?;
        expect(u64::from(told.status) == number(status)?, self.row)
    }

    /// Compares the lengths of files.
    fn expect_lengths(&self, text: &str) -> Result<(), Fail> {
        let mut words = text.split(' ');
        while let Some(short) = words.next() {
            let name = name_of(self.alloc, short)?;
            let wanted = match words.next() {
                Some("-") | None => None,
                Some(length) => Some(number(length)? as usize),
            };
            let found = self.disk.bytes(name).map(|bytes| bytes.len());
            expect(found == wanted, self.row)?;
        }
        Ok(())
    }

    /// Crashes the folder.
    fn crash(&mut self, text: &str) -> Result<(), Fail> {
        let pick = pick_of(text)?;
        let disk = std::mem::replace(&mut self.disk, D::empty(self.alloc));
        self.disk = disk.crash(pick);
        Ok(())
    }

    /// Does what a line of a row says.
    fn take(&mut self, line: &str) -> Result<(), Fail> {
        let (verb, rest) = split(line);
        match verb {
            "fails" => self.plan(rest)?,
            "source" => self.edges.source = number(rest)?,
            "sink" => self.edges.sink = number(rest)?,
            "most" => self.edges.most = number(rest)? as usize,
            "room" => self.edges.room = number(rest)? as usize,
            "play" => self.run("DIR play", rest)?,
            "dump" => self.run("DIR dump", "")?,
            "prints" => self.expect_told(rest)?,
            "faults" => expect(self.disk.faults() == number(rest)?, self.row)?,
            "holds" => self.expect_lengths(rest)?,
            "crash" => self.crash(rest)?,
            _ => return Err("no such line".into()),
        }
        Ok(())
    }
}

/// Plays rows, each with a name behind `= `. A line of a row is one of these:
///
/// - `fails P C alone` or `fails P C on`: call `C` of port `P` fails, or all from there on; all files are durable,
/// - `source C`, `sink C`: this read or write fails; `most N`: so many bytes are taken in a write; `room N`: and in all,
/// - `play SCRIPT`, `dump`: the program runs, with one byte a read,
/// - `prints STATUS TEXT`: what came of it,
/// - `faults N`: how many calls of the folder failed,
/// - `holds NAME LENGTH ..`: how long files are, or `-` where there is none,
/// - `crash PICK`.
pub fn play_rows<D: Disk>(alloc: Global, rows: &'static str) -> Result<(), Fail> {
    let mut bench = Bench::<D>::at(alloc, "");
    for line in rows.lines() {
        match line.strip_prefix("= ") {
            Some(row) => bench = Bench::at(alloc, row),
            None => bench.take(line)?,
        }
    }
    Ok(())
}
