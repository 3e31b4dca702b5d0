//! Rows of calls of a folder that tells what it holds, whose calls fail as planned, and which can crash.

ghost use Rattle.std.specs.Prelude.{IfSome};
ghost use Rattle.hr_base.specs.Names.{IsChunkName};

use crate::calls::{Bench, Place};
use crate::disks::{File, Stop};
use crate::expecting::{expect, expect_text};
use crate::words::{name_of, number, pick_of, split};
use dir_files::Folder;
use hr_base::{ChunkName, Pick};
use std::alloc::Global;
use std::test::Fail;

/// A folder that tells what it holds, and can crash.
pub trait Telling: Place {
    /// With a call that fails, and a durable file or none.
    fn open(alloc: Global, stop: Stop, file: Option<File>) -> Result<Self::Port, Fail>
        requires { IfSome file (λ file. IsChunkName file.0) };

    /// After a crash. No file may be lent.
    fn crash(port: Self::Port, pick: Pick) -> Result<Self::Port, Fail>;

    /// What a file holds.
    fn bytes(port: &Self::Port, name: ChunkName) -> Option<&[u8]>;
}

/// A folder, and its row.
#[derive(Drop)]
struct Row<P: Place> {
    name: &'static str,
    bench: Option<Bench<P>>,
    alloc: Global,
}

impl<P: Telling> Row<P> {
    /// At the head of a row.
    fn at(alloc: Global, name: &'static str) -> Row<P> {
        Row {
            name,
            bench: None,
            alloc,
        }
    }

    /// Makes the folder anew.
    fn open(&mut self, text: &str) -> Result<(), Fail> {
        let mut words = text.split(' ');
        let stop = Stop {
            port: 0,
            call: number(words.next().unwrap_or(""))?,
            goes_on: words.next() == Some("on"),
        };
        let file = match words.next() {
            None => None,
            Some(short) => {
                let name = name_of(self.alloc, short)?;
                Some((
                    name,
                    words.next().unwrap_or("").as_bytes().to_vec(self.alloc)?,
                ))
            }
        };
        self.bench = Some(Bench::over(self.alloc, P::open(self.alloc, stop, file)?));
        Ok(())
    }

    /// Crashes the folder.
    fn crash(&mut self, text: &str) -> Result<(), Fail> {
        let port = self.bench.take().ok_or("no folder")?.into_port();
        let left = P::crash(port, pick_of(text)?)?;
        self.bench = Some(Bench::over(self.alloc, left));
        Ok(())
    }

    /// Compares what a file holds, or whether there is none.
    fn expect_held(&self, short: &str, wanted: Option<&[u8]>) -> Result<(), Fail> {
        let bench = self.bench.as_ref().ok_or("no folder")?;
        let found = P::bytes(bench.port(), name_of(self.alloc, short)?);
        if let (Some(found), Some(wanted)) = (found, wanted) {
            return expect_text(found, wanted, self.name);
        }
        expect(found.is_none() && wanted.is_none(), self.name)
    }

    /// Makes a call, which the disk refuses or not.
    fn call(&mut self, verb: &str, rest: &str, refused: bool) -> Result<(), Fail> {
        let bench = self.bench.as_mut().ok_or("no folder")?;
        let told = bench.call(verb, rest)?;
        expect((told == "FAULT" || told == "LOOSE") == refused, self.name)
    }

    /// Compares what is seen at the port.
    fn expect_seen(&mut self, verb: &str, rest: &str) -> Result<(), Fail> {
        let bench = self.bench.as_mut().ok_or("no folder")?;
        match verb {
            "list" => bench.expect_list(rest, self.name),
            "got" => expect_text(bench.room(), rest.as_bytes(), self.name),
            _ => expect(bench.port().faults() == number(rest)?, self.name),
        }
    }

    /// Does what a line of a row says.
    fn take(&mut self, line: &str) -> Result<(), Fail> {
        let (verb, rest) = split(line);
        match verb {
            "open" => self.open(rest),
            "crash" => self.crash(rest),
            "list" | "got" | "faults" => self.expect_seen(verb, rest),
            "gone" => self.expect_held(rest, None),
            "holds" => {
                let (short, text) = split(rest);
                self.expect_held(short, Some(text.as_bytes()))
            }
            _ => match verb.strip_prefix("!") {
                Some(verb) => self.call(verb, rest, true),
                None => self.call(verb, rest, false),
            },
        }
    }
}

/// Plays what is in front, and then rows, each with a name behind `= `. A line of a row is a call of a bench, or one of these:
///
/// - `open C alone` or `open C on`: a folder without files, whose call `C` fails, or all from there on,
/// - `open C alone NAME TEXT`: with a durable file,
/// - `got TEXT`: what the last read gave,
/// - `list NAME ..`: all names,
/// - `crash PICK`,
/// - `holds NAME TEXT`, or `gone NAME`,
/// - `faults N`.
///
/// Where a line begins with `!`, the disk refuses its call, or a name is not durable.
pub fn play_calls<P: Telling>(
    alloc: Global,
    front: &'static str,
    rows: &'static str,
) -> Result<(), Fail> {
    let mut row = Row::<P>::at(alloc, rows);
    for line in front.lines().chain(rows.lines()) {
        match line.strip_prefix("= ") {
            Some(name) => row = Row::at(alloc, name),
            None => row.take(line)?,
        }
    }
    Ok(())
}
