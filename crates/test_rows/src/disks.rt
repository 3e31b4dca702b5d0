//! Disks that the program runs over, as sessions see them.

ghost use Rattle.std.specs.Prelude.{All, IfOk, OnOk};
ghost use Rattle.hr_base.specs.Names.{IsChunkName};

use crate::expecting::{expect, expect_text};
use hr_base::{CHUNK_NO_END, ChunkName, MAX_PARTITIONS, Pick};
use mem_folder::FaultPlan;
use std::alloc::Global;
use std::test::Fail;

/// No call fails from this one on.
pub const NEVER: u64 = u64::MAX;

/// Which call of which port fails, and whether all after it fail too. The root is port 0, and each session forks one port
/// for each partition, in their order.
#[derive(Clone, Copy)]
pub struct Stop {
    pub port: u64,
    pub call: u64,
    pub goes_on: bool,
}

impl Stop {
    /// The plans of all ports.
    pub fn plans(self, alloc: Global) -> Result<Vec<FaultPlan>, Fail> {
        let mut plans = Vec::new(alloc);
        for _ in 0..self.port {
            plans.push(FaultPlan {
                calls: Vec::new(alloc),
                from: NEVER,
            })?;
        }
        let mut calls = Vec::new(alloc);
        if !self.goes_on {
            calls.push(self.call)?;
        }
        let from = if self.goes_on { self.call } else { NEVER };
        plans.push(FaultPlan { calls, from })?;
        Ok(plans)
    }
}

/// How the source and the sink of a run work: one byte is read at a time; which call of each fails, how many bytes are
/// taken in a write, and in all.
#[derive(Clone, Copy)]
pub struct Edges {
    pub source: u64,
    pub sink: u64,
    pub most: usize,
    pub room: usize,
}

/// A file with its bytes.
pub type File = (ChunkName, Vec<u8>);

/// Files that are read by their names.
pub trait Shelf {
    /// The names of all files, in their order. The root is asked once.
    fn names(&mut self) -> Result<Vec<ChunkName>, Fail>;

    /// What a file holds.
    fn bytes(&self, name: ChunkName) -> Option<&[u8]>;
}

/// A folder of which no handle is out, between the runs of the program. Its calls have no clauses, so that what plays rows
/// over it is proved without a folder.
pub trait Disk: Shelf + Sized + Drop {
    /// Without files.
    fn empty(alloc: Global) -> Self;

    /// Without files, and with a call that fails.
    fn failing(alloc: Global, stop: Stop) -> Result<Self, Fail>;

    /// The same files, all of them durable, and with a call that fails. The root is asked once.
    fn copied(&mut self, alloc: Global, stop: Stop) -> Result<Self, Fail>;

    /// After a crash. No call fails from then on.
    fn crash(self, pick: Pick) -> Self;

    /// How many calls failed.
    fn faults(&self) -> u64;

    /// Runs the program over a script. No file is lent afterwards.
    fn run(&mut self, alloc: Global, text: &str, script: &[u8]) -> Result<Told, Fail>;

    /// The same from such a source to such a sink.
    fn run_between(
        &mut self,
        alloc: Global,
        text: &str,
        script: Vec<u8>,
        edges: Edges,
    ) -> Result<Told, Fail>;
}

/// Fails unless each of these files is there.
pub fn expect_bytes<S: Shelf>(shelf: &S, files: &[File], name: &str) -> Result<(), Fail> {
    for (file, bytes) in files {
        expect(shelf.bytes(*file) == Some(bytes.as_slice()), name)?;
    }
    Ok(())
}

/// Fails unless each of these files, and no other, is there. The root is asked once.
pub fn expect_files<S: Shelf>(shelf: &mut S, files: &[File], name: &str) -> Result<(), Fail> {
    expect(shelf.names()?.len() == files.len(), name)?;
    expect_bytes(shelf, files, name)
}

fn push_copy<S: Shelf>(
    alloc: Global,
    shelf: &S,
    name: ChunkName,
    files: &mut Vec<File>,
) -> Result<(), Fail>
    requires { All (λ file. IsChunkName file.0) files.old.items }
    ensures { OnOk result (All (λ file. IsChunkName file.0) files.new.items) }
{
    let known = name.partition.0 < MAX_PARTITIONS
        && 0 < name.number.0
        && name.number.0 < CHUNK_NO_END;
    if !known {
        return Err("no chunk name".into());
    }
    let bytes = shelf.bytes(name).ok_or("no such file")?;
    files.push((name, bytes.to_vec(alloc)?))?;
    Ok(())
}

/// All files, in the order of their names. The root is asked once.
pub fn copies<S: Shelf>(alloc: Global, shelf: &mut S) -> Result<Vec<File>, Fail>
    ensures { IfOk result (λ files. All (λ file. IsChunkName file.0) files.items) }
{
    let mut files = Vec::new(alloc);
    for name in shelf.names()? {
        push_copy(alloc, shelf, name, &mut files)?;
    }
    Ok(files)
}

/// What a run told: its status, and what it printed.
#[derive(Drop)]
pub struct Told {
    pub status: u8,
    pub printed: Vec<u8>,
}

impl Told {
    /// What was printed.
    pub fn printed(&self) -> &[u8] {
        self.printed.as_slice()
    }

    /// How many lines were answered: each has one line of what was printed. A last line tells that the disk failed.
    pub fn answered(&self) -> usize {
        let last = usize::from(self.status == 5);
        let lines = self.printed().iter().filter(|b| **b == b'\n').count();
        lines.saturating_sub(last)
    }

    /// Compares both.
    pub fn expect(&self, name: &str, status: u8, printed: &[u8]) -> Result<(), Fail> {
        expect_text(self.printed(), printed, name)?;
        expect(self.status == status, name)
    }

    /// Compares what was printed with replies, behind which a last line tells where the disk failed.
    pub fn expect_replies(&self, alloc: Global, name: &str, replies: &[u8]) -> Result<(), Fail> {
        let mut printed = replies.to_vec(alloc)?;
        let stopped = self.status != 0;
        if stopped {
            printed.extend_from_slice(b"refused disk\n")?;
        }
        self.expect(name, if stopped { 5 } else { 0 }, printed.as_slice())
    }
}
