//! A folder in memory between the runs of the program.

ghost use Rattle.std.specs.Prelude.{All};
ghost use Rattle.hr_base.specs.Names.{IsChunkName};
ghost use Rattle.dir_files.specs.PortStates.{IsCalm};

use dir_files::Folder;
use hr_base::{ChunkName, Memory, Pick};
use hr_edges::{MemSink, MemSource};
use mem_folder::{FaultPlan, MemFolder};
use std::alloc::Global;
use std::test::Fail;
use store_serve::serve;
use test_rows::disks::{Disk, Edges, File, Shelf, Stop, Told, copies};
use test_rows::expecting::expect;

/// How many bytes may be printed.
const ROOM: usize = 262_144;

/// A folder in memory of which no handle is out.
#[derive(Drop)]
pub struct MemDisk {
    folder: MemFolder,
    ghost calm: { IsCalm (⟦<MemFolder as Folder>⟧.port folder) },
}

/// The words of a text, parted by single spaces.
fn words(alloc: Global, text: &str) -> Result<Vec<String>, Fail> {
    let mut words = Vec::new(alloc);
    for word in text.split(' ') {
        words.push(String::from_str(alloc, word)?)?;
    }
    Ok(words)
}

impl MemDisk {
    fn of(alloc: Global, files: Vec<File>, plans: Vec<FaultPlan>) -> Result<MemDisk, Memory>
        requires { All (λ file. IsChunkName file.0) files.items }
    {
        let folder = MemFolder::of(alloc, files, plans)?;
        Ok(MemDisk { folder })
    }

    /// Runs the program, from this source to this sink. No file is lent afterwards.
    fn serve(
        &mut self,
        alloc: Global,
        text: &str,
        mut input: MemSource,
        mut out: MemSink,
    ) -> Result<Told, Fail> {
        let words = words(alloc, text)?;
        let words = words.as_slice();
        let status = serve(alloc, words, &mut self.folder, &mut input, &mut out);
        expect(!self.folder.lends(), "a file is lent")?;
        let printed = out.taken().to_vec(alloc)?;
        Ok(Told { status, printed })
    }
}

impl Shelf for MemDisk {
    fn names(&mut self) -> Result<Vec<ChunkName>, Fail> {
        let mut names = self.folder.names()?;
        names.sort_unstable();
        Ok(names)
    }

    fn bytes(&self, name: ChunkName) -> Option<&[u8]> {
        self.folder.bytes(name)
    }
}

impl Disk for MemDisk {
    fn empty(alloc: Global) -> MemDisk {
        MemDisk {
            folder: MemFolder::empty(alloc, Vec::new(alloc)),
        }
    }

    fn failing(alloc: Global, stop: Stop) -> Result<MemDisk, Fail> {
        let plans = stop.plans(alloc)?;
        Ok(MemDisk {
            folder: MemFolder::empty(alloc, plans),
        })
    }

    fn copied(&mut self, alloc: Global, stop: Stop) -> Result<MemDisk, Fail> {
        let plans = stop.plans(alloc)?;
        let files = copies(alloc, self)?;
        Ok(MemDisk::of(alloc, files, plans)?)
    }

    fn crash(self, pick: Pick) -> MemDisk {
        let MemDisk { folder } = self;
        MemDisk {
            folder: folder.crash(pick),
        }
    }

    fn faults(&self) -> u64 {
        self.folder.faults()
    }

    fn run(&mut self, alloc: Global, text: &str, script: &[u8]) -> Result<Told, Fail> {
        let input = MemSource::new(script.to_vec(alloc)?, Vec::new(alloc));
        let out = MemSink::new(alloc, ROOM, Vec::new(alloc))?;
        self.serve(alloc, text, input, out)
    }

    fn run_between(
        &mut self,
        alloc: Global,
        text: &str,
        script: Vec<u8>,
        edges: Edges,
    ) -> Result<Told, Fail> {
        let input = MemSource::in_steps(script, vec![in alloc; edges.source]?, 1);
        let out = MemSink::in_steps(alloc, edges.room, vec![in alloc; edges.sink]?, edges.most)?;
        self.serve(alloc, text, input, out)
    }
}
