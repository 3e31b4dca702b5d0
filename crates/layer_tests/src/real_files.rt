//! A folder on a disk: which calls of the system its calls make, and what they make of real files.

ghost use Rattle.std.specs.Prelude.{◌≡◌, true};

use crate::watched::System;
use dir_files::Folder;
use hr_base::{ChunkName, ChunkNo, Kind, Partition};
use real_folder::{LockFile, RealFile, RealFolder};
use std::alloc::{AllocError, Global};
use std::os::unix::fs::FileExt;
use std::rt::Files;
use std::test::Fail;
use std::{env, fs, io, process};
use test_rows::calls::Place;
use test_rows::system_rows::{Kept, OnDisk, expect_calls, expect_few_kept, play_scene};

const NAME: ChunkName = ChunkName {
    partition: Partition(3),
    kind: Kind::V,
    number: ChunkNo(7),
};

/// The ports of a folder on a disk, which tells nothing, so that each call may be made.
pub(crate) struct Ports<R> {
    _rt: R,
}

impl<R: Files + Alloc + Clone + Drop> Place for Ports<R>
where
    R::File: FileExt + LockFile,
{
    type Port = RealFolder<R>;

    fn may_take(_port: &RealFolder<R>, _name: ChunkName) -> bool {
        true
    }

    fn may_create(_port: &RealFolder<R>, _name: ChunkName) -> bool {
        true
    }

    fn may_adopt(_port: &RealFolder<R>, _fork: &RealFolder<R>) -> bool {
        true
    }
}

/// What a port tells of its faults: how often the disk failed, and how it did first.
pub(crate) fn faults_of<R: Files + Alloc + Clone + Drop>(
    alloc: Global,
    disk: &RealFolder<R>,
) -> Result<String, AllocError>
where
    R::File: FileExt + LockFile,
{
    match disk.first_error() {
        Some(error) => format!(in alloc; "{} {error}", disk.faults()),
        None => format!(in alloc; "{}", disk.faults()),
    }
}

// ---- the calls of the system

/// The calls of a row, and what is written down then: after each call and `=` the calls of the system that it made, and
/// what else it told. `faults` tells how often the disk failed and how it did first; from `-CALL` on the system refuses this
/// call of its own, and no other.
#[derive(Clone, Copy)]
struct Row {
    name: &'static str,
    calls: &'static str,
    wanted: &'static str,
}

const ROWS: [Row; 16] = [
    Row {
        name: "a root and a handle ask for nothing",
        calls: "take give",
        wanted: " take = give =",
    },
    Row {
        name: "a file that takes records stays open over its syncs",
        calls: "take append sync append sync give",
        wanted: " take = append = open lock open+ write sync = fdatasync append = write sync = fdatasync give = close",
    },
    Row {
        name: "a new file, and its name",
        calls: "create append sync names give",
        wanted: " create = open lock new append = write sync = fdatasync names = fsync give = close",
    },
    Row {
        name: "a file that is read stays open up to its sync",
        calls: "names list take read sync give",
        wanted: " names = open lock fsync list = readdir NONE take = read = open read sync = fdatasync close give =",
    },
    Row {
        name: "a file that is closed is synced",
        calls: "take sync sync",
        wanted: " take = sync = open lock open fdatasync close sync = open fdatasync close",
    },
    Row {
        name: "a refused sync of a file is a fault, and is not tried again",
        calls: "create append -fdatasync sync -none sync names append sync",
        wanted: " create = open lock new append = write -fdatasync = sync = fdatasync close FAULT -none = sync = FAULT names = fsync append = open+ write sync = close FAULT",
    },
    Row {
        name: "a refused sync of names is a fault, and is not tried again at any port",
        calls: "create -fsync names -none names fork names adopt names",
        wanted: " create = open lock new -fsync = names = fsync FAULT -none = names = FAULT fork = names = FAULT adopt = names = FAULT",
    },
    Row {
        name: "the same, at a fork first",
        calls: "names fork -fsync names -none names adopt names",
        wanted: " names = open lock fsync fork = -fsync = names = fsync FAULT -none = names = FAULT adopt = names = FAULT",
    },
    Row {
        name: "no call is made of a folder that is not locked, and a root tries again",
        calls: "-lock list create names take append -none append names",
        wanted: " -lock = list = open lock close FAULT create = open lock close FAULT names = open lock close FAULT take = append = open lock close FAULT -none = append = open lock open+ write names = fsync",
    },
    Row {
        name: "a fork that is made before the first call shares the lock",
        calls: "fork create append sync names adopt names",
        wanted: " fork = open lock create = new append = write sync = fdatasync names = fsync adopt = names = fsync",
    },
    Row {
        name: "a fork of a folder that was not locked takes no lock",
        calls: "-lock fork -none names list adopt names",
        wanted: " -lock = fork = open lock close -none = names = FAULT list = FAULT adopt = names = open lock fsync",
    },
    Row {
        name: "a folder that can't be opened",
        calls: "-open names list -none names",
        wanted: " -open = names = open FAULT list = open FAULT -none = names = open lock fsync",
    },
    Row {
        name: "refused writes and removals are faults",
        calls: "create -write append -unlink remove",
        wanted: " create = open lock new -write = append = write FAULT -unlink = remove = unlink close FAULT",
    },
    Row {
        name: "a name is fixed by a later sync of names at the same port",
        calls: "names create mark names mark fork mark names mark fork mark names mark",
        wanted: " names = open lock fsync create = new mark = LOOSE names = fsync mark = FIXED fork = mark = LOOSE names = fsync mark = FIXED fork = mark = LOOSE names = fsync mark = LOOSE",
    },
    Row {
        name: "the first error is kept",
        calls: "faults -new create faults -fsync names faults -none names faults",
        wanted: " faults = 0 -new = create = open lock new FAULT faults = 1 create p03-v-0000000000000007.chunk: Input/output error (os error 5) -fsync = names = fsync FAULT faults = 2 create p03-v-0000000000000007.chunk: Input/output error (os error 5) -none = names = FAULT faults = 3 create p03-v-0000000000000007.chunk: Input/output error (os error 5)",
    },
    Row {
        name: "the first error of a fork is kept where there is none",
        calls: "fork faults -fsync names faults adopt faults names faults fork faults",
        wanted: " fork = open lock faults = 0 -fsync = names = fsync FAULT faults = 1 sync maps: Input/output error (os error 5) adopt = faults = 1 sync maps: Input/output error (os error 5) names = FAULT faults = 2 sync maps: Input/output error (os error 5) fork = faults = 0",
    },
];

#[test]
fn each_call_makes_its_calls_of_the_system(rt: HostRuntime) -> Result<(), Fail> {
    for row in ROWS {
        let system = System::new(rt.alloc())?;
        expect_calls(rt.alloc(), &system, row.name, row.calls, row.wanted)?;
    }
    Ok(())
}

/// Two ports and 70 files that take records.
#[test]
fn handles_keep_64_descriptors_at_all_ports_together(rt: HostRuntime) -> Result<(), Fail> {
    let system = System::new(rt.alloc())?;
    expect_few_kept(rt.alloc(), &system)
}

// ---- real files

/// The path of an empty folder that no other test has.
fn scratch(rt: &HostRuntime, test: &str) -> io::Result<String> {
    let process = process::id(rt.process());
    let name = format!(in rt.alloc(); "layer_tests-{process}-{test}")?;
    let path = env::temp_dir(rt)?.join(rt.alloc(), name.as_str())?;
    fs::create_dir(rt, &path)?;
    Ok(path.into_string())
}

fn path_in(rt: &HostRuntime, folder: &String, file: &str) -> io::Result<String> {
    Ok(format!(in rt.alloc(); "{folder}/{file}")?)
}

fn goes_to_a_thread<T: Send>(_it: &T) {}

/// A handle may go to another thread, where a file may.
fn handle_goes<F: Send>(file: &RealFile<F>) {
    goes_to_a_thread(file);
}

/// So may a port, where the runtime may, and files may be shared.
fn port_goes<R: Files + Send>(port: &RealFolder<R>)
where
    R::File: Send + Sync,
{
    goes_to_a_thread(port);
}

/// Other files, which are no chunks.
fn write_others(rt: &HostRuntime, path: &String) -> io::Result<()> {
    for other in [
        "notes",
        "p03-v-0000000000000007.chunl",
        "p64-v-0000000000000007.chunk",
    ] {
        fs::write(rt, path_in(rt, path, other)?, "other")?;
    }
    Ok(())
}

/// A folder on the disk of this machine.
#[derive(Drop)]
struct Site {
    rt: HostRuntime,
    path: String,
}

impl OnDisk for Site {
    type Calls = Ports<HostRuntime>;

    fn root(&self, _alloc: Global) -> Result<RealFolder<HostRuntime>, Fail> {
        Ok(RealFolder::at(self.rt.clone()?, self.path.clone()?))
    }

    fn faults(&self, alloc: Global, port: &RealFolder<HostRuntime>) -> Result<String, Fail> {
        Ok(faults_of(alloc, port)?)
    }
}

impl Kept for Site {
    fn path(&self) -> &str {
        self.path.as_str()
    }

    fn count_open(&self) -> Result<usize, Fail> {
        Ok(fs::read_dir(&self.rt, "/proc/self/fd")?.count())
    }

    fn count_entries(&self) -> Result<usize, Fail> {
        Ok(fs::read_dir(&self.rt, self.path.as_str())?.count())
    }

    fn bytes(&self, file: &str) -> Result<Vec<u8>, Fail> {
        Ok(fs::read(&self.rt, path_in(&self.rt, &self.path, file)?)?)
    }
}

/// A file is written, found, read and removed.
const FILE: &str = "\
1 new
1 does create append end sync append names give list: ;;;;;;;ONE;
opened
1 does take read read read read sync end read: ;;;;;;;;
1 read bytes!bytes!
1 does back read: ;;
1 read byte
open 1
file p03-v-0000000000000007.chunk bytes!bytes!
1 does remove list: ;NONE;
open 0
1 does create give create list: ;;FAULT;ONE;
1 faults 1 create p03-v-0000000000000007.chunk: File exists (os error 17)
entries 4
";

/// A second root over a folder, as another program has it: what its calls tell at each step. A fork that was made without
/// the lock goes on without it. There is no file for the lock.
const LOCK: &str = "\
1 new
2 new
2 does create append sync names give list: ;;;;;ONE;
1 does list create names: FAULT;FAULT;FAULT;
1 faults 3 lock DIR: another program works on the folder
fork 2 3
2 drop
1 does list: FAULT;
3 does list: ONE;
1 does fork: ;
3 drop
1 does list adopt list: FAULT;;ONE;
3 new
3 does names: FAULT;
3 drop
entries 1
";

/// A port and a handle at the system of this machine go to a thread.
fn go(site: &Site) -> Result<(), Fail> {
    let mut port = site.root(site.rt.alloc())?;
    port_goes(&port);
    let file = port.take(NAME)?;
    handle_goes(&file);
    port.give(file);
    Ok(())
}

#[test]
fn a_file_is_written_found_read_and_removed(rt: HostRuntime) -> Result<(), Fail> {
    let path = scratch(&rt, "goes")?;
    write_others(&rt, &path)?;
    let site = Site { rt, path };
    go(&site)?;
    play_scene(site.rt.alloc(), &site, FILE)?;
    fs::remove_dir_all(&site.rt, site.path.as_str())?;
    Ok(())
}

#[test]
fn one_root_at_a_time_works_on_a_folder(rt: HostRuntime) -> Result<(), Fail> {
    let path = scratch(&rt, "lock")?;
    let site = Site { rt, path };
    play_scene(site.rt.alloc(), &site, LOCK)?;
    fs::remove_dir_all(&site.rt, site.path.as_str())?;
    Ok(())
}
