//! Rows of calls of a folder that lies on a disk: what they ask of the system, and what they make of real files.

use crate::calls::{Bench, Place};
use crate::expecting::{expect, expect_text};
use crate::words::{name_of, number, split};
use dir_files::Folder;
use std::alloc::Global;
use std::test::Fail;

/// Folders whose ports keep the first error of the system.
pub trait OnDisk {
    type Calls: Place;

    /// Another root over the same folder.
    fn root(&self, alloc: Global) -> Result<<Self::Calls as Place>::Port, Fail>;

    /// What a port tells of its faults: how often the disk failed, and how it did first.
    fn faults(&self, alloc: Global, port: &<Self::Calls as Place>::Port) -> Result<String, Fail>;
}

/// A system that writes down what it is asked, and refuses one kind of call.
pub trait Watched: OnDisk {
    /// From now on the calls of this kind are refused, and no others.
    fn refuse(&self, call: &str) -> Result<(), Fail>;

    /// Writes down something beside the calls.
    fn note(&self, text: &str);

    /// What was written down since this was last asked.
    fn told(&self) -> String;
}

/// Makes the call of a word, and writes down what it told.
fn step<S: Watched>(
    alloc: Global,
    system: &S,
    bench: &mut Bench<S::Calls>,
    word: &str,
) -> Result<(), Fail> {
    if word == "faults" {
        system.note(system.faults(alloc, bench.port())?.as_str());
        return Ok(());
    }
    if let Some(call) = word.strip_prefix("-") {
        return system.refuse(call);
    }
    let said = bench.say(word)?;
    if !said.is_empty() {
        system.note(said);
    }
    Ok(())
}

/// Makes the calls of a row, and compares what was written down then: after each call and `=` the calls of the system that
/// it made, and what else it told. `faults` tells how often the disk failed and how it did first; from `-CALL` on the
/// system refuses this call of its own, and no other.
pub fn expect_calls<S: Watched>(
    alloc: Global,
    system: &S,
    name: &str,
    calls: &str,
    wanted: &str,
) -> Result<(), Fail> {
    let mut bench = Bench::over(alloc, system.root(alloc)?);
    for word in calls.split(' ') {
        system.note(word);
        system.note("=");
        step(alloc, system, &mut bench, word)?;
    }
    expect_text(system.told().as_bytes(), wanted.as_bytes(), name)
}

/// A folder whose files are seen beside its ports.
pub trait Kept: OnDisk {
    /// The path of the folder.
    fn path(&self) -> &str;

    /// How many descriptors this process holds.
    fn count_open(&self) -> Result<usize, Fail>;

    /// How many entries the folder has.
    fn count_entries(&self) -> Result<usize, Fail>;

    /// What a file holds.
    fn bytes(&self, file: &str) -> Result<Vec<u8>, Fail>;
}

/// Does what a line says of a port.
fn play_port<K: Kept>(
    alloc: Global,
    site: &K,
    bench: &mut Bench<K::Calls>,
    line: &str,
) -> Result<(), Fail> {
    let (verb, rest) = split(line);
    match verb {
        "does" => {
            let (words, wanted) = rest.split_once(": ").ok_or("no answers")?;
            bench.expect(words, wanted)
        }
        "read" => expect_text(bench.read(), rest.as_bytes(), line),
        "faults" => {
            let told = site.faults(alloc, bench.port())?;
            let wanted = rest.replace(alloc, "DIR", site.path())?;
            expect_text(told.as_bytes(), wanted.as_bytes(), line)
        }
        _ => Err("no such line".into()),
    }
}

/// Three ports, by their numbers, and how many descriptors were held.
#[derive(Drop)]
struct Scene<P: Place> {
    benches: Vec<Option<Bench<P>>>,
    opened: usize,
    alloc: Global,
}

impl<P: Place> Scene<P> {
    fn new(alloc: Global) -> Result<Scene<P>, Fail> {
        let mut benches = Vec::new(alloc);
        for _ in 0..4 {
            benches.push(None)?;
        }
        Ok(Scene {
            benches,
            opened: 0,
            alloc,
        })
    }

    /// A port of a number.
    fn bench(&mut self, text: &str) -> Result<&mut Option<Bench<P>>, Fail> {
        let place = number(text)? as usize;
        Ok(self.benches.get_mut(place).ok_or("no such port")?)
    }

    /// Another port is a fork of one.
    fn fork(&mut self, text: &str) -> Result<(), Fail> {
        let (from, to) = split(text);
        let fork = match self.bench(from)? {
            Some(bench) => bench.fork_port()?,
            None => return Err("no port".into()),
        };
        let bench = Bench::over(self.alloc, fork);
        *self.bench(to)? = Some(bench);
        Ok(())
    }

    /// Does what a line says of a port, or of none.
    fn play<K: Kept<Calls = P>>(&mut self, site: &K, line: &str) -> Result<(), Fail> {
        let alloc = self.alloc;
        let (port, call) = split(line);
        match (self.bench(port)?, call) {
            (slot, "new") => *slot = Some(Bench::over(alloc, site.root(alloc)?)),
            (slot, "drop") => *slot = None,
            (None, _) => return Err("no port".into()),
            (Some(bench), _) => return play_port(alloc, site, bench, call),
        }
        Ok(())
    }

    /// Does what a line says.
    fn take<K: Kept<Calls = P>>(&mut self, site: &K, line: &str) -> Result<(), Fail> {
        let (verb, rest) = split(line);
        match verb {
            "fork" => self.fork(rest)?,
            "opened" => self.opened = site.count_open()?,
            "open" => {
                let wanted = self.opened.saturating_add(number(rest)? as usize);
                expect(site.count_open()? == wanted, line)?;
            }
            "entries" => expect(site.count_entries()? == number(rest)? as usize, line)?,
            "file" => {
                let (file, text) = split(rest);
                expect_text(site.bytes(file)?.as_slice(), text.as_bytes(), line)?;
            }
            _ => self.play(site, line)?,
        }
        Ok(())
    }
}

/// Plays a scene, in which a line is one of these:
///
/// - `N new`: the port `N` is another root; `N drop`: it is let go; `fork M N`: it is a fork of `M`,
/// - `N does WORDS: ANSWERS`: calls of one word each, and what they tell,
/// - `N read TEXT`: all that was read, `N faults TEXT`: what the port tells of its faults, where `DIR` is the folder,
/// - `opened`, and then `open N`: so many more descriptors are held,
/// - `entries N`: the folder has so many; `file NAME TEXT`: what a file holds.
pub fn play_scene<K: Kept>(alloc: Global, site: &K, rows: &str) -> Result<(), Fail> {
    let mut scene = Scene::<K::Calls>::new(alloc)?;
    for line in rows.lines() {
        scene.take(site, line)?;
    }
    Ok(())
}

/// Appends a record, and syncs it.
fn append_and_sync<F: Folder>(port: &mut F, file: &mut F::File) -> Result<(), Fail> {
    port.append(file, b"bytes")?;
    port.sync_file(file)?;
    Ok(())
}

/// Files with a record each, synced at two ports in turn.
fn write_files<P: Place>(
    alloc: Global,
    root: &mut P::Port,
    other: &mut P::Port,
    count: usize,
) -> Result<Vec<<P::Port as Folder>::File>, Fail> {
    let name = name_of(alloc, "p03-v-7")?;
    let mut files = Vec::new(alloc);
    for i in 0..count {
        let port = if i % 2 == 0 { &mut *root } else { &mut *other };
        if !P::may_create(port, name) {
            return Err("not to be created".into());
        }
        let mut file = port.create(name)?;
        append_and_sync(port, &mut file)?;
        files.push(file)?;
    }
    Ok(files)
}

/// Fails unless so many descriptors were closed since this was last asked.
fn expect_closed<S: Watched>(system: &S, wanted: usize, name: &str) -> Result<(), Fail> {
    let told = system.told();
    let closed = told.split(' ').filter(|word| *word == "close").count();
    expect(closed == wanted, name)
}

/// 70 files at two ports keep 64 descriptors.
pub fn expect_few_kept<S: Watched>(alloc: Global, system: &S) -> Result<(), Fail> {
    let mut root = system.root(alloc)?;
    let mut other = root.fork()?;
    let mut files = write_files::<S::Calls>(alloc, &mut root, &mut other, 70)?;
    expect_closed(system, 6, "70 files")?;
    let mut last = files.pop().ok_or("none")?;
    append_and_sync(&mut other, &mut last)?;
    expect_closed(system, 1, "past the limit")?;
    files.truncate(63);
    expect_closed(system, 1, "one is let go")?;
    append_and_sync(&mut root, &mut last)?;
    append_and_sync(&mut other, &mut last)?;
    expect_closed(system, 0, "within the limit again")?;
    other.give(last);
    drop(files);
    expect_closed(system, 64, "all")
}
