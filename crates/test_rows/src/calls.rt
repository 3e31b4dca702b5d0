//! Calls of a folder as text, made at ports of any kind, so that what makes them is proved once.

ghost use Rattle.std.specs.Prelude.{◌≡◌, true, false, IsSome};
ghost use Rattle.hr_base.specs.Names.{IsChunkName};
ghost use Rattle.dir_files.specs.Ports.{CanJoin, IsFreeName};

use crate::expecting::{expect, expect_text};
use crate::words::{name_of, number, split};
use dir_files::{Folder, FolderRefusal, RemoveRefusal};
use hr_base::ChunkName;
use std::alloc::Global;
use std::mem;
use std::test::Fail;

/// The ports of a folder. They are asked before a call that not every port may make.
pub trait Place {
    type Port: Folder + Drop;

    /// Whether a file may be taken.
    fn may_take(port: &Self::Port, name: ChunkName) -> bool
        ensures { Self.Port.tells ≡ true → result ≡ true → IsSome ((Self.Port.port port.now).held name) };

    /// Whether a file may be created.
    fn may_create(port: &Self::Port, name: ChunkName) -> bool
        ensures { Self.Port.tells ≡ true → result ≡ true → IsFreeName (Self.Port.port port.now) name };

    /// Whether a fork may be adopted.
    fn may_adopt(port: &Self::Port, fork: &Self::Port) -> bool
        ensures { Self.Port.tells ≡ true → result ≡ true → CanJoin (Self.Port.port port.now) (Self.Port.port fork.now) };
}

/// What an answer is told as. Memory is never wanting.
fn told<T: Drop>(answer: Result<T, FolderRefusal>) -> Result<&'static str, Fail> {
    match answer {
        Ok(_) => Ok(""),
        Err(FolderRefusal::Fault) => Ok("FAULT"),
        Err(FolderRefusal::Memory) => Err("no memory".into()),
    }
}

/// The port that calls are made at, those that it was forked from, and a file in hand.
#[derive(Drop)]
pub struct Bench<P: Place> {
    port: P::Port,
    above: Vec<P::Port>,
    file: Option<<P::Port as Folder>::File>,
    /// The room of the last read.
    room: [u8; 4],
    /// All that was read.
    read: Vec<u8>,
    alloc: Global,
}

impl<P: Place> Bench<P> {
    pub fn over(alloc: Global, port: P::Port) -> Bench<P> {
        Bench {
            port,
            above: Vec::new(alloc),
            file: None,
            room: *b"....",
            read: Vec::new(alloc),
            alloc,
        }
    }

    /// The port that calls are made at.
    pub fn port(&self) -> &P::Port {
        &self.port
    }

    /// The port of a bench that is done with.
    pub fn into_port(self) -> P::Port {
        let Bench { port, .. } = self;
        port
    }

    /// The bytes that were read.
    pub fn read(&self) -> &[u8] {
        self.read.as_slice()
    }

    /// The room of the last read: points, and what it put in front.
    pub fn room(&self) -> &[u8] {
        &self.room
    }

    /// Reads into room for so many bytes.
    fn read_at(&mut self, at: u64, room: usize) -> Result<&'static str, Fail> {
        self.room = *b"....";
        let into = self.room.get_mut(..room).ok_or("no room")?;
        let file = self.file.as_mut().ok_or("no file")?;
        let answer = self.port.read(file, at, into);
        if let Ok(count) = answer {
            let bytes = into.get(..count).ok_or("too many")?;
            self.read.extend_from_slice(bytes)?;
        }
        told(answer)
    }

    /// Reads from a place, or else four bytes behind those that were read.
    fn read_next(&mut self, rest: &str) -> Result<&'static str, Fail> {
        let (at, room) = split(rest);
        if room.is_empty() {
            let behind = self.read.len() as u64;
            self.read_at(behind, 4)
        } else {
            self.read_at(number(at)?, number(room)? as usize)
        }
    }

    /// Takes a file.
    fn lend(&mut self, short: &str) -> Result<&'static str, Fail> {
        let name = name_of(self.alloc, short)?;
        if !P::may_take(&self.port, name) {
            return Err("not to be taken".into());
        }
        match self.port.take(name) {
            Ok(file) => self.file = Some(file),
            Err(refusal) => return told(Err::<(), _>(refusal)),
        }
        Ok("")
    }

    /// Makes a file.
    fn create(&mut self, short: &str) -> Result<&'static str, Fail> {
        let name = name_of(self.alloc, short)?;
        if !P::may_create(&self.port, name) {
            return Err("not to be created".into());
        }
        match self.port.create(name) {
            Ok(file) => self.file = Some(file),
            Err(refusal) => return told(Err::<(), _>(refusal)),
        }
        Ok("")
    }

    /// Gives the file in hand back.
    fn give(&mut self) -> Result<&'static str, Fail> {
        self.port.give(self.file.take().ok_or("no file")?);
        Ok("")
    }

    /// Removes the file in hand.
    fn remove(&mut self) -> Result<&'static str, Fail> {
        match self.port.remove(self.file.take().ok_or("no file")?) {
            Ok(()) => Ok(""),
            Err(RemoveRefusal::Fault) => Ok("FAULT"),
            Err(RemoveRefusal::Memory(_)) => Err("no memory".into()),
        }
    }

    /// From here on calls are made at a fork.
    fn fork(&mut self) -> Result<&'static str, Fail> {
        let fork = self.port.fork()?;
        self.above.push(mem::replace(&mut self.port, fork))?;
        Ok("")
    }

    /// A fork that another bench makes calls at.
    pub fn fork_port(&mut self) -> Result<P::Port, Fail> {
        Ok(self.port.fork()?)
    }

    /// The port that was forked adopts the fork, and calls are made there again.
    fn adopt(&mut self) -> Result<&'static str, Fail> {
        let above = self.above.pop().ok_or("no fork")?;
        let fork = mem::replace(&mut self.port, above);
        if !P::may_adopt(&self.port, &fork) {
            return Err("not to be adopted".into());
        }
        self.port.adopt(fork);
        Ok("")
    }

    /// Makes a call of the file in hand.
    fn call_file(&mut self, verb: &str, rest: &str) -> Result<&'static str, Fail> {
        let file = self.file.as_mut().ok_or("no file")?;
        match verb {
            "append" => told(self.port.append(file, rest.as_bytes())),
            "sync" => told(self.port.sync_file(file)),
            "mark" => Ok(if self.port.mark(file) {
                "FIXED"
            } else {
                "LOOSE"
            }),
            _ => Err("no such call".into()),
        }
    }

    /// Makes a call, and answers what it told:
    ///
    /// - `create NAME`, `take NAME`: its file is in hand then,
    /// - `append TEXT`, `sync`, `mark`, `give`, `remove`: of the file in hand,
    /// - `read AT ROOM`, `read`: the latter behind all that was read; `back`: nothing was read,
    /// - `names`: a sync of names,
    /// - `fork`, `adopt`.
    pub fn call(&mut self, verb: &str, rest: &str) -> Result<&'static str, Fail> {
        match verb {
            "create" => self.create(rest),
            "take" => self.lend(rest),
            "read" => self.read_next(rest),
            "give" => self.give(),
            "remove" => self.remove(),
            "names" => told(self.port.sync_names()),
            "fork" => self.fork(),
            "adopt" => self.adopt(),
            "back" => {
                self.read.clear();
                Ok("")
            }
            _ => self.call_file(verb, rest),
        }
    }

    /// The names of all files, in their order, or what the refusal is told as.
    fn names(&mut self) -> Result<Result<Vec<ChunkName>, &'static str>, Fail> {
        match self.port.names() {
            Ok(mut names) => {
                names.sort_unstable();
                Ok(Ok(names))
            }
            Err(refusal) => Ok(Err(told(Err::<(), _>(refusal))?)),
        }
    }

    /// Compares the names of all files.
    pub fn expect_list(&mut self, text: &str, row: &str) -> Result<(), Fail> {
        let names = self.names()?.map_err(Fail::new)?;
        let mut listed = text.split(' ').filter(|short| !short.is_empty());
        for name in &names {
            let wanted = name_of(self.alloc, listed.next().unwrap_or("-"))?;
            expect(*name == wanted, row)?;
        }
        expect(listed.next().is_none(), row)
    }

    /// Whether no file is listed, this one alone, or others.
    fn list(&mut self, short: &str) -> Result<&'static str, Fail> {
        let name = name_of(self.alloc, short)?;
        match self.names()? {
            Ok(names) if names.is_empty() => Ok("NONE"),
            Ok(names) if names.as_slice() == [name].as_slice() => Ok("ONE"),
            Ok(_) => Ok("OTHERS"),
            Err(refused) => Ok(refused),
        }
    }

    /// Makes a call of one word, of the file `p03-v-7`.
    pub fn say(&mut self, word: &str) -> Result<&'static str, Fail> {
        match word {
            "create" | "take" => self.call(word, "p03-v-7"),
            "append" => self.call(word, "bytes"),
            "end" => self.call("append", "!"),
            "list" => self.list("p03-v-7"),
            _ => self.call(word, ""),
        }
    }

    /// Makes calls of one word each, and compares what they told.
    pub fn expect(&mut self, words: &str, wanted: &str) -> Result<(), Fail> {
        let mut seen = String::new(self.alloc);
        for word in words.split(' ') {
            seen.push_str(self.say(word)?)?;
            seen.push(';')?;
        }
        expect_text(seen.as_bytes(), wanted.as_bytes(), words)
    }
}
