//! The disk fails in each call of a restart in turn.

use crate::disks::{Disk, File, Stop, copies, expect_bytes, expect_files};
use crate::expecting::expect;
use hr_base::Pick;
use std::alloc::Global;
use std::test::Fail;

const DUMP: &str = "DIR dump --partitions 2";

const PLAY: &str = "DIR play --partitions 2";

/// What is played over an empty folder. It makes three files: one of values and one of tombstones, and one of values of
/// the other partition.
const FOUND: &[u8] =
    b"0 put 7 a 1\n0 put 7 b 2\n0 remove 7 a\n0 put 8 c 3\n1 put 5 k v\n0 sync\n1 sync\n";

/// What they hold.
const DUMPED: &[u8] = b"0 7 b 2\n0 8 c 3\n1 5 k v\n";

const SCRIPT: &[u8] = b"0 get 7 b\n1 put 5 k w\n0 put 7 a 4\n1 sync\n0 sync\n";

/// What a session over them replies.
const REPLIES: &[u8] = b"0 is 2\n1 was v\n0 none\n1 synced\n0 synced\n";

/// What the files hold then.
const PLAYED: &[u8] = b"0 7 a 4\n0 7 b 2\n0 8 c 3\n1 5 k w\n";

/// The calls of the root: a directory sync, a listing, a take and a file sync of each file, and two reads of each.
const CALLS: u64 = 14;

/// A call of the root.
fn root_call(call: u64, goes_on: bool) -> Stop {
    Stop {
        port: 0,
        call,
        goes_on,
    }
}

/// A folder with the files, and what they are.
#[derive(Drop)]
struct Found<D: Disk> {
    disk: D,
    files: Vec<File>,
    alloc: Global,
}

impl<D: Disk> Found<D> {
    fn new(alloc: Global) -> Result<Found<D>, Fail> {
        let mut disk = D::empty(alloc);
        let told = disk.run(alloc, PLAY, FOUND)?;
        expect(told.status == 0, "the files")?;
        let files = copies(alloc, &mut disk)?;
        expect(files.len() == 3, "three files")?;
        Ok(Found { disk, files, alloc })
    }

    /// A run whose root fails: that is told, and nothing else, and each file is as it was.
    fn refuse(&mut self, text: &str, stop: Stop) -> Result<D, Fail> {
        let mut disk = self.disk.copied(self.alloc, stop)?;
        let told = disk.run(self.alloc, text, SCRIPT)?;
        told.expect(text, 5, b"refused disk\n")?;
        expect(disk.faults() == 1, text)?;
        expect_bytes(&disk, self.files.as_slice(), text)?;
        Ok(disk)
    }

    /// Runs that end well: a dump, a session, and a dump.
    fn expect_sound(&self, disk: &mut D) -> Result<(), Fail> {
        let dumped = disk.run(self.alloc, DUMP, b"")?;
        dumped.expect("a dump", 0, DUMPED)?;
        expect_files(disk, self.files.as_slice(), "the files after a dump")?;
        let played = disk.run(self.alloc, PLAY, SCRIPT)?;
        played.expect("a session", 0, REPLIES)?;
        let dumped = disk.run(self.alloc, DUMP, b"")?;
        dumped.expect("a last dump", 0, PLAYED)
    }

    /// One call fails, and the folder is sound afterwards; and all fail from that call on, and the folder is sound after a
    /// crash.
    fn check_call(&mut self, text: &str, call: u64) -> Result<(), Fail> {
        let mut alone = self.refuse(text, root_call(call, false))?;
        self.expect_sound(&mut alone)?;
        for pick in [Pick::Least, Pick::Most, Pick::Mix(1)] {
            let mut left = self.refuse(text, root_call(call, true))?.crash(pick);
            expect_files(&mut left, self.files.as_slice(), "the files after a crash")?;
            self.expect_sound(&mut left)?;
        }
        Ok(())
    }

    /// Each call of a restart fails, and at last no call is struck.
    fn check_calls(&mut self, text: &str, printed: &[u8]) -> Result<(), Fail> {
        for call in 1..=CALLS {
            self.check_call(text, call)?;
        }
        let after = root_call(CALLS.saturating_add(1), true);
        let mut disk = self.disk.copied(self.alloc, after)?;
        disk.run(self.alloc, text, SCRIPT)?
            .expect(text, 0, printed)?;
        expect(disk.faults() == 0, text)
    }
}

/// Each call of a restart fails, of one that dumps and of one that plays.
pub fn check_restarts<D: Disk>(alloc: Global) -> Result<(), Fail> {
    let mut found = Found::<D>::new(alloc)?;
    found.check_calls(DUMP, DUMPED)?;
    found.check_calls(PLAY, REPLIES)
}
