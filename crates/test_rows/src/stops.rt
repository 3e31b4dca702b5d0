//! The disk fails at each call of a session in turn. What is printed then, and what crashes leave, is compared with plain
//! maps.

use crate::disks::{Disk, Stop, Told};
use crate::expecting::expect;
use crate::maps::{Account, Line, Maps, add_keys, lines_of, maps_of, no_maps};
use hr_base::{Class, Pick, class_of};
use std::alloc::Global;
use std::test::Fail;

/// The session has two partitions, and chunks that are full as soon as may be.
const PARTITIONS: u8 = 2;

const PLAY: &str = "DIR play --partitions 2 --value-limit 4096 --tomb-limit 4096";

const DUMP: &str = "DIR dump --partitions 2";

/// Partition 0 and some of 1: `X`, `K` and `L` stand for 2100 letters each, so that two of them fill a chunk of values
/// or of tombstones.
const FRONT: &str = "\
0 put 1 a first
0 sync
1 put 1 a w
0 put 1 a X
0 put 2 a X
0 get 1 a
0 sync
0 sync
0 put 1 K z
0 put 1 L z
1 sync
0 remove 1 K
0 remove 1 L
0 remove 1 K
0 clear 2
0 clear 2
0 sync
0 get 2 a
0 put 2 a again
1 put 1 a last
";

/// One more clearing than fits into a chunk of prefix tombstones, each of a map that has a key.
pub const CLEARINGS: u64 = 257;

/// What is played over what a crash left.
const MORE: &str = "\
0 put 1 a later
1 clear 3
0 remove 2 a
1 put 3 c later
0 sync
1 get 1 a
";

/// How a call fails after it failed alone and the least was left: whether all after it fail too, and the pick of the crash.
const AGAIN: [(bool, Pick); 5] = [
    (false, Pick::Most),
    (false, Pick::Mix(1)),
    (true, Pick::Least),
    (true, Pick::Most),
    (true, Pick::Mix(1)),
];

/// The script, with a sync of partition 1 once in a while.
fn script(alloc: Global) -> Result<String, Fail> {
    let mut script = String::new(alloc);
    for letter in FRONT.chars() {
        let times = if letter.is_ascii_uppercase() { 2100 } else { 1 };
        for _ in 0..times {
            script.push(letter.to_ascii_lowercase())?;
        }
    }
    for number in 0..CLEARINGS {
        writeln!(script, "1 put 3 c {number}")?;
        writeln!(script, "1 clear 3")?;
        if number % 100 == 99 {
            writeln!(script, "1 sync")?;
        }
    }
    writeln!(script, "1 get 1 a")?;
    Ok(script)
}

/// The script, its lines, and the keys of each partition; and the lines that are played over what a crash left.
#[derive(Drop)]
pub struct Session {
    script: String,
    lines: Vec<Line>,
    keys: Vec<Maps>,
    more: Vec<Line>,
    alloc: Global,
}

impl Session {
    pub fn new(alloc: Global) -> Result<Session, Fail> {
        let script = script(alloc)?;
        let lines = lines_of(alloc, script.as_str())?;
        let mut keys = no_maps(alloc, PARTITIONS)?;
        add_keys(alloc, lines.as_slice(), keys.as_mut_slice())?;
        let more = lines_of(alloc, MORE)?;
        Ok(Session {
            script,
            lines,
            keys,
            more,
            alloc,
        })
    }

    /// What so many first lines come to, where the disk refused the next one, if there is one.
    fn account(&self, answered: usize) -> Result<Account, Fail> {
        let mut account = Account::new(self.alloc, PARTITIONS)?;
        account.answer_some(self.lines.as_slice(), answered)?;
        Ok(account)
    }

    /// Plays the script over an empty folder.
    fn play<D: Disk>(&self, disk: &mut D) -> Result<Told, Fail> {
        disk.run(self.alloc, PLAY, self.script.as_bytes())
    }

    /// Restarts what a crash left, and compares it with what may be left. It is played on, and dumped exactly.
    fn check_left<D: Disk>(&self, account: &Account, mut disk: D) -> Result<(), Fail> {
        let told = disk.run(self.alloc, DUMP, b"")?;
        expect(told.status == 0, "a crash left what does not restart")?;
        let found = maps_of(self.alloc, PARTITIONS, told.printed())?;
        let keys = self.keys.as_slice();
        let left = account.may_leave(self.lines.as_slice(), keys, found.as_slice());
        expect(left, "a crash left other maps")?;
        let mut next = Account::over(self.alloc, found)?;
        next.answer_all(self.more.as_slice())?;
        let told = disk.run(self.alloc, PLAY, MORE.as_bytes())?;
        told.expect("more lines", 0, next.replies())?;
        let told = disk.run(self.alloc, DUMP, b"")?;
        told.expect("a dump of all", 0, next.dumped()?.as_slice())
    }

    /// Plays the script where the disk fails, and compares what it printed and what a crash leaves. The answer is how many
    /// lines were answered, or none where the session does not come to the call.
    fn check_stop<D: Disk>(&self, stop: Stop, pick: Pick) -> Result<Option<usize>, Fail> {
        let mut disk = D::failing(self.alloc, stop)?;
        let told = self.play(&mut disk)?;
        if disk.faults() == 0 {
            expect(told.status == 0, "no call failed")?;
            return Ok(None);
        }
        expect(told.status == 5, "a call failed")?;
        let answered = told.answered();
        let account = self.account(answered)?;
        told.expect_replies(self.alloc, "the script", account.replies())?;
        self.check_left(&account, disk.crash(pick))?;
        Ok(Some(answered))
    }

    /// A call of a port fails, alone or with all that would follow it. Each time as many lines are answered.
    fn check_call<D: Disk>(&self, port: u64, call: u64) -> Result<Option<usize>, Fail> {
        let alone = Stop {
            port,
            call,
            goes_on: false,
        };
        let first = self.check_stop::<D>(alone, Pick::Least)?;
        if first.is_some() {
            for (goes_on, pick) in AGAIN {
                let again = self.check_stop::<D>(Stop { goes_on, ..alone }, pick)?;
                expect(again == first, "as many lines")?;
            }
        }
        Ok(first)
    }

    /// Each call of a port fails in turn, until the session comes to no more. A later call never stops it earlier. The
    /// answer is how many calls there are.
    pub fn check_calls<D: Disk>(&self, port: u64) -> Result<u64, Fail> {
        let mut before = 0;
        for call in 1..1_000u64 {
            match self.check_call::<D>(port, call)? {
                None => return Ok(call.saturating_sub(1)),
                Some(answered) => {
                    expect(before <= answered, "a later call stops it earlier")?;
                    before = answered;
                }
            }
        }
        Err("too many calls".into())
    }
}

/// How many chunks of a class there are.
fn count_chunks<D: Disk>(disk: &mut D, class: Class) -> Result<usize, Fail> {
    let names = disk.names()?;
    let of_class = names.iter().filter(|name| class_of(name.kind) == class);
    Ok(of_class.count())
}

/// The session without a fault: its chunks of each class are full, and its maps are dumped exactly.
pub fn check_sound<D: Disk>(session: &Session) -> Result<(), Fail> {
    let account = session.account(session.lines.len())?;
    let mut disk = D::empty(session.alloc);
    let told = session.play(&mut disk)?;
    told.expect("the script", 0, account.replies())?;
    expect(count_chunks(&mut disk, Class::Value)? > 4, "values")?;
    expect(count_chunks(&mut disk, Class::Tomb)? > 1, "tombstones")?;
    expect(count_chunks(&mut disk, Class::Clear)? > 2, "clearings")?;
    let told = disk.run(session.alloc, DUMP, b"")?;
    told.expect("the maps", 0, account.dumped()?.as_slice())
}
