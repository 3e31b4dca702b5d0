//! Scripts that are drawn, played over folders that crash. What is left, and what is played over it, is compared with
//! plain maps.

ghost use Rattle.std.specs.Prelude.{◌<◌};

use crate::disks::{Disk, Stop};
use crate::expecting::expect;
use crate::maps::{Account, Line, Maps, add_keys, lines_of, maps_of, no_maps};
use hr_base::{Kind, Pick};
use std::alloc::Global;
use std::test::Fail;

/// How many scripts are drawn.
const SCRIPTS: u64 = 300;

const PARTITIONS: u8 = 2;

const DUMP: &str = "DIR dump --partitions 2";

/// The words of a session: every other one has chunks that are full as soon as may be.
const PLAYS: [&str; 2] = [
    "DIR play --partitions 2",
    "DIR play --partitions 2 --value-limit 4096 --tomb-limit 4096",
];

const PICKS: [Pick; 7] = [
    Pick::Least,
    Pick::Most,
    Pick::Mix(1),
    Pick::Mix(2),
    Pick::Mix(3),
    Pick::Mix(4),
    Pick::Mix(5),
];

/// Numbers that are drawn one after another.
#[derive(Drop)]
struct Draws {
    state: u64,
}

impl Draws {
    /// A number below an end.
    fn below(&mut self, end: u64) -> u64
        requires { 0 < end }
    {
        let product = self.state.wrapping_mul(2_862_933_555_777_941_757);
        self.state = product.wrapping_add(3_037_000_493);
        (self.state >> 33) % end
    }

    /// One of three keys.
    fn key(&mut self) -> &'static str {
        match self.below(3) {
            0 => "a",
            1 => "b",
            _ => "c",
        }
    }

    /// How many letters a value has behind its number: few, or up to 1,990.
    fn letters(&mut self) -> u64 {
        match self.below(2) {
            0 => self.below(1_991),
            _ => self.below(3),
        }
    }
}

/// Appends a put of a value that no other line of the script has.
fn push_put(draws: &mut Draws, number: u64, script: &mut String) -> Result<(), Fail> {
    let (p, map, key) = (draws.below(2), draws.below(2), draws.key());
    write!(script, "{p} put {map} {key} {number}")?;
    for _ in 0..draws.letters() {
        script.push('x')?;
    }
    script.push('\n')?;
    Ok(())
}

/// Appends a line.
fn push_line(draws: &mut Draws, number: u64, script: &mut String) -> Result<(), Fail> {
    match draws.below(20) {
        0..=10 => push_put(draws, number, script)?,
        11..=13 => {
            let (p, map, key) = (draws.below(2), draws.below(2), draws.key());
            writeln!(script, "{p} remove {map} {key}")?;
        }
        14 => writeln!(script, "{} clear {}", draws.below(2), draws.below(2))?,
        15..=17 => {
            let (p, map, key) = (draws.below(2), draws.below(2), draws.key());
            writeln!(script, "{p} get {map} {key}")?;
        }
        _ => writeln!(script, "{} sync", draws.below(2))?,
    }
    Ok(())
}

/// A script and its lines.
#[derive(Drop)]
struct Script {
    text: String,
    lines: Vec<Line>,
}

impl Script {
    /// Draws a script of 20 to 40 lines.
    fn draw(alloc: Global, draws: &mut Draws) -> Result<Script, Fail> {
        let mut text = String::new(alloc);
        for number in 0..draws.below(21).saturating_add(20) {
            push_line(draws, number, &mut text)?;
        }
        let lines = lines_of(alloc, text.as_str())?;
        Ok(Script { text, lines })
    }
}

/// Draws a stop that many a session of such a script comes to.
fn draw_stop(draws: &mut Draws) -> Stop {
    let port = draws.below(3);
    Stop {
        port,
        call: draws.below(30).saturating_add(1),
        goes_on: draws.below(2) == 0,
    }
}

/// A script, what it comes to over empty maps, one that is played after it, and where the disk may stop that one.
#[derive(Drop)]
struct Pair {
    words: &'static str,
    first: Script,
    account: Account,
    second: Script,
    stop: Stop,
    alloc: Global,
}

impl Pair {
    /// The pair of a number.
    fn draw(alloc: Global, number: u64) -> Result<Pair, Fail> {
        let mut draws = Draws { state: number };
        let first = Script::draw(alloc, &mut draws)?;
        let second = Script::draw(alloc, &mut draws)?;
        let stop = draw_stop(&mut draws);
        let mut account = Account::new(alloc, PARTITIONS)?;
        account.answer_all(first.lines.as_slice())?;
        let words = if number % 2 == 0 { PLAYS[0] } else { PLAYS[1] };
        Ok(Pair {
            words,
            first,
            account,
            second,
            stop,
            alloc,
        })
    }

    /// Plays the first script over an empty folder, and compares its replies.
    fn play_first<D: Disk>(&self) -> Result<D, Fail> {
        let mut disk = D::empty(self.alloc);
        let told = disk.run(self.alloc, self.words, self.first.text.as_bytes())?;
        told.expect("the first script", 0, self.account.replies())?;
        Ok(disk)
    }

    /// Dumps what a crash left of some lines, and compares it with what may be left. All keys are those that were there
    /// before, and those that the lines name.
    fn find<D: Disk>(
        &self,
        disk: &mut D,
        account: &Account,
        lines: &[Line],
        mut keys: Vec<Maps>,
    ) -> Result<Vec<u8>, Fail> {
        let told = disk.run(self.alloc, DUMP, b"")?;
        expect(told.status == 0, "a crash left what does not restart")?;
        add_keys(self.alloc, lines, keys.as_mut_slice())?;
        let found = maps_of(self.alloc, PARTITIONS, told.printed())?;
        let left = account.may_leave(lines, keys.as_slice(), found.as_slice());
        expect(left, "a crash left other maps")?;
        Ok(told.printed().to_vec(self.alloc)?)
    }

    /// What a crash leaves of the first script, and its dump.
    fn crash_first<D: Disk>(&self, pick: Pick) -> Result<(D, Vec<u8>), Fail> {
        let mut disk = self.play_first::<D>()?.crash(pick);
        let keys = no_maps(self.alloc, PARTITIONS)?;
        let lines = self.first.lines.as_slice();
        let found = self.find(&mut disk, &self.account, lines, keys)?;
        Ok((disk, found))
    }

    /// What so many first lines of the second script come to over what was found.
    fn account_over(&self, found: &[u8], answered: usize) -> Result<Account, Fail> {
        let maps = maps_of(self.alloc, PARTITIONS, found)?;
        let mut account = Account::over(self.alloc, maps)?;
        account.answer_some(self.second.lines.as_slice(), answered)?;
        Ok(account)
    }

    /// Plays the second script over what was found, and compares its replies, and what is dumped then.
    fn play_second<D: Disk>(&self, disk: &mut D, found: &[u8]) -> Result<(), Fail> {
        let account = self.account_over(found, self.second.lines.len())?;
        let told = disk.run(self.alloc, self.words, self.second.text.as_bytes())?;
        told.expect("the second script", 0, account.replies())?;
        let told = disk.run(self.alloc, DUMP, b"")?;
        told.expect("the maps", 0, account.dumped()?.as_slice())
    }

    /// Plays the second script over what a crash left, where the disk stops it, and crashes again. What is left then is
    /// compared with what may be left of the lines that were answered. The answer is whether the disk stopped it.
    fn stop_second<D: Disk>(&self, pick: Pick) -> Result<bool, Fail> {
        let (mut disk, found) = self.crash_first::<D>(pick)?;
        let mut disk = disk.copied(self.alloc, self.stop)?;
        let told = disk.run(self.alloc, self.words, self.second.text.as_bytes())?;
        let stopped = disk.faults() > 0;
        expect(stopped == (told.status == 5), "the status of a stop")?;
        let account = self.account_over(found.as_slice(), told.answered())?;
        told.expect_replies(self.alloc, "the stopped script", account.replies())?;
        let mut left = disk.crash(pick);
        let keys = maps_of(self.alloc, PARTITIONS, found.as_slice())?;
        self.find(&mut left, &account, self.second.lines.as_slice(), keys)?;
        Ok(stopped)
    }
}

/// How many crashes there were, and how many of them lost some of the maps, kept more than the last syncs had, or came
/// to a partition with several chunks of values.
#[derive(Debug, Drop)]
struct Counts {
    crashes: u64,
    lost: u64,
    kept: u64,
    full: u64,
}

impl Counts {
    /// Counts what a crash left.
    fn add<D: Disk>(&mut self, pair: &Pair, disk: &mut D, found: &[u8]) -> Result<(), Fail> {
        self.crashes = self.crashes.saturating_add(1);
        if pair.account.dumped()?.as_slice() != found {
            self.lost = self.lost.saturating_add(1);
        }
        if pair.account.dumped_durable()?.as_slice() != found {
            self.kept = self.kept.saturating_add(1);
        }
        let names = disk.names()?;
        if names.iter().filter(|name| name.kind == Kind::V).count() > 2 {
            self.full = self.full.saturating_add(1);
        }
        Ok(())
    }
}

/// Plays the pair of a number over what each crash left, and over what no crash left, and counts the crashes.
fn crash_pair<D: Disk>(pair: &Pair, counts: &mut Counts) -> Result<(), Fail> {
    for pick in PICKS {
        let (mut disk, found) = pair.crash_first::<D>(pick)?;
        counts.add(pair, &mut disk, found.as_slice())?;
        pair.play_second(&mut disk, found.as_slice())?;
    }
    let mut disk = pair.play_first::<D>()?;
    pair.play_second(&mut disk, pair.account.dumped()?.as_slice())
}

/// All pairs, over folders that crash between their scripts.
pub fn crash_all<D: Disk>(alloc: Global) -> Result<(), Fail> {
    let mut counts = Counts {
        crashes: 0,
        lost: 0,
        kept: 0,
        full: 0,
    };
    for number in 0..SCRIPTS {
        let pair = Pair::draw(alloc, number)?;
        crash_pair::<D>(&pair, &mut counts)?;
    }
    expect(counts.crashes == 2_100, "the crashes")?;
    expect(counts.lost > 1_000, "few lost")?;
    expect(counts.kept > 1_000, "few kept")?;
    expect(counts.full > 300, "few full")
}

/// All pairs, with two crashes, and a session between them that the disk stops.
pub fn stop_all<D: Disk>(alloc: Global) -> Result<(), Fail> {
    let mut stopped = 0u64;
    let mut whole = 0u64;
    for number in 0..SCRIPTS {
        let pair = Pair::draw(alloc, number)?;
        for pick in PICKS {
            if pair.stop_second::<D>(pick)? {
                stopped = stopped.saturating_add(1);
            } else {
                whole = whole.saturating_add(1);
            }
        }
    }
    expect(stopped.saturating_add(whole) == 2_100, "the sessions")?;
    expect(stopped > 700, "few stopped")?;
    expect(whole > 700, "few whole")
}
