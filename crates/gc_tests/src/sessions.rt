//! Sessions of events, by a table: what a ledger knows after each step of a cycle, as it was worked out by hand.

use super::events::{Handle, measure, number, read_chunk, read_event, split};
use super::expecting::{expect, expect_text};
use super::queue::Queue;
use hr_base::Seq;
use occ_ledger::Ledger;
use std::alloc::Global;
use std::test::Fail;

/// A session: what is asked after steps, and the steps. A step is a call, its own answer behind `=` where it has one, and
/// behind bars the answers to what is asked. `live` is answered by numbers and bytes; `lapsed` is since the step before.
#[derive(Clone, Copy)]
struct Row {
    name: &'static str,
    asked: &'static str,
    steps: &'static str,
}

const ROWS: [Row; 6] = [
    // Copies are present from their append on. The tombstone hides the source and the copy, also after a crash that brings
    // the source back.
    Row {
        name: "a key is removed while its record is copied",
        asked: "stale 1 k|stale 1 a|under 1|live v-1|live v-2|live w-1|live t-3|lapsed",
        steps: "\
put 1 1 k v v-1
put 2 1 a x*3000 v-1
put 3 1 a y*3000 v-2
seal v-1 3051
tell = 4
drain 10 = 4|0|1|0|1: 26|3: 3025|none|none|0
copied 1 v-1 w-1|0|1|0|1: 26|3: 3025|none|none|0
remove 4 1 k t-3
tell = 1
drain 10 = 1|2|1|0|none|3: 3025|none|4: 21|0
moved|2|1|0|none|3: 3025|none|4: 21|0
restart|0|0|0|none|none|none|none|0
dead put 1 1 k v-1
dead put 1 1 k w-1
dead put 2 1 a v-1
put 3 1 a y*3000 v-2
remove 4 1 k t-3
seal t-3 21
seal v-1 3051
seal v-2 3025
seal w-1 26
tell = 9
drain 5 = 5|2|1|0|none|3: 3025|none|4: 21|0
drain 10 = 4|2|1|0|none|3: 3025|none|4: 21|0
forget v-1|1|0|0|none|3: 3025|none|4: 21|0
forget w-1|0|0|0|none|3: 3025|none|none|1
forget t-3|0|0|0|none|3: 3025|none|none|0",
    },
    Row {
        name: "a tombstone lapses with the value that it hides",
        asked: "stale 1 k|under 1|live v-1|live t-2|lapsed",
        steps: "\
put 1 1 k v v-1
seal v-1 26
remove 2 1 k t-2
tell = 3
drain 10 = 3|1|0|none|2: 21|0
moved|1|0|none|2: 21|0
forget v-1|0|0|none|none|1",
    },
    Row {
        name: "what lapsed is removed, and numbers begin again",
        asked: "stale 1 k|under 1|live v-1|live t-2|lapsed",
        steps: "\
put 1 1 k v v-1
seal v-1 26
remove 2 1 k t-2
tell = 3
drain 10 = 3|1|0|none|2: 21|0
moved|1|0|none|2: 21|0
forget v-1|0|0|none|none|1
seal t-2 21
tell = 1
drain 10 = 1|0|0|none|none|0
moved|0|0|none|none|0
forget t-2|0|0|none|none|0
restart|0|0|none|none|0
put 1 1 k w v-1
tell = 1
drain 10 = 1|0|0|1: 26|none|0",
    },
    Row {
        name: "the older of two chunks with the same order",
        asked: "stale 1 a|stale 1 i|stale 1 j|stale 1 b|under 1|live v-1|live v-2|live v-3|live v-4|live w-1|lapsed",
        steps: "\
puts 1 1 x*999 v-1 a b c d
puts 5 1 x*999 v-2 e f g h
puts 9 1 x*999 v-3 i j k l
puts 13 1 x*999 v-4 a i j
seal v-1 4096
seal v-2 4096
seal v-3 4096
tell = 18
drain 100 = 18|1|1|1|0|0|2 3 4: 3072|5 6 7 8: 4096|11 12: 2048|13 14 15: 3072|none|0
copied 2 v-1 w-1|1|1|1|0|0|2 3 4: 3072|5 6 7 8: 4096|11 12: 2048|13 14 15: 3072|none|0
copied 3 v-1 w-1|1|1|1|0|0|2 3 4: 3072|5 6 7 8: 4096|11 12: 2048|13 14 15: 3072|none|0
copied 4 v-1 w-1|1|1|1|0|0|2 3 4: 3072|5 6 7 8: 4096|11 12: 2048|13 14 15: 3072|none|0
moved|1|1|1|0|0|none|5 6 7 8: 4096|11 12: 2048|13 14 15: 3072|2 3 4: 3072|0
forget v-1|0|1|1|0|0|none|5 6 7 8: 4096|11 12: 2048|13 14 15: 3072|2 3 4: 3072|0",
    },
    Row {
        name: "a chunk without a live record is first",
        asked: "stale 1 a|stale 1 b|stale 1 c|stale 1 d|stale 1 e|under 1|live v-1|live v-2|live v-3|lapsed",
        steps: "\
puts 1 1 x*999 v-1 a b c d
puts 5 1 x*999 v-2 a b c e
puts 9 1 x*999 v-3 d a b c
seal v-1 4096
seal v-2 4096
tell = 14
drain 100 = 14|2|2|2|1|0|0|none|8: 1024|9 10 11 12: 4096|0",
    },
    // The second half is a restart, which tells what was found, and the cycles that leave two records.
    Row {
        name: "values, tombstones and prefix tombstones are compacted",
        asked: "stale 1 a|stale 1 b|stale 2 c|stale 2 d|under 1|under 2|live v-1|live w-1|live t-2|live x-3|lapsed",
        steps: "\
put 1 1 a x v-1
put 2 1 a yy v-1
put 3 1 b z v-1
remove 4 1 b t-2
put 5 2 c q v-1
clear 6 2 x-3
put 7 2 d r v-1
tell = 7
drain 5 = 5|1|1|0|0|0|0|2 5: 53|none|4: 21|none|0
drain 1 = 1|1|1|0|0|0|1|2: 27|none|4: 21|6: 16|0
drain 10 = 1|1|1|0|0|0|1|2 7: 53|none|4: 21|6: 16|0
restart|0|0|0|0|0|0|none|none|none|none|0
dead put 1 1 a v-1
put 2 1 a yy v-1
dead put 3 1 b v-1
remove 4 1 b t-2
dead put 5 2 c v-1
clear 6 2 x-3
put 7 2 d r v-1
seal t-2 21
seal v-1 131
seal x-3 16
tell = 10
drain 10 = 10|1|1|0|0|0|1|2 7: 53|none|4: 21|6: 16|0
copied 2 v-1 w-1|1|1|0|0|0|1|2 7: 53|none|4: 21|6: 16|0
copied 7 v-1 w-1|1|1|0|0|0|1|2 7: 53|none|4: 21|6: 16|0
moved|1|1|0|0|0|1|none|2 7: 53|4: 21|6: 16|0
forget v-1|0|0|0|0|0|0|none|2 7: 53|none|none|2
moved|0|0|0|0|0|0|none|2 7: 53|none|none|0
forget t-2|0|0|0|0|0|0|none|2 7: 53|none|none|0
moved|0|0|0|0|0|0|none|2 7: 53|none|none|0
forget x-3|0|0|0|0|0|0|none|2 7: 53|none|none|0",
    },
];

/// How many answers the rows have.
const ANSWERS: u64 = 354;

/// A queue, and a ledger of what was heard.
#[derive(Drop)]
struct Session {
    queue: Queue,
    ledger: Ledger,
    alloc: Global,
}

impl Session {
    fn new(alloc: Global) -> Result<Session, Fail> {
        Ok(Session {
            queue: Queue::new(alloc, 4_096, 1)?,
            ledger: Ledger::new(alloc),
            alloc,
        })
    }

    /// Notes the event of a line.
    fn note(&mut self, line: &str) -> Result<(), Fail> {
        self.queue.note(read_event(self.alloc, line)?)
    }

    /// Notes puts of one value under numbers that follow one another: `FIRST MAP VALUE CHUNK KEY..`.
    fn note_puts(&mut self, line: &str) -> Result<(), Fail> {
        let mut words = line.split(' ');
        let mut seq = number(words.next().unwrap_or(""))?;
        let map = words.next().unwrap_or("");
        let value = words.next().unwrap_or("");
        let chunk = words.next().unwrap_or("");
        for key in words {
            let line = format!(in self.alloc; "put {seq} {map} {key} {value} {chunk}")?;
            self.note(line.as_str())?;
            seq = seq.saturating_add(1);
        }
        Ok(())
    }

    /// Hears at most so many events, and answers how many that were.
    fn drain(&mut self, most: u64) -> Result<u64, Fail> {
        for done in 0..most {
            let Some(event) = self.queue.next() else {
                return Ok(done);
            };
            self.ledger.hear::<Handle>(&event)?;
        }
        Ok(most)
    }

    /// Enters a copy: `NUMBER FROM TO`.
    fn copy(&mut self, line: &str) -> Result<(), Fail> {
        let (seq, names) = split(line);
        let (from, to) = split(names);
        let seq = Seq(number(seq)?);
        self.ledger.copied(seq, read_chunk(from)?, read_chunk(to)?)?;
        Ok(())
    }

    /// Makes a call, and answers its number, if it has one.
    fn make(&mut self, call: &str) -> Result<u64, Fail> {
        let (verb, rest) = split(call);
        match verb {
            "tell" => return Ok(self.queue.tell() as u64),
            "drain" => return self.drain(number(rest)?),
            "copied" => self.copy(rest)?,
            "moved" => self.ledger.moved(),
            "forget" => self.ledger.forget(read_chunk(rest)?),
            "restart" => *self = Session::new(self.alloc)?,
            "puts" => self.note_puts(rest)?,
            _ => self.note(call)?,
        }
        Ok(0)
    }

    /// Writes the numbers and the bytes of a chunk's live records.
    fn tell_live(&self, name: &str, told: &mut String) -> Result<(), Fail> {
        let mut sum = 0usize;
        let mut between = "";
        for record in &self.ledger.live(read_chunk(name)?)? {
            let (seq, len) = measure(record);
            write!(told, "{between}{seq}")?;
            between = " ";
            sum = sum.saturating_add(len);
        }
        if sum == 0 {
            told.push_str("none")?;
        } else {
            write!(told, ": {sum}")?;
        }
        Ok(())
    }

    /// Writes the answer to a question.
    fn tell(&mut self, asked: &str, told: &mut String) -> Result<(), Fail> {
        let (verb, rest) = split(asked);
        match verb {
            "stale" => {
                let (map, key) = split(rest);
                write!(told, "{}", self.ledger.stale(number(map)?, key.as_bytes()))?;
            }
            "under" => write!(told, "{}", self.ledger.stale_prefix(number(rest)?))?,
            "live" => self.tell_live(rest, told)?,
            "lapsed" => write!(told, "{}", self.ledger.lapsed())?,
            _ => return Err("no such question".into()),
        }
        Ok(())
    }

    /// Makes the call of a step, and compares its own answer.
    fn step(&mut self, step: &str, name: &str) -> Result<(), Fail> {
        let (call, wanted) = step.split_once(" = ").unwrap_or((step, "0"));
        let mut told = String::new(self.alloc);
        write!(told, "{}", self.make(call)?)?;
        expect_text(told.as_str(), wanted, name, step)
    }
}

/// Makes the steps of a row. Behind each that has answers, all that is asked is asked. The answer is how often.
fn check_row(alloc: Global, row: &Row) -> Result<u64, Fail> {
    let mut session = Session::new(alloc)?;
    let mut answers = 0u64;
    for line in row.steps.lines() {
        let mut cells = line.split('|');
        session.step(cells.next().unwrap_or(""), row.name)?;
        let mut questions = row.asked.split('|');
        for wanted in cells {
            let asked = questions.next().ok_or("no question")?;
            let mut told = String::new(alloc);
            session.tell(asked, &mut told)?;
            let place = format!(in alloc; "{line}: {asked}")?;
            expect_text(told.as_str(), wanted, row.name, place.as_str())?;
            answers = answers.saturating_add(1);
        }
    }
    Ok(answers)
}

#[test]
fn sessions_come_to_what_was_worked_out(rt: HostRuntime) -> Result<(), Fail> {
    let mut answers = 0u64;
    for row in &ROWS {
        answers = answers.saturating_add(check_row(rt.alloc(), row)?);
    }
    expect(answers == ANSWERS, "the answers of the table")
}
