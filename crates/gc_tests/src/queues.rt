//! Queues by a table of calls: what is heard and what is left is what was noted, in order, each once.

use super::events::{Handle, line_of, number, read_event, split};
use super::expecting::{expect, expect_text};
use super::queue::Queue;
use gc_event::Event;
use std::alloc::Global;
use std::test::Fail;

/// A queue: how many events its ring holds, the number of the first copy, and calls, each with its answer. `note` notes so
/// many events, and `next`, `beside` and `left` answer how many came of so many that were asked for, each the one that is
/// next in the order of all that were noted. `back` hears an event and puts it back.
#[derive(Clone, Copy)]
struct Row {
    name: &'static str,
    capacity: usize,
    first_copy: u64,
    calls: &'static str,
}

const ROWS: [Row; 4] = [
    Row {
        name: "the first 4,096 are told",
        capacity: 4_096,
        first_copy: 1,
        calls: "\
first: 1
behind: 0
held: 0
next 1: 0
back: none
beside 1: 0
note 5000: 5000
behind: 5000
held: 0
next 1: 0
tell: 4096
behind: 904
held: 4096
tell: 0
next 96: 96
back: dead put 97 7 c v-97
held: 4000
next 1: 1
held: 3999
tell: 97
behind: 807
held: 4096
beside 4196: 4196
behind: 707
held: 0
tell: 707
behind: 0
next 8000: 707
held: 0
note 3: 3
left: 3",
    },
    Row {
        name: "a ring of one event",
        capacity: 1,
        first_copy: 281_474_976_710_656,
        calls: "\
first: 281474976710656
note 3: 3
tell: 1
behind: 2
back: put 1 7 k 1 v-1
held: 1
tell: 1
held: 2
behind: 1
back: put 1 7 k 1 v-1
held: 2
beside 2: 2
held: 0
behind: 1
beside 5: 1
behind: 0
held: 0",
    },
    Row {
        name: "ring, backlog and one put back are left",
        capacity: 4,
        first_copy: 9,
        calls: "\
note 11: 11
tell: 4
next 1: 1
back: dead put 2 7 c v-2
behind: 7
first: 9
left: 10",
    },
    Row {
        name: "all is left, and nothing",
        capacity: 2,
        first_copy: 3,
        calls: "\
note 6: 6
beside 2: 2
back: none
held: 0
left: 4",
    },
];

/// A queue, how many events were noted, and how many came out.
#[derive(Drop)]
struct Bench {
    queue: Queue,
    noted: u64,
    heard: u64,
    alloc: Global,
}

/// The line that the event of a number is read from; the kinds alternate.
fn line_at(alloc: Global, n: u64) -> Result<String, Fail> {
    Ok(match n % 5 {
        1 => format!(in alloc; "put {n} 7 k {n} v-{n}")?,
        2 => format!(in alloc; "dead put {n} 7 c v-{n}")?,
        3 => format!(in alloc; "clear {n} 7 x-{n}")?,
        4 => format!(in alloc; "seal v-{n} {n}")?,
        _ => format!(in alloc; "remove {n} 7 b t-{n}")?,
    })
}

impl Bench {
    /// Notes so many events.
    fn note(&mut self, count: u64) -> Result<u64, Fail> {
        for _ in 0..count {
            self.noted = self.noted.saturating_add(1);
            let line = line_at(self.alloc, self.noted)?;
            self.queue.note(read_event(self.alloc, line.as_str())?)?;
        }
        Ok(count)
    }

    /// Fails unless the event is the next of those that were noted.
    fn hear(&mut self, event: &Event<Handle>, name: &str) -> Result<(), Fail> {
        self.heard = self.heard.saturating_add(1);
        let wanted = read_event(self.alloc, line_at(self.alloc, self.heard)?.as_str())?;
        let wanted = line_of(self.alloc, &wanted)?;
        let found = line_of(self.alloc, event)?;
        expect_text(found.as_str(), wanted.as_str(), name, "the next event")
    }

    /// Hears at most so many events, by either call.
    fn hear_some(&mut self, count: u64, beside: bool, name: &str) -> Result<u64, Fail> {
        for done in 0..count {
            let next = if beside {
                self.queue.next_beside()
            } else {
                self.queue.next()
            };
            let Some(event) = next else {
                return Ok(done);
            };
            self.hear(&event, name)?;
        }
        Ok(count)
    }

    /// Makes a call, and writes its answer.
    fn make(&mut self, call: &str, name: &str, told: &mut String) -> Result<(), Fail> {
        let (verb, count) = split(call);
        let count = if count.is_empty() { 0 } else { number(count)? };
        match verb {
            "first" => write!(told, "{}", self.queue.first_copy())?,
            "note" => write!(told, "{}", self.note(count)?)?,
            "tell" => write!(told, "{}", self.queue.tell())?,
            "behind" => write!(told, "{}", self.queue.behind())?,
            "held" => write!(told, "{}", self.queue.held())?,
            "next" => write!(told, "{}", self.hear_some(count, false, name)?)?,
            "beside" => write!(told, "{}", self.hear_some(count, true, name)?)?,
            "back" => match self.queue.put_back()? {
                None => told.push_str("none")?,
                Some(line) => told.push_str(line.as_str())?,
            },
            _ => return Err("no such call".into()),
        }
        Ok(())
    }

    /// Hears all that is left, and answers how many events that are.
    fn end(self, name: &str) -> Result<(u64, u64), Fail> {
        let Bench {
            queue,
            noted,
            heard,
            alloc,
        } = self;
        let mut left = queue.left();
        let mut rest = Bench {
            queue: Queue::new(alloc, 1, 1)?,
            noted,
            heard,
            alloc,
        };
        for _ in heard..noted {
            let event = left.next().ok_or("too few are left")?;
            rest.hear(&event, name)?;
        }
        expect(left.next().is_none(), "too many are left")?;
        Ok((rest.heard, noted))
    }
}

/// Makes the calls of a row, compares what each answers, and hears what is left then.
fn check_row(alloc: Global, row: &Row) -> Result<(), Fail> {
    let mut bench = Bench {
        queue: Queue::new(alloc, row.capacity, row.first_copy)?,
        noted: 0,
        heard: 0,
        alloc,
    };
    let mut left = 0;
    for line in row.calls.lines() {
        let (call, wanted) = line.split_once(": ").ok_or("no answer")?;
        if call.starts_with("left") {
            left = number(wanted)?;
            continue;
        }
        let mut told = String::new(alloc);
        bench.make(call, row.name, &mut told)?;
        expect_text(told.as_str(), wanted, row.name, line)?;
    }
    expect(bench.noted.saturating_sub(bench.heard) == left, row.name)?;
    let (heard, noted) = bench.end(row.name)?;
    expect(heard == noted, row.name)
}

#[test]
fn queues_give_what_was_noted_in_order(rt: HostRuntime) -> Result<(), Fail> {
    for row in &ROWS {
        check_row(rt.alloc(), row)?;
    }
    Ok(())
}
