//! Lists of calls that are drawn. After each call every answer of the ledger is compared with that of a plain program.

use super::events::{Fact, Handle, chunk, event_of, tell_record};
use super::expecting::expect;
use super::plain::{Call, Plain};
use gc_event::Event;
use hr_base::{ChunkName, Class, Kind, Seq, class_of};
use occ_ledger::Ledger;
use std::alloc::Global;
use std::test::Fail;

/// How many lists are drawn, and how many calls each has.
const LISTS: u64 = 300;

const CALLS: u64 = 24;

/// Numbers are below this one, so that events of one number and of several records clash.
const NUMBERS: u64 = 13;

const PREFIXES: [u64; 2] = [1, 18_446_744_073_709_551_615];

const KEYS: [&str; 2] = ["", "k"];

const VALUES: [&str; 3] = ["v", "ww", "xxx"];

/// Two chunks of values and a copy's, and two of each other class.
fn chunks() -> [ChunkName; 7] {
    [
        chunk(Kind::V, 1),
        chunk(Kind::V, 2),
        chunk(Kind::W, 1),
        chunk(Kind::T, 1),
        chunk(Kind::U, 1),
        chunk(Kind::X, 2),
        chunk(Kind::Y, 2),
    ]
}

/// Numbers that are drawn one after another.
#[derive(Drop)]
struct Draws {
    state: u64,
}

impl Draws {
    /// A number below an end, or 0.
    fn below(&mut self, end: u64) -> u64 {
        let product = self.state.wrapping_mul(2_862_933_555_777_941_757);
        self.state = product.wrapping_add(3_037_000_493);
        (self.state >> 33).checked_rem(end).unwrap_or(0)
    }

    fn chunk(&mut self) -> Result<ChunkName, Fail> {
        Ok(*chunks().get(self.below(7) as usize).ok_or("no chunk")?)
    }

    fn prefix(&mut self) -> u64 {
        if self.below(2) == 0 {
            PREFIXES[0]
        } else {
            PREFIXES[1]
        }
    }

    fn key(&mut self) -> &'static str {
        if self.below(2) == 0 { KEYS[0] } else { KEYS[1] }
    }

    fn value(&mut self) -> &'static str {
        match self.below(3) {
            0 => VALUES[0],
            1 => VALUES[1],
            _ => VALUES[2],
        }
    }

    /// A record of a number in some chunk: values are more frequent, and one of four is dead.
    fn fact(&mut self, seq: u64) -> Result<Call, Fail> {
        let mut chunk = self.chunk()?;
        if self.below(3) == 0 {
            chunk = chunks()[0];
        }
        let class = class_of(chunk.kind);
        let mut fact = Fact {
            seq,
            class,
            prefix: self.prefix(),
            key: "",
            value: "",
            own: self.below(4) > 0,
        };
        if class != Class::Clear {
            fact.key = self.key();
        }
        if class == Class::Value && fact.own {
            fact.value = self.value();
        }
        Ok(Call::Hear(fact, chunk))
    }

    /// A copy, mostly of what is there, into a chunk of its class, which may be the same.
    fn copy(&mut self, plain: &Plain) -> Result<Call, Fail> {
        let end = (plain.entered.len() as u64).saturating_add(1);
        let place = self.below(end) as usize;
        let (seq, from) = match plain.entered.get(place) {
            None => (self.below(NUMBERS), self.chunk()?),
            Some(entered) => (entered.fact.seq, entered.chunk),
        };
        let mut to = self.chunk()?;
        if class_of(to.kind) != class_of(from.kind) {
            to = from;
        }
        Ok(Call::Copied { seq, from, to })
    }

    /// A call: numbers rise in every other list.
    fn call(&mut self, number: u64, at: u64, plain: &Plain) -> Result<Call, Fail> {
        let rising = (at / 2).saturating_add(1);
        let drawn = self.below(NUMBERS.saturating_sub(1)).saturating_add(1);
        let seq = if number % 2 == 0 { rising } else { drawn };
        match self.below(20) {
            0..=11 => self.fact(seq),
            12 => Ok(Call::Seal(self.chunk()?)),
            13..=15 => self.copy(plain),
            16..=17 => Ok(Call::Moved),
            _ => Ok(Call::Forget(self.chunk()?)),
        }
    }
}

/// How many answers were compared, and how many of them were not 0 or empty; how many calls were taken back, and how
/// many removed something.
#[derive(Drop)]
struct Counts {
    answers: u64,
    stale: u64,
    under: u64,
    live: u64,
    copied: u64,
    lapsed: u64,
    undone: u64,
    forgotten: u64,
}

/// One more, if this happened.
fn count(total: &mut u64, happened: bool) {
    if happened {
        *total = total.saturating_add(1);
    }
}

/// A ledger, the calls that were not taken back, and how many tombstones and prefix tombstones it told to have lapsed.
#[derive(Drop)]
struct Bench {
    ledger: Ledger,
    calls: Vec<Call>,
    asked: u64,
    list: u64,
    alloc: Global,
}

/// Writes a record as `tell_record` does.
fn tell_fact(told: &mut String, fact: Fact<'static>) -> Result<(), Fail> {
    let (seq, prefix, key) = (fact.seq, fact.prefix, fact.key);
    match fact.class {
        Class::Value => write!(told, "put {seq} {prefix} {key} {};", fact.value)?,
        Class::Tomb => write!(told, "remove {seq} {prefix} {key};")?,
        Class::Clear => write!(told, "clear {seq} {prefix};")?,
    }
    Ok(())
}

/// Writes the live records of a chunk by number, as the plain program has them, and answers whether one is a copy.
fn tell_plain(told: &mut String, plain: &Plain, chunk: ChunkName) -> Result<bool, Fail> {
    let mut copied = false;
    for seq in 0..NUMBERS.max(CALLS) {
        for (place, entered) in plain.entered.iter().enumerate() {
            if entered.fact.seq == seq && entered.chunk == chunk && plain.is_live(place) {
                tell_fact(told, entered.fact)?;
                copied = copied || entered.copy;
            }
        }
    }
    Ok(copied)
}

impl Bench {
    fn new(alloc: Global, list: u64) -> Bench {
        Bench {
            ledger: Ledger::new(alloc),
            calls: Vec::new(alloc),
            asked: 0,
            list,
            alloc,
        }
    }
}

/// Compares a number of the ledger with one of the plain program.
fn compare(found: u64, wanted: u64, list: u64, asked: &str) -> Result<bool, Fail> {
    if found == wanted {
        return Ok(wanted > 0);
    }
    Err(Fail::new(format_args!("list {list}: {asked}: {found} and not {wanted}")))
}

/// Compares what is live in a chunk.
fn compare_live(
    ledger: &Ledger,
    plain: &Plain,
    chunk: ChunkName,
    list: u64,
    counts: &mut Counts,
) -> Result<(), Fail> {
    let mut wanted = String::new(plain.alloc);
    let copied = tell_plain(&mut wanted, plain, chunk)?;
    let mut found = String::new(plain.alloc);
    for record in &ledger.live(chunk)? {
        tell_record(&mut found, record)?;
    }
    if found != wanted {
        return Err(Fail::new(format_args!("list {list}: {found:?} is live and not {wanted:?}")));
    }
    count(&mut counts.live, !wanted.is_empty());
    count(&mut counts.copied, copied);
    Ok(())
}

/// Compares all answers of a ledger with those of the plain program.
fn compare_all(ledger: &Ledger, plain: &Plain, list: u64, counts: &mut Counts) -> Result<(), Fail> {
    for prefix in PREFIXES {
        let under = ledger.stale_prefix(prefix);
        count(
            &mut counts.under,
            compare(under, plain.stale_under(prefix), list, "stale_prefix")?,
        );
        for key in KEYS {
            let stale = ledger.stale(prefix, key.as_bytes());
            count(
                &mut counts.stale,
                compare(stale, plain.stale(prefix, key), list, "stale")?,
            );
        }
    }
    for chunk in chunks() {
        compare_live(ledger, plain, chunk, list, counts)?;
    }
    counts.answers = counts.answers.saturating_add(13);
    Ok(())
}

/// The event of a call that tells one.
fn event_in(alloc: Global, call: Call) -> Result<Option<Event<Handle>>, Fail> {
    Ok(match call {
        Call::Hear(fact, chunk) => Some(event_of(alloc, fact, chunk)?),
        Call::Seal(name) => Some(Event::Seal {
            name,
            file: Handle,
            size: 1,
        }),
        _ => None,
    })
}

/// Hears an event, compares, and takes it back.
fn hear_and_undo(
    ledger: &mut Ledger,
    event: &Event<Handle>,
    plain: &Plain,
    list: u64,
    counts: &mut Counts,
) -> Result<(), Fail> {
    ledger.hear(event)?;
    compare_all(ledger, plain, list, counts)?;
    ledger.undo();
    Ok(())
}

/// Enters a copy, compares, and takes it back.
fn copy_and_undo(
    ledger: &mut Ledger,
    copy: (u64, ChunkName, ChunkName),
    plain: &Plain,
    list: u64,
    counts: &mut Counts,
) -> Result<(), Fail> {
    ledger.copied(Seq(copy.0), copy.1, copy.2)?;
    compare_all(ledger, plain, list, counts)?;
    ledger.undo();
    Ok(())
}

impl Bench {
    /// What the calls come to, and one more.
    fn plain_with(&self, call: Option<Call>) -> Result<Plain, Fail> {
        let mut calls = Vec::new(self.alloc);
        calls.extend_from_slice(self.calls.as_slice())?;
        if let Some(call) = call {
            calls.push(call)?;
        }
        Plain::of(self.alloc, calls.as_slice())
    }

    /// Hears an event or enters a copy, compares, and takes it back.
    fn make_and_undo(&mut self, call: Call, counts: &mut Counts) -> Result<(), Fail> {
        let plain = self.plain_with(Some(call))?;
        if let Call::Copied { seq, from, to } = call {
            copy_and_undo(&mut self.ledger, (seq, from, to), &plain, self.list, counts)?;
        } else if let Some(event) = event_in(self.alloc, call)? {
            hear_and_undo(&mut self.ledger, &event, &plain, self.list, counts)?;
        }
        count(&mut counts.undone, true);
        Ok(())
    }

    /// Makes a call that stays.
    fn make(&mut self, call: Call) -> Result<(), Fail> {
        match call {
            Call::Copied { seq, from, to } => self.ledger.copied(Seq(seq), from, to)?,
            Call::Moved => self.ledger.moved(),
            Call::Forget(chunk) => self.ledger.forget(chunk),
            Call::Hear(..) | Call::Seal(_) => {
                let event = event_in(self.alloc, call)?.ok_or("no event")?;
                self.ledger.hear(&event)?;
            }
        }
        self.calls.push(call)?;
        Ok(())
    }

    /// Asks what lapsed since that was last asked, and compares.
    fn ask_lapsed(&mut self, plain: &Plain, counts: &mut Counts) -> Result<(), Fail> {
        let wanted = plain.lapsed.saturating_sub(self.asked);
        let found = self.ledger.lapsed();
        let some = compare(found, wanted, self.list, "lapsed")?;
        count(&mut counts.lapsed, some);
        self.asked = plain.lapsed;
        Ok(())
    }

    /// Makes one call that is drawn, and maybe takes back another one before.
    fn step(&mut self, draws: &mut Draws, number: u64, counts: &mut Counts) -> Result<(), Fail> {
        let before = self.plain_with(None)?;
        let at = self.calls.len() as u64;
        let undone = draws.call(number, at, &before)?;
        if draws.below(4) == 0 && !matches!(undone, Call::Moved | Call::Forget(_)) {
            self.make_and_undo(undone, counts)?;
            compare_all(&self.ledger, &before, self.list, counts)?;
        }
        self.make(draws.call(number, at, &before)?)?;
        let plain = self.plain_with(None)?;
        compare_all(&self.ledger, &plain, self.list, counts)?;
        let gone = plain.absent() > before.absent();
        count(&mut counts.forgotten, gone);
        if draws.below(2) == 0 {
            self.ask_lapsed(&plain, counts)?;
        }
        Ok(())
    }
}

#[test]
fn drawn_calls_give_what_a_plain_program_has(rt: HostRuntime) -> Result<(), Fail> {
    let alloc = rt.alloc();
    let mut counts = Counts {
        answers: 0,
        stale: 0,
        under: 0,
        live: 0,
        copied: 0,
        lapsed: 0,
        undone: 0,
        forgotten: 0,
    };
    for number in 0..LISTS {
        let mut draws = Draws { state: number };
        let mut bench = Bench::new(alloc, number);
        for _ in 0..CALLS {
            bench.step(&mut draws, number, &mut counts)?;
        }
    }
    expect(counts.answers > 100_000, "few answers")?;
    expect(counts.stale > 8_000, "few stale values")?;
    expect(counts.under > 4_000, "few stale values of prefixes")?;
    expect(counts.live > 10_000, "few live records")?;
    expect(counts.copied > 300, "few live copies")?;
    expect(counts.lapsed > 40, "few lapsed")?;
    expect(counts.undone > 1_000, "few taken back")?;
    expect(counts.forgotten > 250, "few forgotten")
}
