//! A plain program beside the ledger. It keeps a list of all calls, plays it from nothing for each answer, and computes
//! what is stale, live and lapsed from the definitions, by loops over all that was told and entered.

use super::events::Fact;
use hr_base::{ChunkName, Class};
use std::alloc::Global;
use std::test::Fail;

/// A call that changes what is known, or a Seal, which does not.
#[derive(Clone, Copy)]
pub enum Call {
    Hear(Fact<'static>, ChunkName),
    Seal(ChunkName),
    Copied {
        seq: u64,
        from: ChunkName,
        to: ChunkName,
    },
    Moved,
    Forget(ChunkName),
}

/// An occurrence that was entered.
#[derive(Clone, Copy)]
pub struct Entered {
    pub fact: Fact<'static>,
    pub chunk: ChunkName,
    pub copy: bool,
    pub present: bool,
}

impl Entered {
    /// Whether it is a present value under the prefix, of this key if one is asked for.
    fn is_value(&self, prefix: u64, key: Option<&str>) -> bool {
        let fact = &self.fact;
        let asked = match key {
            None => true,
            Some(key) => fact.key == key,
        };
        self.present && fact.class == Class::Value && fact.prefix == prefix && asked
    }
}

/// What calls come to: what was told; what was entered; the places of the copies since the last ones were secured; where
/// records moved, so that the last one of a number is its place; and how many tombstones and prefix tombstones lapsed.
#[derive(Drop)]
pub struct Plain {
    told: Vec<Fact<'static>>,
    pub entered: Vec<Entered>,
    copies: Vec<usize>,
    moves: Vec<(u64, usize)>,
    pub lapsed: u64,
    pub alloc: Global,
}

impl Plain {
    /// What the calls come to.
    pub fn of(alloc: Global, calls: &[Call]) -> Result<Plain, Fail> {
        let mut plain = Plain {
            told: Vec::new(alloc),
            entered: Vec::new(alloc),
            copies: Vec::new(alloc),
            moves: Vec::new(alloc),
            lapsed: 0,
            alloc,
        };
        for call in calls {
            plain.play(*call)?;
        }
        Ok(plain)
    }

    /// Plays a call.
    fn play(&mut self, call: Call) -> Result<(), Fail> {
        match call {
            Call::Hear(fact, chunk) => self.hear(fact, chunk)?,
            Call::Seal(_) => {}
            Call::Copied { seq, from, to } => self.copy(seq, from, to)?,
            Call::Moved => self.secure()?,
            Call::Forget(chunk) => self.forget(chunk)?,
        }
        Ok(())
    }

    /// A record that is told by an event of its own kind has its place there.
    fn hear(&mut self, fact: Fact<'static>, chunk: ChunkName) -> Result<(), Fail> {
        if fact.own {
            self.moves.push((fact.seq, self.entered.len()))?;
        }
        self.told.push(fact)?;
        self.entered.push(Entered {
            fact,
            chunk,
            copy: false,
            present: true,
        })?;
        Ok(())
    }

    /// The occurrence of the number in the chunk that was entered last is entered once more.
    fn copy(&mut self, seq: u64, from: ChunkName, to: ChunkName) -> Result<(), Fail> {
        let mut source = None;
        for entered in &self.entered {
            if entered.present && entered.fact.seq == seq && entered.chunk == from {
                source = Some(entered.fact);
            }
        }
        if let Some(fact) = source {
            self.copies.push(self.entered.len())?;
            self.entered.push(Entered {
                fact,
                chunk: to,
                copy: true,
                present: true,
            })?;
        }
        Ok(())
    }

    /// The copies are secured: those that are there, and are of no dead record, become places in their order.
    fn secure(&mut self) -> Result<(), Fail> {
        for place in &self.copies {
            if let Some(entered) = self.entered.get(*place) {
                if entered.present && entered.fact.own {
                    self.moves.push((entered.fact.seq, *place))?;
                }
            }
        }
        self.copies.clear();
        Ok(())
    }

    /// What is in the chunk is not present any more, and what was live and is not any more has lapsed.
    fn forget(&mut self, chunk: ChunkName) -> Result<(), Fail> {
        let mut lived = Vec::new(self.alloc);
        for (place, entered) in self.entered.iter().enumerate() {
            if entered.fact.class != Class::Value && self.is_live(place) {
                lived.push(entered.fact.seq)?;
            }
        }
        for entered in self.entered.iter_mut() {
            if entered.chunk == chunk {
                entered.present = false;
            }
        }
        for seq in &lived {
            if !self.lives(*seq) {
                self.lapsed = self.lapsed.saturating_add(1);
            }
        }
        Ok(())
    }

    /// The present values of a key that a greater value or tombstone of it, which is present, passed.
    pub fn stale(&self, prefix: u64, key: &str) -> u64 {
        let mut count = 0u64;
        for value in &self.entered {
            let mut passed = false;
            for other in &self.entered {
                let fact = &other.fact;
                let same = fact.prefix == prefix && fact.key == key && fact.class != Class::Clear;
                if other.present && same && fact.seq > value.fact.seq {
                    passed = true;
                }
            }
            if passed && value.is_value(prefix, Some(key)) {
                count = count.saturating_add(1);
            }
        }
        count
    }

    /// The present values of a prefix that a greater prefix tombstone of it, which is present, passed.
    pub fn stale_under(&self, prefix: u64) -> u64 {
        let mut count = 0u64;
        for value in &self.entered {
            let mut passed = false;
            for other in &self.entered {
                let fact = &other.fact;
                let same = fact.prefix == prefix && fact.class == Class::Clear;
                if other.present && same && fact.seq > value.fact.seq {
                    passed = true;
                }
            }
            if passed && value.is_value(prefix, None) {
                count = count.saturating_add(1);
            }
        }
        count
    }

    /// Whether no event that was told puts the record in the past: for a prefix tombstone those of its prefix count that
    /// are prefix tombstones, and else all that touch its key.
    fn is_last(&self, fact: &Fact<'static>) -> bool {
        for told in &self.told {
            let clears = told.class == Class::Clear;
            let same_key = fact.class != Class::Clear && told.key == fact.key;
            if told.prefix == fact.prefix && (clears || same_key) && told.seq > fact.seq {
                return false;
            }
        }
        true
    }

    /// Whether a value that is older is present, which the tombstone or prefix tombstone hides.
    fn hides(&self, fact: &Fact<'static>) -> bool {
        let key = match fact.class {
            Class::Clear => None,
            _ => Some(fact.key),
        };
        for older in &self.entered {
            if older.is_value(fact.prefix, key) && older.fact.seq < fact.seq {
                return true;
            }
        }
        false
    }

    /// The place of the records of a number.
    fn place_of(&self, seq: u64) -> Option<usize> {
        let mut last = None;
        for (moved, place) in &self.moves {
            if *moved == seq {
                last = Some(*place);
            }
        }
        last
    }

    /// Whether what was entered there is live.
    pub fn is_live(&self, place: usize) -> bool {
        let Some(entered) = self.entered.get(place) else {
            return false;
        };
        let fact = &entered.fact;
        let needed = fact.class == Class::Value || self.hides(fact);
        entered.present && self.place_of(fact.seq) == Some(place) && self.is_last(fact) && needed
    }

    /// How many occurrences are not present any more.
    pub fn absent(&self) -> usize {
        self.entered
            .iter()
            .filter(|entered| !entered.present)
            .count()
    }

    /// Whether a record of the number is live.
    fn lives(&self, seq: u64) -> bool {
        for (place, entered) in self.entered.iter().enumerate() {
            if entered.fact.seq == seq && self.is_live(place) {
                return true;
            }
        }
        false
    }
}
