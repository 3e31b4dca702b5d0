//! The scans: what is stale, live and retired. Each looks at all that it may.

ghost use Rattle.std.specs.Prelude.{◌≡◌, IfOk, OnOk};
ghost use Rattle.hr_base.specs.Entries.{key_at};
ghost use Rattle.occ_ledger.specs.Marks.{identity_in};
ghost use Rattle.occ_ledger.specs.Lists.{entry_in, is_kept};
ghost use Rattle.occ_ledger.specs.Scans.{scan_among, scan_chosen, scan_greater, scan_lapsed, scan_live, scan_lives, scan_needed, scan_newer, scan_older, scan_older_under, scan_passed, scan_passed_under, scan_stale, scan_stale_under};

use crate::lists::{Notice, Spot};
use crate::mark::{Mark, shared};
use crate::records::insert;
use hr_base::{ChunkName, Class, Memory};
use record_format::Record;
use std::alloc::Global;

/// The lists, or what is left of them once a chunk is forgotten.
#[derive(Clone, Copy)]
pub(crate) struct Seen<'a> {
    pub(crate) told: &'a [Notice],
    pub(crate) present: &'a [Spot],
    pub(crate) without: Option<ChunkName>,
}

impl<'a> Seen<'a> {
    // Whether the occurrence is left.
    fn keeps(&self, spot: &Spot) -> bool
        ensures { result ≡ is_kept self.now.without (entry_in spot.now) }
    {
        match self.without {
            None => true,
            Some(chunk) => !spot.is_in(chunk),
        }
    }

    // Whether a present value or tombstone of the key has a greater number.
    fn is_passed(&self, prefix: u64, key: &[u8], seq: u64) -> bool
        ensures { result ≡ scan_passed self.now (key_at prefix key.now) seq }
    {
        self.present.iter().any(|o| {
            self.keeps(o) && !o.mark.is_clear() && o.mark.has_key(prefix, key) && seq < o.mark.seq()
        })
    }

    /// How many present values of the key have a number below that of a present value or tombstone of it.
    pub(crate) fn stale(&self, prefix: u64, key: &[u8]) -> usize
        ensures { result ≡ scan_stale self.now (key_at prefix key.now) }
    {
        self.present
            .iter()
            .filter(|e| {
                self.keeps(e)
                    && e.mark.is_value()
                    && e.mark.has_key(prefix, key)
                    && self.is_passed(prefix, key, e.mark.seq())
            })
            .count()
    }

    // Whether a present prefix tombstone of the prefix has a greater number.
    fn is_passed_under(&self, prefix: u64, seq: u64) -> bool
        ensures { result ≡ scan_passed_under self.now prefix seq }
    {
        self.present.iter().any(|o| {
            self.keeps(o) && o.mark.is_clear() && o.mark.prefix() == prefix && seq < o.mark.seq()
        })
    }

    /// How many present values of the prefix have a number below that of a present prefix tombstone of it.
    pub(crate) fn stale_prefix(&self, prefix: u64) -> usize
        ensures { result ≡ scan_stale_under self.now prefix }
    {
        self.present
            .iter()
            .filter(|e| {
                self.keeps(e)
                    && e.mark.is_value()
                    && e.mark.prefix() == prefix
                    && self.is_passed_under(prefix, e.mark.seq())
            })
            .count()
    }

    // Whether an event that touches the key has a greater number.
    fn has_greater(&self, prefix: u64, key: &[u8], seq: u64) -> bool
        ensures { result ≡ scan_greater self.now (key_at prefix key.now) seq }
    {
        self.told
            .iter()
            .any(|n| n.mark.concerns(prefix, key) && seq < n.mark.seq())
    }

    // Whether a prefix tombstone of the prefix has a greater number, a dead one included.
    fn has_newer(&self, prefix: u64, seq: u64) -> bool
        ensures { result ≡ scan_newer self.now prefix seq }
    {
        self.told.iter().any(|n| n.mark.is_clear()
            && n.mark.prefix() == prefix
            && seq < n.mark.seq())
    }

    // Whether a value of the key with a smaller number is present.
    fn has_older(&self, prefix: u64, key: &[u8], seq: u64) -> bool
        ensures { result ≡ scan_older self.now (key_at prefix key.now) seq }
    {
        self.present.iter().any(|o| {
            self.keeps(o) && o.mark.is_value() && o.mark.has_key(prefix, key) && o.mark.seq() < seq
        })
    }

    // Whether a value of the prefix with a smaller number is present.
    fn has_older_under(&self, prefix: u64, seq: u64) -> bool
        ensures { result ≡ scan_older_under self.now prefix seq }
    {
        self.present.iter().any(|o| {
            self.keeps(o) && o.mark.is_value() && o.mark.prefix() == prefix && o.mark.seq() < seq
        })
    }

    // Whether a record at its place counts.
    fn is_needed(&self, mark: &Mark) -> bool
        ensures { result ≡ scan_needed (identity_in mark.now).class self.now (identity_in mark.now) }
    {
        let (prefix, key, seq) = (mark.prefix(), mark.key(), mark.seq());
        match mark.class() {
            Class::Value => !self.has_greater(prefix, key, seq),
            Class::Tomb => {
                !self.has_greater(prefix, key, seq) && self.has_older(prefix, key, seq)
            }
            Class::Clear => !self.has_newer(prefix, seq) && self.has_older_under(prefix, seq),
        }
    }

    /// Whether an occurrence is live.
    pub(crate) fn is_live(&self, spot: &Spot) -> bool
        ensures { result ≡ scan_live self.now spot.now }
    {
        spot.place && self.is_needed(&spot.mark)
    }

    // Puts the record of an occurrence among those of others, if it is a live one of the chunk.
    fn put_live(
        &self,
        chunk: ChunkName,
        spot: &Spot,
        records: &mut Vec<Record>,
    ) -> Result<(), Memory>
        ensures { OnOk result (records.new.items ≡ scan_chosen self.now chunk spot.now records.old.items) }
    {
        if !(spot.is_in(chunk) && self.is_live(spot)) {
            return Ok(());
        }
        match spot.mark.record() {
            None => Ok(()),
            Some(rec) => insert(records, shared(rec)?),
        }
    }

    /// The live records of a chunk, by number. Their bytes are shared.
    pub(crate) fn live(&self, alloc: Global, chunk: ChunkName) -> Result<Vec<Record>, Memory>
        ensures { IfOk result (λ records. records.items ≡ scan_among self.now chunk self.now.present.now) }
    {
        let mut records = Vec::new(alloc);
        let count = self.present.len();
        for done in 0..count {
            self.put_live(chunk, &self.present[count - 1 - done], &mut records)?;
        }
        Ok(records)
    }

    // Whether the record of the number is live.
    fn lives(&self, seq: u64) -> bool
        ensures { result ≡ scan_lives self.now seq }
    {
        self.present.iter().any(|e| self.keeps(e) && e.mark.seq() == seq && self.is_live(e))
    }

    /// How many tombstones and prefix tombstones are live here, and not in what is left afterwards.
    pub(crate) fn lapsed(&self, after: &Seen<'_>) -> usize
        ensures { result ≡ scan_lapsed self.now after.now }
    {
        self.present
            .iter()
            .filter(|e| {
                self.keeps(e) && !e.mark.is_value() && self.is_live(e) && !after.lives(e.mark.seq())
            })
            .count()
    }
}
