//! `Ledger`.

ghost use Rattle.std.specs.Prelude.{◌≡◌, ◌+◌, ◌-◌, ◌^◌, min, IfOk, OnOk, OnErr, IsSome, Some, None};
ghost use Rattle.hr_base.specs.Entries.{key_at};
ghost use Rattle.gc_event.specs.Books.{copied_in, forgotten_in, heard_by, moved_in, new_book};
ghost use Rattle.gc_event.specs.Events.{note_of};
ghost use Rattle.gc_event.specs.Live.{lapsed, live_records, stale, stale_prefix};
ghost use Rattle.occ_ledger.specs.Lists.{book_in, book_seen};
ghost use Rattle.occ_ledger.specs.Ledgers.{Changes, Enters, SameLedger, before, book, lapsed_in};

use crate::lists::Lists;
use crate::mark::Mark;
use crate::seen::Seen;
use gc_event::Event;
use hr_base::{ChunkName, Memory, Seq};
use record_format::Record;
use std::alloc::Global;
use std::mem;

/// The plain list of what was told of a partition and of the occurrences that are present, with full scans.
#[derive(Drop)]
pub struct Ledger {
    lists: Lists,
    // What the lists were before the last `hear` or `copied`, where no other change stood since.
    before: Option<Lists>,
    lapsed: u64,
}

impl Ledger {
    /// A ledger of nothing. It takes no memory.
    pub fn new(alloc: Global) -> Ledger
        ensures { (book result ≡ new_book) × (before result ≡ None) × (lapsed_in result ≡ 0) }
    {
        Ledger {
            lists: Lists::new(alloc),
            before: None,
            lapsed: 0,
        }
    }

    // What the scans look at.
    fn seen(&self, without: Option<ChunkName>) -> Seen<'_>
        ensures told { result.told.now ≡ self.now.lists.told.items }
        ensures present { result.present.now ≡ self.now.lists.present.items }
        ensures without { result.without ≡ without }
    {
        Seen {
            told: self.lists.told.as_slice(),
            present: self.lists.present.as_slice(),
            without,
        }
    }

    /// Hears an event. A Seal changes nothing. It fails where there is no memory, and nothing is changed then.
    pub fn hear<File>(&mut self, event: &Event<File>) -> Result<(), Memory>
        ensures ok { OnOk result (Enters self.old self.new (heard_by (book self.old) (note_of event.now))) }
        ensures err { OnErr result (SameLedger self.old self.new) }
    {
        let told = Mark::of(event)?;
        let before = self.lists.copied()?;
        if let Some((mark, chunk)) = told {
            self.lists.hear(mark, chunk)?;
        }
        self.before = Some(before);
        Ok(())
    }

    /// Enters a copy of a record, before its append: of the occurrences of the number in `from`, that of the one that was
    /// entered last. It fails where there is no memory, and nothing is changed then.
    pub fn copied(&mut self, seq: Seq, from: ChunkName, to: ChunkName) -> Result<(), Memory>
        ensures ok { OnOk result (Enters self.old self.new (copied_in (book self.old) seq.0 from to)) }
        ensures err { OnErr result (SameLedger self.old self.new) }
    {
        let before = self.lists.copied()?;
        self.lists.copy(seq.0, from, to)?;
        self.before = Some(before);
        Ok(())
    }

    /// Takes back the last `hear` or `copied` that answered `Ok`. No other change may stand between.
    pub fn undo(&mut self)
        requires { IsSome (before self.old) }
        ensures book { before self.old ≡ Some (book self.new) }
        ensures none { before self.new ≡ None }
        ensures lapsed { lapsed_in self.new ≡ lapsed_in self.old }
    {
        if let Some(before) = self.before.take() {
            self.lists = before;
        }
    }

    /// The copies are secured: of each record the copy that was entered last becomes its place.
    pub fn moved(&mut self)
        ensures changes { Changes self.new (moved_in (book self.old)) }
        ensures lapsed { lapsed_in self.new ≡ lapsed_in self.old }
    {
        self.before = None;
        self.lists.settle();
    }

    /// The removal of a chunk is made good: its occurrences are not present any more.
    pub fn forget(&mut self, chunk: ChunkName)
        ensures changes { Changes self.new (forgotten_in (book self.old) chunk) }
        ensures lapsed { lapsed_in self.new ≡ min (lapsed_in self.old + lapsed (book self.old) (book self.new)) (2 ^ 64 - 1) }
    {
        self.before = None;
        let lapsed = self.seen(None).lapsed(&self.seen(Some(chunk)));
        self.lapsed = self.lapsed.saturating_add(lapsed as u64);
        self.lists.forget(chunk);
    }

    /// How many tombstones and prefix tombstones were live before a `forget` and not after it, since this was last asked; the
    /// last `u64` where there are more.
    pub fn lapsed(&mut self) -> u64
        ensures number { (result ≡ lapsed_in self.old) × (lapsed_in self.new ≡ 0) }
        ensures same { (book self.new ≡ book self.old) × (before self.new ≡ before self.old) }
    {
        mem::replace(&mut self.lapsed, 0)
    }

    /// How many present values of the key have a number below that of a present value or tombstone of it.
    pub fn stale(&self, prefix: u64, key: &[u8]) -> u64
        ensures { result ≡ stale (book self.now) (key_at prefix key.now) }
    {
        self.seen(None).stale(prefix, key) as u64
    }

    /// How many present values of the prefix have a number below that of a present prefix tombstone of it.
    pub fn stale_prefix(&self, prefix: u64) -> u64
        ensures { result ≡ stale_prefix (book self.now) prefix }
    {
        self.seen(None).stale_prefix(prefix) as u64
    }

    /// The live records of a chunk, by number. Their bytes are shared.
    pub fn live(&self, chunk: ChunkName) -> Result<Vec<Record>, Memory>
        ensures { IfOk result (λ records. records.items ≡ live_records (book self.now) chunk) }
    {
        self.seen(None).live(*self.lists.present.allocator(), chunk)
    }
}
