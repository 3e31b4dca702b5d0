//! The two lists: what was told, and what is present.

ghost use Rattle.std.specs.Prelude.{◌≡◌, ◌+◌, ◌<◌, ◌==◌, ◌&&◌, IfOk, OnOk, OnErr, drop, filter, length, map, not, slice_index_or};
ghost use Rattle.std.specs.Option.{option_map};
ghost use Rattle.hr_base.specs.NameTests.{is_name};
ghost use Rattle.gc_event.specs.Books.{copied_in, forgotten_in, heard_in, is_at, is_waiting, last_in, moved_in, new_book};
ghost use Rattle.occ_ledger.specs.Marks.{identity_in, note_in};
ghost use Rattle.occ_ledger.specs.Lists.{book_in, entry_in};
ghost use Rattle.occ_ledger.specs.Scans.{ended_spot, place_in, placed, spots_copy, unplaced_spot};
ghost use Rattle.occ_ledger.specs.declared.lists.Spot.{Spot as SpotValue};

use crate::mark::Mark;
use hr_base::{ChunkName, Memory};
use std::alloc::Global;

/// A record event that was told.
#[derive(Drop)]
pub(crate) struct Notice {
    pub(crate) mark: Mark,
    pub(crate) chunk: ChunkName,
}

/// An occurrence that is present.
#[derive(Drop)]
pub(crate) struct Spot {
    pub(crate) mark: Mark,
    pub(crate) chunk: ChunkName,
    // A copy waits until it is secured.
    pub(crate) waiting: bool,
    // It is its record's place.
    pub(crate) place: bool,
}

/// What was told and what is present, each in the order in which it was entered.
#[derive(Drop)]
pub(crate) struct Lists {
    pub(crate) told: Vec<Notice>,
    pub(crate) present: Vec<Spot>,
}

impl Spot {
    /// Whether it lies in the chunk.
    pub(crate) fn is_in(&self, chunk: ChunkName) -> bool
        ensures { result ≡ is_name self.now.chunk chunk }
    {
        self.chunk == chunk
    }

    /// Whether it is an occurrence of the number in the chunk.
    pub(crate) fn is_at(&self, seq: u64, chunk: ChunkName) -> bool
        ensures { result ≡ is_at seq chunk (entry_in self.now) }
    {
        self.mark.seq() == seq && self.is_in(chunk)
    }

    /// Whether it is a copy of a record that waits.
    pub(crate) fn is_waiting(&self) -> bool
        ensures { result ≡ is_waiting (entry_in self.now) }
    {
        self.waiting && self.mark.record().is_some()
    }

    // Whether it stays its record's place, where an event of this number is told.
    fn keeps_place(&self, own: bool, seq: u64) -> bool
        ensures { result ≡ self.now.place && not (own && ((identity_in self.now.mark).seq == seq)) }
    {
        self.place && !(own && self.mark.seq() == seq)
    }

    fn copied(&self) -> Result<Spot, Memory>
        ensures { IfOk result (λ copy. copy ≡ self.now) }
    {
        Ok(Spot {
            mark: self.mark.copied()?,
            chunk: self.chunk,
            waiting: self.waiting,
            place: self.place,
        })
    }
}

impl Notice {
    fn copied(&self) -> Result<Notice, Memory>
        ensures { IfOk result (λ copy. copy ≡ self.now) }
    {
        Ok(Notice {
            mark: self.mark.copied()?,
            chunk: self.chunk,
        })
    }
}

// Where an event of a record's own kind was told, none of these with its number is the record's place any more.
fn unplace(present: &mut [Spot], own: bool, seq: u64)
    ensures { present.new ≡ map (unplaced_spot own seq) present.old }
{
    for spot in present.iter_mut() {
        spot.place = spot.keeps_place(own, seq);
    }
}

impl Lists {
    pub(crate) fn new(alloc: Global) -> Lists
        ensures { book_in result ≡ new_book }
    {
        Lists {
            told: Vec::new(alloc),
            present: Vec::new(alloc),
        }
    }

    /// The same lists once more.
    pub(crate) fn copied(&self) -> Result<Lists, Memory>
        ensures { IfOk result (λ copy. book_in copy ≡ book_in self.now) }
    {
        let alloc = *self.told.allocator();
        let told = copied_told(alloc, self.told.as_slice())?;
        let present = copied_present(alloc, self.present.as_slice())?;
        Ok(Lists { told, present })
    }

    /// An event is told; one of its own kind makes its chunk the record's place.
    pub(crate) fn hear(&mut self, mark: Mark, chunk: ChunkName) -> Result<(), Memory>
        ensures ok { OnOk result (book_in self.new ≡ heard_in (book_in self.old) (note_in (mark, chunk))) }
        ensures err { OnErr result (book_in self.new ≡ book_in self.old) }
    {
        self.told.reserve(1)?;
        self.present.reserve(1)?;
        let own = mark.record().is_some();
        let spot = Spot {
            mark: mark.copied()?,
            chunk,
            waiting: false,
            place: own,
        };
        unplace(self.present.as_mut_slice(), own, mark.seq());
        self.present.push_reserved(spot);
        self.told.push_reserved(Notice { mark, chunk });
        Ok(())
    }

    /// A copy is entered, before its append.
    pub(crate) fn copy(&mut self, seq: u64, from: ChunkName, to: ChunkName) -> Result<(), Memory>
        ensures ok { OnOk result (book_in self.new ≡ copied_in (book_in self.old) seq from to) }
        ensures err { OnErr result (book_in self.new ≡ book_in self.old) }
    {
        let Some(source) = last_at(self.present.as_slice(), seq, from) else {
            return Ok(());
        };
        let spot = Spot {
            mark: source.mark.copied()?,
            chunk: to,
            waiting: true,
            place: false,
        };
        self.present.push(spot)?;
        Ok(())
    }

    /// The copies are secured: of each record the copy that was entered last becomes its place.
    pub(crate) fn settle(&mut self)
        ensures { book_in self.new ≡ moved_in (book_in self.old) }
    {
        settle(self.present.as_mut_slice());
    }

    /// The removal of a chunk is made good: its occurrences are not present any more.
    pub(crate) fn forget(&mut self, chunk: ChunkName)
        ensures { book_in self.new ≡ forgotten_in (book_in self.old) chunk }
    {
        leave_out(&mut self.present, chunk);
    }
}

// Of the occurrences of the number in the chunk the one that was entered last.
fn last_at(present: &[Spot], seq: u64, chunk: ChunkName) -> Option<&Spot>
    ensures { option_map (λ s. entry_in s.now) result ≡ last_in (map entry_in present.now) seq chunk }
{
    let mut last = None;
    for spot in present {
        if spot.is_at(seq, chunk) {
            last = Some(spot);
        }
    }
    last
}

// Those of the chunk go.
fn leave_out(present: &mut Vec<Spot>, chunk: ChunkName)
    ensures { present.new.items ≡ filter (λ s. not (is_name s.chunk chunk)) present.old.items }
{
    present.retain(|spot| !spot.is_in(chunk));
}

fn copied_told(alloc: Global, told: &[Notice]) -> Result<Vec<Notice>, Memory>
    ensures { IfOk result (λ copies. copies.items ≡ told.now) }
{
    let mut copies = Vec::with_capacity(alloc, told.len())?;
    for notice in told {
        copies.push(notice.copied()?)?;
    }
    Ok(copies)
}

fn copied_present(alloc: Global, present: &[Spot]) -> Result<Vec<Spot>, Memory>
    ensures { IfOk result (λ copies. copies.items ≡ present.now) }
{
    let mut copies = Vec::with_capacity(alloc, present.len())?;
    for spot in present {
        copies.push(spot.copied()?)?;
    }
    Ok(copies)
}

// One of these is a copy of the number that waits.
fn has_copy(present: &[Spot], seq: u64) -> bool
    ensures { result ≡ spots_copy present.now seq }
{
    present
        .iter()
        .any(|spot| spot.mark.seq() == seq && spot.is_waiting())
}

// Whether an occurrence is its record's place, once the copies are secured.
fn place_after(present: &[Spot], i: usize) -> bool
    requires { i < length present.now }
    ensures { (d : SpotValue) → result ≡ place_in present.now (slice_index_or present.now i d) (drop (i + 1) present.now) }
{
    let spot = &present[i];
    let seq = spot.mark.seq();
    if spot.is_waiting() {
        !has_copy(&present[i + 1..], seq)
    } else {
        spot.place && !has_copy(present, seq)
    }
}

// The places go over to the copies, and none waits any more.
fn settle(present: &mut [Spot])
    ensures { present.new ≡ map ended_spot (placed present.old present.old) }
{
    move_places(present);
    end_waiting(present);
}

// Each record's place is its copy that was entered last, if there is one.
fn move_places(present: &mut [Spot])
    ensures { present.new ≡ placed present.old present.old }
{
    for i in 0..present.len() {
        let place = place_after(present, i);
        present[i].place = place;
    }
}

// No copy waits any more.
fn end_waiting(present: &mut [Spot])
    ensures { present.new ≡ map ended_spot present.old }
{
    for spot in present.iter_mut() {
        spot.waiting = false;
    }
}
