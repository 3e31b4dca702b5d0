//! Chunk files that are read from pieces.

ghost use Rattle.std.specs.Prelude.{◌≡◌, ◌≢◌, ◌⊎◌, ◌+◌, ◌<◌, ◌≤◌, ◌^◌, ℕ, List, [], ◌∷◌, ◌++◌, Err, None, Some, IfNone, IfOk, IfSome, MatchOption, MatchResult, OnErr, OnOk, length, map};
ghost use Rattle.hr_base.specs.declared.limits.TheConstants.{MAX_RECORD_LEN};
ghost use Rattle.record_format.specs.declared.record.Record.{Record};
ghost use Rattle.record_format.specs.Spelling.{spellings};
ghost use Rattle.chunk_read.specs.Chunks.{IsChunkOf, IsDamagedAt};
ghost use Rattle.chunk_read.specs.Readings.{IsRead, torn_bytes};
ghost use Rattle.chunk_read.specs.Walks.{AreAllOf, StandsFor, first_offset, new_walk, pending, whole_to};

use crate::found::{End, read_records};
use crate::refusal::ReadRefusal;
use hr_base::Class;
use record_format::Record;
use std::alloc::{AllocError, Global};
use std::collections::VecDeque;
use std::marker::Model;

/// Reads a chunk file that comes in pieces, and hands out its records one by one.
#[derive(Debug, Drop)]
pub struct Walk {
    class: Class,
    /// How many bytes were fed.
    fed: u64,
    /// The whole records that were not handed out, each with the offset of its first byte.
    waiting: VecDeque<(u64, Record)>,
    /// The bytes behind the whole records. A damaged walk keeps none.
    left: Vec<u8>,
    /// Where the bytes are damaged.
    damage: Option<u64>,
}

impl Model for Walk {
    ghost use Rattle.chunk_read.specs.Walks.{IsWalk, WalkState};

    ghost Value = { WalkState };

    ghost view = { λ it. record {
      class = it.class;
      fed = it.fed;
      waiting = it.waiting.items;
      left = it.left.items;
      damage = it.damage;
    } };

    ghost invariant = { λ it. IsWalk (record {
      class = it.class;
      fed = it.fed;
      waiting = it.waiting.items;
      left = it.left.items;
      damage = it.damage;
    }) };
}

impl Walk {
    /// A walk to which nothing was fed. It takes no memory.
    pub fn new(alloc: Global, class: Class) -> Walk
        ensures new { result ≡ new_walk class }
        ensures stands { StandsFor result [] [] }
    {
        Walk {
            class,
            fed: 0,
            waiting: VecDeque::new(alloc),
            left: Vec::new(alloc),
            damage: None,
        }
    }

    /// Takes the next piece of the file, of any length. After `Memory` nothing of it was taken, and it may be fed
    /// again. After `Damaged` each feed answers the same.
    pub fn feed(&mut self, piece: &[u8]) -> Result<(), ReadRefusal>
        requires { self.old.fed + length piece.now < 2 ^ 64 }

        // Unless memory ran out, the walk stands for the bytes before and the piece, whatever it stood for.
        ensures taken { result ≢ Err ReadRefusal.Memory → (fed : List ℕ) (handed : List (ℕ × Record))
            → StandsFor self.old fed handed → StandsFor self.new (fed ++ piece.now) handed }
        ensures memory { result ≡ Err ReadRefusal.Memory → self.new ≡ self.old }
        ensures ok { OnOk result (self.new.damage ≡ None) }
        ensures damaged { (at : ℕ) → result ≡ Err (ReadRefusal.Damaged at) → self.new.damage ≡ Some at }
        ensures again { (at : ℕ) → self.old.damage ≡ Some at → result ≡ Err (ReadRefusal.Damaged at) }
        ensures class { self.new.class ≡ self.old.class }

        // Bytes that are damaged there, and no others, are refused as such, unless memory runs out.
        ensures place { (fed : List ℕ) (handed : List (ℕ × Record)) → StandsFor self.old fed handed
            → (at : ℕ) → result ≡ Err (ReadRefusal.Damaged at)
            → IsDamagedAt self.old.class (fed ++ piece.now) at }
        ensures exact { (fed : List ℕ) (handed : List (ℕ × Record)) → StandsFor self.old fed handed
            → (at : ℕ) → IsDamagedAt self.old.class (fed ++ piece.now) at
            → MatchResult result (λ _. ⊥) (λ e. (e ≡ ReadRefusal.Damaged at) ⊎ (e ≡ ReadRefusal.Memory)) }
    {
        if let Some(at) = self.damage {
            self.fed += piece.len() as u64;
            return Err(ReadRefusal::Damaged { at });
        }
        let begin = self.fed - self.left.len() as u64;
        let end = take_in(&mut self.waiting, &mut self.left, piece, self.class, begin)?;
        self.fed += piece.len() as u64;
        match end {
            End::Torn(_) => Ok(()),
            End::Damaged(at) => {
                self.damage = Some(at);
                Err(ReadRefusal::Damaged { at })
            }
        }
    }

    /// The next whole record, with the offset of its first byte. It takes no memory.
    pub fn next(&mut self) -> Option<(u64, Record)>
        ensures step { MatchOption result ((self.old.waiting ≡ []) × (self.new ≡ self.old))
            (λ r. self.old ≡ record self.new { waiting = r ∷ self.new.waiting }) }
        ensures some { IfSome result (λ r. (fed : List ℕ) (handed : List (ℕ × Record))
            → StandsFor self.old fed handed → StandsFor self.new fed (handed ++ r ∷ [])) }
        ensures none { IfNone result ((fed : List ℕ) (handed : List (ℕ × Record))
            → StandsFor self.old fed handed → AreAllOf self.old.class fed handed) }
        ensures short { IfNone result (self.new.damage ≡ None → pending self.new < MAX_RECORD_LEN) }
    {
        self.waiting.pop_front()
    }

    /// How many of the bytes fed are in no record handed out.
    pub fn pending(&self) -> usize
        ensures count { result ≡ pending self.now }
        ensures exact { (fed : List ℕ) (handed : List (ℕ × Record)) → StandsFor self.now fed handed
            → result + length (spellings (map (λ r. r.1) handed)) ≡ length fed }
    {
        (self.fed - self.first_pending()) as usize
    }

    // The offset of the first byte that is in no record handed out.
    fn first_pending(&self) -> u64
        ensures { result ≡ first_offset self.now.waiting (whole_to self.now) }
    {
        match self.waiting.front() {
            Some(first) => first.0,
            None => match self.damage {
                Some(at) => at,
                None => self.fed - self.left.len() as u64,
            },
        }
    }

    /// The length of the torn rest, once all records were handed out: what the last call of `next` says.
    pub fn finish(self) -> u64
        requires drained { self.waiting ≡ [] }
        requires undamaged { self.damage ≡ None }
        ensures rest { result ≡ length self.left }
        ensures chunk { (fed : List ℕ) (handed : List (ℕ × Record)) → StandsFor self fed handed
            → IsChunkOf self.class fed (record { records = handed; rest = result }) }
    {
        self.left.len() as u64
    }
}

// Takes the piece behind `left`, which begins at this offset. The records that are whole now wait, and what is
// left behind them is kept, unless it is damaged. Where memory runs out, all is as before.
fn take_in(
    waiting: &mut VecDeque<(u64, Record)>,
    left: &mut Vec<u8>,
    piece: &[u8],
    class: Class,
    begin: u64,
) -> Result<End, AllocError>
    requires { begin + length left.old.items + length piece.now < 2 ^ 64 }
    ensures taken { IfOk result (λ end. (found : List (ℕ × Record))
        × (waiting.new.items ≡ waiting.old.items ++ found)
        × IsRead class begin (left.old.items ++ piece.now) found end
        × (left.new.items ≡ torn_bytes (left.old.items ++ piece.now) end)) }
    ensures err { OnErr result ((waiting.new.items ≡ waiting.old.items) × (left.new.items ≡ left.old.items)) }
{
    let kept = left.len();
    left.extend_from_slice(piece)?;
    match add_records(waiting, left, class, begin) {
        Ok(End::Torn(count)) => {
            keep_last(left, count);
            Ok(End::Torn(count))
        }
        Ok(End::Damaged(at)) => {
            left.clear();
            Ok(End::Damaged(at))
        }
        Err(refused) => {
            left.truncate(kept);
            Err(refused)
        }
    }
}

// Adds the records that the bytes begin with to those that wait, and says how the bytes end. The first byte has
// the offset `begin`.
fn add_records(
    waiting: &mut VecDeque<(u64, Record)>,
    bytes: &[u8],
    class: Class,
    begin: u64,
) -> Result<End, AllocError>
    requires { begin + length bytes.now < 2 ^ 64 }
    ensures read { IfOk result (λ end. (found : List (ℕ × Record))
        × (waiting.new.items ≡ waiting.old.items ++ found)
        × IsRead class begin bytes.now found end) }
    ensures err { OnErr result (waiting.new.items ≡ waiting.old.items) }
{
    let found = read_records(*waiting.allocator(), bytes, class, begin)?;
    let mut records = VecDeque::from_vec(found.records);
    waiting.append(&mut records)?;
    Ok(found.end)
}

// Keeps the last bytes, so many, and moves none where these are all.
fn keep_last(bytes: &mut Vec<u8>, count: usize)
    requires { count ≤ length bytes.old.items }
    ensures { bytes.new.items ≡ torn_bytes bytes.old.items (End.Torn count) }
{
    let before = bytes.len() - count;
    if before > 0 {
        bytes.drain(..before);
    }
}
