//! The end that notes and tells.

ghost use Rattle.std.specs.Prelude.{◌≡◌, ◌⊎◌, ◌+◌, ◌<◌, ◌≤◌, [], ◌∷◌, ◌++◌, if◌then◌else◌, OnOk, false, length, take, drop};
ghost use Rattle.gc_event.specs.Events.{IsEvent};
ghost use Rattle.gc_queue.specs.Queues.{AreEnds, IsFree, SameHearer, SameTeller, Tells, TellsNothing, backlog, heard, known, known_room, noted, spare, told};

use crate::ends::{Hearer, Teller};
use gc_event::Event;
use hr_base::{Memory, Named};

impl<File: Named> Teller<File> {
    /// Takes memory for so many events more, so that they can be noted. It is refused only for want of memory.
    pub fn reserve(&mut self, count: usize) -> Result<(), Memory>
        ensures same { TellsNothing self.old self.new }
        ensures waiting { backlog self.new ≡ backlog self.old }
        ensures spare { OnOk result (count ≤ spare self.new) }
        ensures kept { spare self.old ≤ spare self.new }
    {
        self.backlog.events.try_reserve(count)?;
        Ok(())
    }

    /// Puts an event last in the backlog.
    pub fn note(&mut self, event: Event<File>)
        requires bounds { IsEvent File.name event }
        requires room { 0 < spare self.old }
        ensures same { TellsNothing self.old self.new }
        ensures waiting { backlog self.new ≡ backlog self.old ++ event ∷ [] }
        ensures noted { noted self.new ≡ noted self.old ++ event ∷ [] }
        ensures spare { spare self.old ≡ spare self.new + 1 }
    {
        self.backlog.events.push_back_reserved(event);
    }

    /// Moves events from the front of the backlog into the ring, and tells how many. Some are left only where no slot of the
    /// ring is known to be free then.
    #[tactic(auto, using(crate::proofs::Moves::tells_none, crate::proofs::Moves::tells_then, crate::proofs::Moves::tells_noted, crate::proofs::Moves::tells_all))]
    pub fn tell(&mut self) -> usize
        ensures moved { Tells result self.old self.new }
        ensures noted { noted self.new ≡ noted self.old }
        ensures most { (backlog self.new ≡ []) ⊎ (known_room self.new ≡ 0) }
    {
        let count = self.backlog.events.len();
        for moved in 0..count {
            if !self.tell_first() {
                return moved;
            }
        }
        count
    }

    // Moves the first event of the backlog, and tells whether it did.
    fn tell_first(&mut self) -> bool
        ensures moved { Tells (if result then 1 else 0) self.old self.new }
        ensures left { result ≡ false → (backlog self.new ≡ []) ⊎ (known_room self.new ≡ 0) }
    {
        if self.ring.is_full() {
            return false;
        }
        let Some(event) = self.backlog.events.pop_front() else {
            return false;
        };
        self.ring.push_reserved(event);
        true
    }

    // Moves the first event of the backlog through the ring, which is empty.
    pub(crate) fn pass(&mut self, hearer: &mut Hearer<File>)
        requires ends { AreEnds self.old hearer.old }
        requires empty { (known hearer.old ≡ []) × (heard hearer.old ≡ told self.old) }
        ensures same { SameTeller self.old self.new × SameHearer hearer.old hearer.new }
        ensures heard { heard hearer.new ≡ heard hearer.old }
        ensures free { IsFree hearer.old → IsFree hearer.new }
        ensures told { told self.new ≡ told self.old ++ take 1 (backlog self.old) }
        ensures waiting { backlog self.new ≡ drop 1 (backlog self.old) }
        ensures spare { spare self.old ≤ spare self.new }
    {
        if let Some(event) = self.backlog.events.pop_front() {
            self.ring.slots_beside(&mut hearer.ring);
            self.ring.push_reserved(event);
        }
    }

    /// How many events wait to be told.
    pub fn behind(&self) -> usize
        ensures { result ≡ length (backlog self.now) }
    {
        self.backlog.events.len()
    }
}
