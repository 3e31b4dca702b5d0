//! The end that hears.

ghost use Rattle.std.specs.Prelude.{◌≡◌, ◌⊎◌, ◌∷◌, ◌++◌, ◌<◌, ◌≤◌, [], IfSome, IfNone, IsSome, List, length};
ghost use mathlib.Core.List.{IsPrefix};
ghost use Rattle.gc_event.specs.Events.{IsEvent};
ghost use Rattle.gc_event.specs.declared.event.Event.{Event as EventValue};
ghost use Rattle.hr_base.specs.declared.limits.TheConstants.{CHUNK_NO_END};
ghost use Rattle.gc_queue.specs.Queues.{AreEnds, IsFree, SameHearer, SameTeller, backlog, copies_from, heard, known, noted, spare, told};

use crate::ends::{Hearer, Teller};
use gc_event::Event;
use hr_base::Named;

impl<File: Named + Drop> Hearer<File> {
    /// The event that was put back, or the next one in the ring. There is none only where this end knows of none in the ring.
    pub fn next(&mut self) -> Option<Event<File>>
        ensures same { SameHearer self.old self.new }
        ensures some { IfSome result (λ event. (heard self.new ≡ heard self.old ++ event ∷ []) × IsEvent File.name event) }
        ensures known { IfSome result (λ event. IsPrefix (known self.old) (event ∷ known self.new)) }
        ensures none { IfNone result ((heard self.new ≡ heard self.old) × (known self.new ≡ [])) }
        ensures succeeds { 0 < length (known self.old) → IsSome result }
        ensures free { IsFree self.new }
    {
        if let Some(event) = self.back.event.take() {
            return Some(event);
        }
        match self.ring.pop() {
            Ok(event) => Some(event),
            Err(_) => None,
        }
    }

    /// Puts back the event that was answered last, so that it is heard next.
    pub fn back(&mut self, event: Event<File>)
        requires free { IsFree self.old }
        requires last { (before : List (EventValue File)) × (heard self.old ≡ before ++ event ∷ []) }
        requires bounds { IsEvent File.name event }
        ensures same { SameHearer self.old self.new }
        ensures heard { heard self.old ≡ heard self.new ++ event ∷ [] }
        ensures known { known self.new ≡ event ∷ known self.old }
    {
        self.back.event = Some(event);
    }

    /// How many events the ring holds, with one that was put back. So many are heard next.
    pub fn held(&mut self, teller: &mut Teller<File>) -> usize
        requires { AreEnds teller.old self.old }
        ensures same { SameHearer self.old self.new × SameTeller teller.old teller.new }
        ensures heard { heard self.new ≡ heard self.old }
        ensures teller { (told teller.new ≡ told teller.old) × (backlog teller.new ≡ backlog teller.old) × (spare teller.new ≡ spare teller.old) }
        ensures free { IsFree self.old → IsFree self.new }
        ensures value { result ≡ length (known self.new) }
        ensures ring { heard self.new ++ known self.new ≡ told teller.new }
    {
        let back = usize::from(self.back.event.is_some());
        back + self.ring.slots_beside(&mut teller.ring)
    }

    /// The next event of the ring, or of the backlog where the ring is empty: that one goes through the ring. There is none
    /// only where all that was noted was heard.
    #[tactic(auto, using(crate::proofs::Moves::next_is_front))]
    pub fn next_beside(&mut self, teller: &mut Teller<File>) -> Option<Event<File>>
        requires { AreEnds teller.old self.old }
        ensures same { SameHearer self.old self.new × SameTeller teller.old teller.new }
        ensures noted { noted teller.new ≡ noted teller.old }
        ensures some { IfSome result (λ event. (heard self.new ≡ heard self.old ++ event ∷ []) × IsEvent File.name event) }
        ensures none { IfNone result ((heard self.new ≡ heard self.old) × (heard self.new ≡ noted teller.new)) }
        ensures front { IsPrefix (heard self.new) (noted teller.new) }
        ensures free { IsFree self.new }
        ensures ring { (told teller.new ≡ told teller.old) ⊎ ((heard self.old ≡ told teller.old) × (heard self.new ≡ told teller.new)) }
        ensures spare { spare teller.old ≤ spare teller.new }
    {
        if self.held(teller) > 0 {
            return Some(self.next_known());
        }
        teller.pass(self);
        if self.held(teller) == 0 {
            return None;
        }
        Some(self.next_known())
    }

    // The next event of those that this end knows.
    fn next_known(&mut self) -> Event<File>
        requires { 0 < length (known self.old) }
        ensures same { SameHearer self.old self.new }
        ensures heard { heard self.new ≡ heard self.old ++ result ∷ [] }
        ensures known { known self.old ≡ result ∷ known self.new }
        ensures bounds { IsEvent File.name result }
        ensures free { IsFree self.new }
    {
        match self.back.event.take() {
            Some(event) => event,
            None => self.ring.pop_known(),
        }
    }

    /// The number from which on the collector may number its copies.
    pub fn first_copy(&self) -> u64
        ensures value { result ≡ copies_from self.now }
        ensures range { (1 ≤ result) × (result ≤ CHUNK_NO_END) }
    {
        self.first_copy
    }
}
