//! Both ends of a queue in one thread.

ghost use Rattle.gc_event.specs.Events.{IsEvent};
ghost use Rattle.gc_queue.specs.Queues.{AreEnds};

use super::events::{Handle, line_of};
use gc_event::Event;
use gc_queue::{Hearer, Joined, Teller, pair, rejoin};
use hr_base::{CHUNK_NO_END, Named};
use std::alloc::Global;
use std::test::Fail;

/// The two ends of one queue.
#[derive(Drop)]
pub struct Queue {
    teller: Teller<Handle>,
    hearer: Hearer<Handle>,
    alloc: Global,
    ghost ends: { AreEnds teller hearer },
}

impl Queue {
    /// A queue whose ring holds so many events, with the number of the first copy.
    pub fn new(alloc: Global, capacity: usize, first_copy: u64) -> Result<Queue, Fail> {
        if capacity == 0 || first_copy == 0 || CHUNK_NO_END < first_copy {
            return Err("no queue".into());
        }
        let (teller, hearer) = pair(alloc, capacity, first_copy)?;
        Ok(Queue {
            teller,
            hearer,
            alloc,
        })
    }

    /// Notes an event.
    pub fn note(&mut self, event: Event<Handle>) -> Result<(), Fail>
        requires { IsEvent ⟦<Handle as Named>⟧.name event }
    {
        self.teller.reserve(1)?;
        self.teller.note(event);
        Ok(())
    }

    /// Moves events into the ring, and answers how many.
    pub fn tell(&mut self) -> usize {
        self.teller.tell()
    }

    /// How many events wait to be told.
    pub fn behind(&self) -> usize {
        self.teller.behind()
    }

    /// How many events the ring holds.
    pub fn held(&mut self) -> usize {
        self.hearer.held(&mut self.teller)
    }

    /// The number of the first copy.
    pub fn first_copy(&self) -> u64 {
        self.hearer.first_copy()
    }

    /// The next event of the ring.
    pub fn next(&mut self) -> Option<Event<Handle>> {
        self.hearer.next()
    }

    /// The next event of the ring or of the backlog.
    pub fn next_beside(&mut self) -> Option<Event<Handle>> {
        self.hearer.next_beside(&mut self.teller)
    }

    /// The line of the next event of the ring, which is put back.
    pub fn put_back(&mut self) -> Result<Option<String>, Fail> {
        let Some(event) = self.hearer.next() else {
            return Ok(None);
        };
        let line = line_of(self.alloc, &event)?;
        self.hearer.back(event);
        Ok(Some(line))
    }

    /// What is left of both ends.
    pub fn left(self) -> Joined<Handle> {
        let Queue { teller, hearer, .. } = self;
        rejoin(teller, hearer)
    }
}
