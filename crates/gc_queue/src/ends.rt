//! The ends of a queue, as they are kept.

ghost use Rattle.std.specs.Prelude.{◌≡◌, ◌++◌, ◌-◌, ◌<◌, ◌≤◌, take, length};
ghost use Rattle.std.specs.Option.{option_to_list};
ghost use Rattle.rtrb.specs.Ring.{IsPair, sent, received, known_items, producer_capacity};
ghost use Rattle.hr_base.specs.declared.limits.TheConstants.{CHUNK_NO_END};

use crate::bounds::Bounds;
use crate::waiting::{Back, Backlog};
use gc_event::Event;
use hr_base::Named;
use rtrb::{Consumer, Producer};
use std::alloc::Global;

/// The end that notes and tells. What is noted waits in a backlog, which has no limit, until it is told: then it goes into
/// the ring, which has one.
#[derive(Drop)]
pub struct Teller<File: Named> {
    pub(crate) ring: Producer<Event<File>, Global, Bounds>,
    pub(crate) backlog: Backlog<File>,
    ghost roomy: { 0 < producer_capacity ring },
}

/// The end that hears. It carries the number from which on the collector may number the copies that it makes.
#[derive(Drop)]
pub struct Hearer<File: Named> {
    pub(crate) ring: Consumer<Event<File>, Global, Bounds>,
    // The event that was put back, which is the last one received.
    pub(crate) back: Back<File>,
    pub(crate) first_copy: u64,
    ghost last: { received ring ≡ take (length (received ring) - length (option_to_list back.event)) (received ring) ++ option_to_list back.event },
    ghost numbered: { (1 ≤ first_copy) × (first_copy ≤ CHUNK_NO_END) },
}

/// Both ends in one thread again: what was noted and not heard comes out.
#[derive(Drop)]
pub struct Joined<File: Named> {
    pub(crate) teller: Teller<File>,
    pub(crate) hearer: Hearer<File>,
    ghost ends: { IsPair teller.ring hearer.ring },
    ghost whole: { received hearer.ring ++ known_items hearer.ring ≡ sent teller.ring },
}
