//! Events outside the ring: those that wait to be told, and one that was put back. Each keeps its bounds.

ghost use Rattle.std.specs.Prelude.{All, IfSome};
ghost use Rattle.gc_event.specs.Events.{IsEvent};
ghost use Rattle.gc_queue.specs.Bounds.{back_prop, events_prop};

use gc_event::Event;
use hr_base::Named;
use std::collections::VecDeque;

/// Events that were noted and wait to be told.
#[derive(Drop)]
pub(crate) struct Backlog<File: Named> {
    pub(crate) events: VecDeque<Event<File>>,
    ghost bounded: { All (IsEvent File.name) events.items } by { events_prop File.name events.items },
}

/// An event that was put back, if there is one.
#[derive(Drop)]
pub(crate) struct Back<File: Named> {
    pub(crate) event: Option<Event<File>>,
    ghost bounded: { IfSome event (IsEvent File.name) } by { back_prop File.name event },
}
