//! What every event in a ring keeps.

use gc_event::Event;
use hr_base::Named;
use rtrb::Protocol;

/// Each event keeps its bounds, so whoever hears it knows them.
pub struct Bounds;

impl<File: Named> Protocol<Event<File>> for Bounds {
    ghost use Rattle.gc_event.specs.Events.{IsEvent};

    ghost allows = { λ before event. IsEvent File.name event };
}
