//! A queue, from its making to its end.

ghost use Rattle.std.specs.Prelude.{◌≡◌, ◌++◌, ◌∷◌, ◌<◌, ◌≤◌, [], IfOk, IfSome, MatchOption};
ghost use Rattle.hr_base.specs.declared.limits.TheConstants.{CHUNK_NO_END};
ghost use Rattle.gc_event.specs.Events.{IsEvent};
ghost use Rattle.gc_queue.specs.Queues.{AreEnds, IsFree, backlog, copies_from, heard, known, known_room, left, noted, ring_size, told};

use crate::bounds::Bounds;
use crate::ends::{Hearer, Joined, Teller};
use crate::waiting::{Back, Backlog};
use gc_event::Event;
use hr_base::{CHUNK_NO_END, Memory, Named};
use rtrb::RingBuffer;
use std::alloc::Global;
use std::collections::VecDeque;

/// The two ends of a new queue, whose ring holds so many events. The collector may number its copies from `first_copy` on. It
/// is refused only for want of memory.
pub fn pair<File: Named + Drop>(
    alloc: Global,
    capacity: usize,
    first_copy: u64,
) -> Result<(Teller<File>, Hearer<File>), Memory>
    requires capacity { 0 < capacity }
    requires numbers { (1 ≤ first_copy) × (first_copy ≤ CHUNK_NO_END) }
    ensures ends { IfOk result (λ made. AreEnds made.0 made.1) }
    ensures teller { IfOk result (λ made. (told made.0 ≡ []) × (backlog made.0 ≡ []) × (known_room made.0 ≡ capacity) × (ring_size made.0 ≡ capacity)) }
    ensures hearer { IfOk result (λ made. (heard made.1 ≡ []) × (known made.1 ≡ []) × (copies_from made.1 ≡ first_copy) × IsFree made.1) }
{
    let (producer, consumer) = RingBuffer::with_protocol::<Global, Bounds>(alloc, capacity)?;
    let teller = Teller {
        ring: producer,
        backlog: Backlog {
            events: VecDeque::new(alloc),
        },
    };
    let hearer = Hearer {
        ring: consumer,
        back: Back { event: None },
        first_copy,
    };
    Ok((teller, hearer))
}

/// Puts both ends of a queue together.
pub fn rejoin<File: Named>(mut teller: Teller<File>, mut hearer: Hearer<File>) -> Joined<File>
    requires { AreEnds teller hearer }
    ensures { heard hearer ++ left result ≡ noted teller }
{
    hearer.ring.slots_beside(&mut teller.ring);
    Joined { teller, hearer }
}

impl<File: Named> Joined<File> {
    /// The next event that was noted and not heard. There is none exactly where none is left.
    pub fn next(&mut self) -> Option<Event<File>>
        ensures next { MatchOption result ((left self.old ≡ []) × (left self.new ≡ [])) (λ event. left self.old ≡ event ∷ left self.new) }
        ensures bounds { IfSome result (IsEvent File.name) }
    {
        let Joined { teller, hearer } = self;
        if let Some(event) = hearer.back.event.take() {
            return Some(event);
        }
        if hearer.ring.slots_beside(&mut teller.ring) > 0 {
            return Some(hearer.ring.pop_known());
        }
        teller.backlog.events.pop_front()
    }
}
