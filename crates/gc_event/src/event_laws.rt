//! Laws of record events.

ghost use Rattle.std.specs.Prelude.{◌≡◌, false, List, Some, None};
ghost use Rattle.hr_base.specs.Entries.{Key};
ghost use Rattle.gc_event.specs.Notes.{IsOneOf, IsTop, Note, concerns, id_of, top};

/// The top of a key has the greatest number of the events that touch it, and is dead only where all of these are.
pub fn the_top_is_greatest()
    ensures { (ns : List Note) (k : Key) (n : Note) → top ns k ≡ Some n → IsTop ns k n }
{}

/// A key has no top only where no event touches it.
pub fn where_none_touches_there_is_no_top()
    ensures { (ns : List Note) (k : Key) → top ns k ≡ None
        → (n : Note) → IsOneOf n ns → concerns (id_of n) k ≡ false }
{}
