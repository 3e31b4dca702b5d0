//! A small store, as an example.

ghost use Rattle.std.specs.Prelude.{[]};
ghost use Rattle.gc_law.specs.Both.{AreApart, KeepNames};
ghost use Rattle.gc_law.specs.CollectorFacts.{KeptBy};
ghost use Rattle.gc_law.specs.Events.{IsTelling};
ghost use Rattle.gc_law.specs.SmallStore.{account, collector, events, writer};
ghost use Rattle.gc_law.specs.WriterFacts.{Tells};

/// A small store, in the middle of a cycle and of a tail, has the facts of both sides.
pub fn a_small_store_keeps_both()
    ensures telling { IsTelling 0 events }
    ensures tells { Tells writer events account }
    ensures kept { KeptBy 0 events collector }
    ensures apart { AreApart writer [] collector }
    ensures named { KeepNames writer collector events [] 1 }
{}
