//! What every crash leaves of a writer's files and a collector's.

ghost use Rattle.std.specs.Prelude.{◌≡◌, ◌≤◌, ◌++◌, ℕ, false, List, Contains, Some, None};
ghost use Rattle.std.specs.Option.{option_map};
ghost use Rattle.hr_base.specs.declared.name.ChunkName.{ChunkName};
ghost use Rattle.dir_files.specs.Files.{FileState, IsFile};
ghost use Rattle.dir_files.specs.Images.{Image};
ghost use Rattle.dir_files.specs.Ports.{either_file};
ghost use Rattle.record_format.specs.declared.record.Record.{Record};
ghost use Rattle.crash_law.specs.Accounts.{Account};
ghost use Rattle.crash_law.specs.Crashes.{IsImageOfPart, Kept, PartSurvives};
ghost use Rattle.crash_law.specs.Numbered.{IsIn};
ghost use Rattle.crash_law.specs.Placed.{Placed, records_of};
ghost use Rattle.crash_law.specs.Restarts.{Fact, IsRestartOf, RestartsAs};
ghost use Rattle.crash_law.specs.Writers.{IsWholeIn, Written};
ghost use Rattle.gc_law.specs.Both.{AreApart, CopiesBelow, IsCopyKind, KeepNames, files_of_both};
ghost use Rattle.gc_law.specs.CollectorFacts.{Gathered, KeptBy};
ghost use Rattle.gc_law.specs.Events.{IsClosed, NotedEvent, seal_of};
ghost use Rattle.gc_law.specs.WriterFacts.{Tells};

/// Whatever part of what a writer noted was heard, the writer's facts and the collector's suffice: every crash
/// of the files of both, and of the Seals between them, leaves the partition so that it recovers.
pub fn what_both_leave()
    ensures survives { (w : Written) (heard unheard : List NotedEvent) (a : Account) (c : Gathered)
        → Tells w (heard ++ unheard) a → KeptBy w.partition heard c → AreApart w unheard c
        → PartSurvives w.partition (files_of_both w unheard c) c.gone a }
    // The facts of each image are old ones, which restart to the durable maps, and a part of the records since.
    ensures kept { (w : Written) (heard unheard : List NotedEvent) (a : Account) (c : Gathered) (image : Image)
        → Tells w (heard ++ unheard) a → KeptBy w.partition heard c → AreApart w unheard c
        → IsImageOfPart w.partition (files_of_both w unheard c) c.gone image
        → Kept (Fact image w.partition) a.durable (records_of w.records) }
    // An image without a record since the last answered sync gives the durable maps.
    ensures none { (w : Written) (heard unheard : List NotedEvent) (a : Account) (c : Gathered) (image : Image)
        → Tells w (heard ++ unheard) a → KeptBy w.partition heard c → AreApart w unheard c
        → IsImageOfPart w.partition (files_of_both w unheard c) c.gone image
        → ((r : Record) → IsIn r (records_of w.records) → Fact image w.partition r → ⊥)
        → IsRestartOf (Fact image w.partition) a.durable }
    // Where the disk refused no command, an image with all of them gives the maps.
    ensures all { (w : Written) (heard unheard : List NotedEvent) (a : Account) (c : Gathered) (image : Image)
        → Tells w (heard ++ unheard) a → KeptBy w.partition heard c → AreApart w unheard c
        → IsImageOfPart w.partition (files_of_both w unheard c) c.gone image
        → w.lost ≡ false → ((r : Record) → IsIn r (records_of w.records) → Fact image w.partition r)
        → IsRestartOf (Fact image w.partition) a.maps }
    // And so does what is read of the files, where each record since is whole.
    ensures read { (w : Written) (heard unheard : List NotedEvent) (a : Account) (c : Gathered)
        → Tells w (heard ++ unheard) a → KeptBy w.partition heard c → AreApart w unheard c
        → ((name : ChunkName) (file : FileState) → files_of_both w unheard c name ≡ Some file → IsFile file)
        → w.lost ≡ false → ((x : Placed) → Contains w.records x → IsWholeIn w.files x)
        → RestartsAs (λ name. option_map (λ file. file.bytes) (files_of_both w unheard c name)) w.partition a.maps }
{}

/// While nothing is heard, every crash of a writer's files and of those in its Seals leaves the partition so
/// that it recovers.
pub fn what_a_teller_leaves()
    ensures { (w : Written) (es : List NotedEvent) (a : Account) → Tells w es a
        → PartSurvives w.partition (λ name. either_file (w.files name) (seal_of es name)) (λ name. None) a }
{}

/// Names keep the files of a writer, of its Seals and of a collector apart.
pub fn names_keep_apart()
    ensures { (w : Written) (heard unheard : List NotedEvent) (a : Account) (c : Gathered) (first : ℕ)
        → Tells w (heard ++ unheard) a → KeepNames w c heard unheard first → AreApart w unheard c }
{}

/// A copy chunk with a number from the collector's first one on has no event, where all copy chunks of the events
/// have smaller numbers.
pub fn a_new_copy_chunk_has_no_event()
    ensures { (first : ℕ) (es : List NotedEvent) (name : ChunkName) → CopiesBelow first es
        → IsCopyKind name.kind → first ≤ name.number.0 → IsClosed name es }
{}
