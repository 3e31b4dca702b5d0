//! Laws of a writer's steps: each keeps its facts.

ghost use Rattle.std.specs.Prelude.{◌≡◌, ◌++◌, ◌∷◌, [], ℕ, List, true, false, None, Some, Contains, length, take};
ghost use Rattle.hr_base.specs.declared.name.ChunkName.{ChunkName};
ghost use Rattle.dir_files.specs.Files.{FileState, IsDurable};
ghost use Rattle.dir_files.specs.Images.{Image};
ghost use Rattle.record_format.specs.declared.record.Record.{Record};
ghost use Rattle.record_format.specs.Spelling.{spelling};
ghost use Rattle.crash_law.specs.Accounts.{Account, answered, refused, synced};
ghost use Rattle.crash_law.specs.Commands.{Command, command_of, is_written, maps_after};
ghost use Rattle.crash_law.specs.Crashes.{IsImageOfPart};
ghost use Rattle.crash_law.specs.Growth.{PartRises};
ghost use Rattle.crash_law.specs.Numbered.{IsIn};
ghost use Rattle.crash_law.specs.Placed.{Placed, records_of};
ghost use Rattle.crash_law.specs.Restarts.{Fact, IsRestartOf};
ghost use Rattle.crash_law.specs.Writers.{AppendsRecord, CreatesFile, IsWholeIn, KeepsRecords, LosesRecord, SyncsRecords, Written};
ghost use Rattle.gc_event.specs.Notes.{IsOneOf};
ghost use Rattle.gc_law.specs.Both.{AreApart, files_of_both};
ghost use Rattle.gc_law.specs.CollectorFacts.{Gathered, IsSafeAt, KeptBy};
ghost use Rattle.gc_law.specs.Events.{NotedEvent, SealEvent, notes, placed_of, seal_of};
ghost use Rattle.gc_law.specs.WriterFacts.{AreOfPart, HasLeast, IsLeast, SealsFile, Tells, events_of};

/// A command keeps a writer's facts. It was answered and its record appended; or it was answered and changes nothing;
/// or the disk refused its record, of which a front was appended, or which found no file.
pub fn a_command_tells()
    ensures answered { (w t : Written) (es : List NotedEvent) (a : Account) (x : Placed)
        → Tells w es a → w.lost ≡ false → seal_of es x.chunk ≡ None
        → AppendsRecord w t x (spelling x.content) → t.lost ≡ false
        → t.maps ≡ maps_after (command_of x.content) w.maps → is_written (command_of x.content) w.maps ≡ true
        → Tells t es (answered a (command_of x.content)) }
    ensures unwritten { (w : Written) (es : List NotedEvent) (a : Account) (c : Command)
        → Tells w es a → is_written c w.maps ≡ false → Tells w es (answered a c) }
    ensures torn { (w t : Written) (es : List NotedEvent) (a : Account) (x : Placed) (n : ℕ)
        → Tells w es a → w.lost ≡ false → seal_of es x.chunk ≡ None
        → AppendsRecord w t x (take n (spelling x.content)) → t.lost ≡ true
        → t.maps ≡ w.maps → Tells t es (refused a (command_of x.content)) }
    ensures lost { (w t : Written) (es : List NotedEvent) (a : Account) (x : Placed)
        → Tells w es a → w.lost ≡ false → seal_of es x.chunk ≡ None → LosesRecord w t x → t.lost ≡ true
        → t.maps ≡ w.maps → Tells t es (refused a (command_of x.content)) }
{}

/// A call that put no record behind the others keeps a writer's facts, also where a crash now keeps more of its files,
/// or a file was created.
pub fn a_kept_writer_tells()
    ensures risen { (w t : Written) (es : List NotedEvent) (a : Account) → Tells w es a → KeepsRecords w t
        → PartRises w.partition w.files t.files → AreOfPart t.partition t.files → Tells t es a }
    ensures created { (w t : Written) (es : List NotedEvent) (a : Account) (name : ChunkName)
        → Tells w es a → KeepsRecords w t → w.lost ≡ false → seal_of es name ≡ None → CreatesFile w t name
        → Tells t es a }
{}

/// An answered sync notes the records since, and the maps are durable; then a durable file may go away in a Seal.
pub fn a_synced_writer_tells()
    ensures noted { (w t : Written) (es : List NotedEvent) (a : Account)
        → Tells w es a → w.lost ≡ false → SyncsRecords w t → AreOfPart t.partition t.files
        → Tells t (es ++ events_of w.records) (synced a) }
    ensures sealed { (w t : Written) (es : List NotedEvent) (a : Account) (name : ChunkName) (file : FileState)
        → Tells w es a → w.records ≡ [] → w.files name ≡ Some file → IsDurable file → SealsFile w t name
        → Tells t (es ++ SealEvent name file (length file.bytes) ∷ []) a }
{}

/// Where no record may lack bytes, each record since the last answered sync is whole in the file of its chunk.
pub fn each_kept_record_is_whole()
    ensures { (w : Written) (es : List NotedEvent) (a : Account) (x : Placed)
        → Tells w es a → w.lost ≡ false → Contains w.records x → IsWholeIn w.files x }
{}

/// A crash keeps each noted record whose chunk has no Seal, whole in the file of its chunk.
pub fn each_noted_record_is_safe()
    ensures { (w : Written) (es : List NotedEvent) (a : Account) (x : Placed)
        → Tells w es a → IsOneOf x (placed_of (notes es)) → seal_of es x.chunk ≡ None
        → IsSafeAt w.files x.chunk x.content }
{}

/// An image that has of each of the writer's files only what a crash has to keep, and anything that a crash may leave of
/// the others, has no record since the last answered sync, so it restarts to the durable maps; where the fronts of the
/// writer's files lie at the end of what was noted, at most.
pub fn the_least_leaves_durable()
    ensures without { (w : Written) (heard unheard : List NotedEvent) (a : Account) (c : Gathered) (image : Image)
        → Tells w (heard ++ unheard) a → KeptBy w.partition heard c → AreApart w unheard c
        → IsImageOfPart w.partition (files_of_both w unheard c) c.gone image
        → IsLeast w (heard ++ unheard) → HasLeast w image
        → (r : Record) → IsIn r (records_of w.records) → Fact image w.partition r → ⊥ }
    ensures durable { (w : Written) (heard unheard : List NotedEvent) (a : Account) (c : Gathered) (image : Image)
        → Tells w (heard ++ unheard) a → KeptBy w.partition heard c → AreApart w unheard c
        → IsImageOfPart w.partition (files_of_both w unheard c) c.gone image
        → IsLeast w (heard ++ unheard) → HasLeast w image
        → IsRestartOf (Fact image w.partition) a.durable }
{}

/// Commands, whatever their answer, and new files leave the fronts there; so does a Seal. An answered sync brings
/// them there, wherever they were before.
pub fn the_least_stays()
    ensures appended { (w t : Written) (es : List NotedEvent) (x : Placed) (piece : List ℕ)
        → IsLeast w es → AppendsRecord w t x piece → IsLeast t es }
    ensures lost { (w t : Written) (es : List NotedEvent) (x : Placed)
        → IsLeast w es → LosesRecord w t x → IsLeast t es }
    ensures created { (w t : Written) (es : List NotedEvent) (name : ChunkName)
        → IsLeast w es → CreatesFile w t name → IsLeast t es }
    ensures synced { (w t : Written) (es : List NotedEvent) (a : Account)
        → Tells w es a → w.lost ≡ false → SyncsRecords w t → AreOfPart t.partition t.files
        → IsLeast t (es ++ events_of w.records) }
    ensures sealed { (w t : Written) (es : List NotedEvent) (name : ChunkName) (file : FileState) (size : ℕ)
        → IsLeast w es → SealsFile w t name → IsLeast t (es ++ SealEvent name file size ∷ []) }
{}
