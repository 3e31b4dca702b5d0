//! Laws of what a partition notes.

ghost use Rattle.std.specs.Prelude.{◌≡◌, ◌<◌, ◌++◌, ◌∷◌, [], ℕ, List, None, length};
ghost use Rattle.hr_base.specs.declared.name.ChunkName.{ChunkName};
ghost use Rattle.dir_files.specs.Files.{FileState};
ghost use Rattle.record_format.specs.declared.record.Record.{Record};
ghost use Rattle.record_format.specs.Spelling.{seq_of};
ghost use Rattle.crash_law.specs.Accounts.{fresh_account};
ghost use Rattle.crash_law.specs.Numbered.{IsIn};
ghost use Rattle.crash_law.specs.Placed.{Base};
ghost use Rattle.crash_law.specs.Writers.{WriterStart, Written};
ghost use Rattle.gc_event.specs.Notes.{IsOneOf, Note, Own, number_of};
ghost use Rattle.gc_law.specs.Events.{IsSealedFile, IsTelling, NotedEvent, RecordEvent, SealEvent, notes, seal_of};
ghost use Rattle.gc_law.specs.Restarting.{NotesFound, Opens};
ghost use Rattle.gc_law.specs.WriterFacts.{HasDoneNothing, Tells};

/// A record with a greater number, in a chunk without a Seal, may be noted; and so may the Seal of a chunk
/// without one, whose file has just the records of its events.
pub fn a_telling_grows()
    ensures noted { (p : ℕ) (es : List NotedEvent) (r : Record) (chunk : ChunkName) → IsTelling p es
        → ((m : Note) → IsOneOf m (notes es) → number_of m < seq_of r) → seal_of es chunk ≡ None
        → IsTelling p (es ++ RecordEvent (Own r chunk) ∷ []) }
    ensures sealed { (p : ℕ) (es : List NotedEvent) (name : ChunkName) (file : FileState)
        → IsTelling p es → seal_of es name ≡ None → (sealed : IsSealedFile p es name file)
        → ((r : Record) → IsIn r sealed.records → IsOneOf (Own r name) (notes es))
        → IsTelling p (es ++ SealEvent name file (length file.bytes) ∷ []) }
{}

/// What a restart notes of found files is what a writer may begin with: a writer that has done nothing since
/// has its facts over it, for a fresh account of the maps that the files restart to.
pub fn what_is_found_opens()
    ensures opens { (p : ℕ) (es : List NotedEvent) (b : WriterStart)
        → Base p b.found b.maps b.first → NotesFound p b.found es → Opens p es b }
    ensures tells { (w : Written) (es : List NotedEvent) (b : WriterStart)
        → Base w.partition b.found b.maps b.first → NotesFound w.partition b.found es → HasDoneNothing w b
        → Tells w es (fresh_account b.maps) }
{}
