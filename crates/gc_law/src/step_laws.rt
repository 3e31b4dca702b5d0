//! Laws of a collector's steps: each keeps its facts.

ghost use Rattle.std.specs.Prelude.{◌≡◌, ◌++◌, ◌∷◌, [], ℕ, List};
ghost use Rattle.hr_base.specs.declared.name.ChunkName.{ChunkName};
ghost use Rattle.dir_files.specs.Files.{FileState, Names};
ghost use Rattle.gc_event.specs.Notes.{Note};
ghost use Rattle.gc_law.specs.CollectorFacts.{Gathered, KeptBy, nothing_gathered};
ghost use Rattle.gc_law.specs.Events.{IsTelling, NotedEvent, RecordEvent, SealEvent};
ghost use Rattle.gc_law.specs.Steps.{BeginsCopyFile, CopiesRecord, RecordCopy, FixesRemovals, HearsNote, HearsSeal, IsSpare, RemovesSource, SecuresFiles};

/// A collector that heard nothing, and has nothing, has its facts.
pub fn nothing_heard_is_kept()
    ensures { (p : ℕ) → KeptBy p [] nothing_gathered }
{}

/// What a collector hears keeps its facts, whatever is noted behind it.
pub fn hearing_keeps()
    ensures noted { (p : ℕ) (heard unheard : List NotedEvent) (c t : Gathered) (n : Note)
        → IsTelling p (heard ++ RecordEvent n ∷ unheard) → KeptBy p heard c → HearsNote c t n
        → KeptBy p (heard ++ RecordEvent n ∷ []) t }
    ensures sealed { (p : ℕ) (heard unheard : List NotedEvent) (c t : Gathered)
        (name : ChunkName) (file : FileState) (size : ℕ)
        → IsTelling p (heard ++ SealEvent name file size ∷ unheard) → KeptBy p heard c → HearsSeal c t name file
        → KeptBy p (heard ++ SealEvent name file size ∷ []) t }
{}

/// Each step of a cycle keeps a collector's facts: a copy file is created; a copy is appended, whole or torn;
/// copies are secured; a source is removed that no top needs; and the removals are made good.
pub fn a_cycle_keeps()
    ensures begun { (p : ℕ) (heard : List NotedEvent) (c t : Gathered) (name : ChunkName)
        → KeptBy p heard c → BeginsCopyFile c t name → KeptBy p heard t }
    ensures copied { (p : ℕ) (heard : List NotedEvent) (c t : Gathered) (x : RecordCopy)
        → KeptBy p heard c → x.target.partition.0 ≡ p → CopiesRecord p heard c t x → KeptBy p heard t }
    ensures secured { (p : ℕ) (heard : List NotedEvent) (c t : Gathered)
        → KeptBy p heard c → SecuresFiles p c t → KeptBy p heard t }
    ensures removed { (p : ℕ) (heard : List NotedEvent) (c t : Gathered) (name : ChunkName)
        → KeptBy p heard c → name.partition.0 ≡ p → RemovesSource c t name → IsSpare p heard c name
        → KeptBy p heard t }
    ensures fixed { (p : ℕ) (heard : List NotedEvent) (c t : Gathered) (removed : Names)
        → KeptBy p heard c → FixesRemovals p heard c t removed → KeptBy p heard t }
{}
