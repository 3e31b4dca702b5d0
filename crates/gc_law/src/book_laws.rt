//! Laws of a collector's table.

ghost use Rattle.std.specs.Prelude.{◌≡◌, ◌++◌, ◌∷◌, [], ℕ, List, true, false, Some};
ghost use Rattle.hr_base.specs.declared.name.ChunkName.{ChunkName};
ghost use Rattle.dir_files.specs.Files.{FileState, Files, IsDurable, Names};
ghost use Rattle.record_format.specs.Spelling.{seq_of};
ghost use Rattle.gc_event.specs.Books.{Book, Entry, copied_in, heard_in, is_waiting, last_in, moved_in, new_book};
ghost use Rattle.gc_event.specs.Live.{is_live};
ghost use Rattle.gc_event.specs.Notes.{IsOneOf, Note, Own, identity_of};
ghost use Rattle.gc_law.specs.CollectorFacts.{Gathered, KeptBy, nothing_gathered};
ghost use Rattle.gc_law.specs.Events.{IsTelling, NotedEvent, RecordEvent, SealEvent, notes};
ghost use Rattle.gc_law.specs.Steps.{BeginsCopyFile, CopiesRecord, RecordCopy, FixesRemovals, HearsNote, HearsSeal, IsSpare, RemovesSource, SecuresFiles, among};
ghost use Rattle.gc_law.specs.Ties.{AreCopied, AreSecured, Ties, forgotten_each, table_outside};

/// No top needs the file of a chunk in which nothing is live.
pub fn what_is_dead_is_spare()
    ensures { (p : ℕ) (heard : List NotedEvent) (c : Gathered) (b : Book) (name : ChunkName) → Ties p heard c b
        → ((e : Entry) → IsOneOf e b.present → e.chunk ≡ name → is_live b e ≡ false) → IsSpare p heard c name }
{}

/// Each step of a collector, made in the table too, keeps what ties the two. A new table has nothing.
pub fn a_table_stays_tied()
    ensures new { (p : ℕ) → Ties p [] nothing_gathered new_book }
    ensures noted { (p : ℕ) (heard unheard : List NotedEvent) (c t : Gathered) (b : Book) (n : Note)
        → IsTelling p (heard ++ RecordEvent n ∷ unheard) → KeptBy p heard c → HearsNote c t n → Ties p heard c b
        → Ties p (heard ++ RecordEvent n ∷ []) t (heard_in b n) }
    ensures sealed { (p : ℕ) (heard unheard : List NotedEvent) (c t : Gathered) (b : Book)
        (name : ChunkName) (file : FileState) (size : ℕ)
        → IsTelling p (heard ++ SealEvent name file size ∷ unheard) → KeptBy p heard c → HearsSeal c t name file
        → Ties p heard c b → Ties p (heard ++ SealEvent name file size ∷ []) t b }
    ensures begun { (p : ℕ) (heard : List NotedEvent) (c t : Gathered) (b : Book) (name : ChunkName)
        → KeptBy p heard c → Ties p heard c b → BeginsCopyFile c t name → Ties p heard t b }
    ensures copied { (p : ℕ) (heard : List NotedEvent) (c t : Gathered) (b : Book) (x : RecordCopy) (e : Entry)
        → KeptBy p heard c → Ties p heard c b → x.target.partition.0 ≡ p → CopiesRecord p heard c t x
        → last_in b.present (seq_of x.content) x.source ≡ Some e → e.id ≡ identity_of x.content
        → Ties p heard t (copied_in b (seq_of x.content) x.source x.target) }
    // A crash keeps more of some files, and no place moves.
    ensures risen { (p : ℕ) (heard : List NotedEvent) (c t : Gathered) (b : Book)
        → KeptBy p heard c → Ties p heard c b → SecuresFiles p c t → Ties p heard t b }
    ensures secured { (p : ℕ) (heard unheard : List NotedEvent) (c t : Gathered) (b : Book)
        → IsTelling p (heard ++ unheard) → KeptBy p heard c → Ties p heard c b → SecuresFiles p c t
        → AreSecured p heard t.files b.present → Ties p heard t (moved_in b) }
    ensures removed { (p : ℕ) (heard : List NotedEvent) (c t : Gathered) (b : Book) (name : ChunkName)
        → KeptBy p heard c → Ties p heard c b → RemovesSource c t name
        → ((e : Entry) → IsOneOf e b.present → e.chunk ≡ name → is_live b e ≡ false) → Ties p heard t b }
    ensures fixed { (p : ℕ) (heard : List NotedEvent) (c t : Gathered) (b : Book) (removed : Names)
        → KeptBy p heard c → Ties p heard c b → FixesRemovals p heard c t removed
        → Ties p heard t (table_outside removed b) }
    // Where chunks are forgotten one by one, their occurrences are.
    ensures forgotten { (b : Book) (names : List ChunkName)
        → forgotten_each b names ≡ table_outside (among names) b }
{}

/// A copy that was appended whole lies so in its copy file until it is secured; and with both syncs all copies
/// are.
pub fn copies_wait_whole()
    ensures noted { (p : ℕ) (heard : List NotedEvent) (c t : Gathered) (b : Book) (n : Note)
        → AreCopied p heard c.files b.present → HearsNote c t n
        → AreCopied p (heard ++ RecordEvent n ∷ []) t.files (heard_in b n).present }
    ensures sealed { (p : ℕ) (heard : List NotedEvent) (c t : Gathered) (b : Book)
        (name : ChunkName) (file : FileState) (size : ℕ)
        → AreCopied p heard c.files b.present → HearsSeal c t name file
        → AreCopied p (heard ++ SealEvent name file size ∷ []) t.files b.present }
    ensures begun { (p : ℕ) (heard : List NotedEvent) (c t : Gathered) (b : Book) (name : ChunkName)
        → AreCopied p heard c.files b.present → BeginsCopyFile c t name → AreCopied p heard t.files b.present }
    ensures copied { (p : ℕ) (heard : List NotedEvent) (c t : Gathered) (b : Book)
        (x : RecordCopy) (e : Entry) (chunk : ChunkName)
        → CopiesRecord p heard c t x → x.missing ≡ [] → x.target.partition.0 ≡ p
        → AreCopied p heard c.files b.present
        → last_in b.present (seq_of x.content) x.source ≡ Some e → e.id ≡ identity_of x.content
        → IsOneOf (Own x.content chunk) (notes heard)
        → AreCopied p heard t.files (copied_in b (seq_of x.content) x.source x.target).present }
    ensures risen { (p : ℕ) (heard : List NotedEvent) (c t : Gathered) (b : Book)
        → AreCopied p heard c.files b.present → SecuresFiles p c t → AreCopied p heard t.files b.present }
    ensures secured { (p : ℕ) (heard unheard : List NotedEvent) (c t : Gathered) (present : List Entry)
        → IsTelling p (heard ++ unheard) → AreCopied p heard c.files present → SecuresFiles p c t
        → ((e : Entry) (file : FileState) → IsOneOf e present → is_waiting e ≡ true → t.files e.chunk ≡ Some file
        → IsDurable file)
        → AreSecured p heard t.files present }
    ensures moved { (p : ℕ) (heard : List NotedEvent) (files : Files) (b : Book)
        → AreCopied p heard files (moved_in b).present }
{}
